// Checks 12 to 16, 18, 19: the accounts that a camt.050 names. The rules stand in `specs/Rows.antt`, one definition for each function.
ghost use Rattle.std.specs.Prelude.{◌≡◌};
ghost use Rattle.judge.specs.Rows.{creditor_anothers, debtor_anothers, currencies_differ, digits_wrong, amount_foreign, creditor_not_hryvnia, debtor_not_hryvnia};

use crate::case::Case;

// `UAH` as `shape` has a code of three letters in one number: 85 * 65536 + 65 * 256 + 72.
pub const HRYVNIA: u64 = 5587272;

#[tactic(auto, unfolding(crate::specs::Rows::creditor_anothers))]
pub fn creditor_anothers(c: Case) -> bool
    ensures { result ≡ creditor_anothers c }
{
    c.message.credit.code != c.sender
}

#[tactic(auto, unfolding(crate::specs::Rows::debtor_anothers))]
pub fn debtor_anothers(c: Case) -> bool
    ensures { result ≡ debtor_anothers c }
{
    c.message.debit.code != c.sender
}

#[tactic(auto, unfolding(crate::specs::Rows::currencies_differ))]
pub fn currencies_differ(c: Case) -> bool
    ensures { result ≡ currencies_differ c }
{
    c.message.debit.currency != c.message.credit.currency
}

#[tactic(auto, unfolding(crate::specs::Rows::digits_wrong))]
pub fn digits_wrong(c: Case) -> bool
    ensures { result ≡ digits_wrong c }
{
    !matches!(
        (c.message.debit.digit, c.message.credit.digit),
        (1, 2) | (2, 1)
    )
}

#[tactic(auto, unfolding(crate::specs::Rows::amount_foreign, crate::specs::Values::agree))]
pub fn amount_foreign(c: Case) -> bool
    ensures { result ≡ amount_foreign c }
{
    let m = c.message;
    m.currency != Some(m.debit.currency) || m.currency != Some(m.credit.currency)
}

#[tactic(auto, unfolding(crate::specs::Rows::creditor_not_hryvnia, shape::specs::Fields::three_bytes))]
pub fn creditor_not_hryvnia(c: Case) -> bool
    ensures { result ≡ creditor_not_hryvnia c }
{
    c.message.credit.currency != HRYVNIA
}

#[tactic(auto, unfolding(crate::specs::Rows::debtor_not_hryvnia, shape::specs::Fields::three_bytes))]
pub fn debtor_not_hryvnia(c: Case) -> bool
    ensures { result ≡ debtor_not_hryvnia c }
{
    c.message.debit.currency != HRYVNIA
}
