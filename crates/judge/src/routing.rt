// Checks 25 to 34: the agents that a pacs.008 goes through, and the creditor's IBAN. The rules stand in `specs/Rows.antt`, one definition for
// each function.
ghost use Rattle.std.specs.Prelude.{◌≡◌, ◌&&◌, ◌||◌, not};
ghost use Rattle.directory.specs.Directory.{head_in};
ghost use Rattle.judge.specs.Values.{agree};
ghost use Rattle.judge.specs.Rows.{is_sep, debtor_unlisted, creditor_no_provider, instructed_no_bank, creditor_not_instant, creditor_not_served, debtor_elsewhere, creditor_elsewhere, previous_not_serving, instructing_not_serving, iban_wrong};

use crate::case::Case;
use crate::values::agree;
use directory::{Listed, bank_in, head_in, is_bank_found, is_instant, under_asp, under_sep};
use message::Agent;
use shape::field::System;

#[tactic(auto, unfolding(crate::specs::Rows::debtor_unlisted, crate::specs::Rows::is_sep, crate::specs::Rows::is_asp))]
pub fn debtor_unlisted(c: Case) -> bool
    ensures { result ≡ debtor_unlisted c }
{
    match c.message.debtor.system {
        System::Sep => !under_sep(c.debtor),
        System::Asp => !under_asp(c.debtor),
        System::Neither => true,
    }
}

#[tactic(auto, unfolding(crate::specs::Rows::creditor_no_provider, crate::specs::Rows::is_asp))]
pub fn creditor_no_provider(c: Case) -> bool
    ensures { result ≡ creditor_no_provider c }
{
    c.message.creditor.system == System::Asp && !under_asp(c.creditor)
}

#[tactic(auto, unfolding(crate::specs::Rows::instructed_no_bank))]
pub fn instructed_no_bank(c: Case) -> bool
    ensures { result ≡ instructed_no_bank c }
{
    !(is_instant(c.instructed) && is_bank_found(c.instructed))
}

#[tactic(auto, unfolding(crate::specs::Rows::creditor_not_instant, crate::specs::Rows::is_sep))]
pub fn creditor_not_instant(c: Case) -> bool
    ensures { result ≡ creditor_not_instant c }
{
    let agent = c.creditor;
    c.message.creditor.system == System::Sep && !(under_sep(agent) && is_instant(agent))
}

#[tactic(auto, unfolding(crate::specs::Rows::creditor_not_served))]
pub fn creditor_not_served(c: Case) -> bool
    ensures { result ≡ creditor_not_served c }
{
    let agent = c.creditor;
    under_asp(agent) && !(is_instant(agent) && agree(bank_in(agent), c.message.instructed))
}

// Whether an agent named under `SEP` is neither the bank nor a branch of it.
#[tactic(auto, unfolding(crate::specs::Rows::is_sep))]
fn is_elsewhere(named: Agent, listed: Option<Listed>, bank: Option<u64>) -> bool
    ensures { result ≡ (is_sep named.system && not (agree named.code bank || agree (head_in listed) bank)) }
{
    named.system == System::Sep && !(agree(named.code, bank) || agree(head_in(listed), bank))
}

#[tactic(auto, unfolding(crate::specs::Rows::debtor_elsewhere))]
pub fn debtor_elsewhere(c: Case) -> bool
    ensures { result ≡ debtor_elsewhere c }
{
    is_elsewhere(c.message.debtor, c.debtor, c.message.instructing)
}

#[tactic(auto, unfolding(crate::specs::Rows::creditor_elsewhere))]
pub fn creditor_elsewhere(c: Case) -> bool
    ensures { result ≡ creditor_elsewhere c }
{
    is_elsewhere(c.message.creditor, c.creditor, c.message.instructed)
}

#[tactic(auto, unfolding(crate::specs::Rows::previous_not_serving))]
pub fn previous_not_serving(c: Case) -> bool
    ensures { result ≡ previous_not_serving c }
{
    let bank = c.message.previous;
    bank.is_some() && under_asp(c.debtor) && !agree(bank_in(c.debtor), bank)
}

#[tactic(auto, unfolding(crate::specs::Rows::instructing_not_serving))]
pub fn instructing_not_serving(c: Case) -> bool
    ensures { result ≡ instructing_not_serving c }
{
    let bank = c.message.instructing;
    c.message.previous.is_none() && under_asp(c.debtor) && !agree(bank_in(c.debtor), bank)
}

#[tactic(auto, unfolding(crate::specs::Rows::iban_wrong, crate::specs::Rows::is_one))]
pub fn iban_wrong(c: Case) -> bool
    ensures { result ≡ iban_wrong c }
{
    c.message.iban != Some(1)
}
