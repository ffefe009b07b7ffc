// What an account's settings leave. The rules stand in `specs/Limits.antt`.
ghost use Rattle.std.specs.Prelude.{◌≡◌};
ghost use Rattle.journal.specs.Limits.{blocked_out, blocked_into, available_below, turnover_above, turnover_shut};

use layout::rows::Account;

#[tactic(auto, unfolding(crate::specs::Limits::blocked_out))]
pub fn blocked_out(a: Account) -> bool
    ensures { result ≡ blocked_out a }
{
    a.settings.out == 1
}

#[tactic(auto, unfolding(crate::specs::Limits::blocked_into))]
pub fn blocked_into(a: Account) -> bool
    ensures { result ≡ blocked_into a }
{
    a.settings.into == 1
}

// Whether the money available in an account, its balance less LTK, is below an amount. It may itself be below zero.
#[tactic(auto, unfolding(crate::specs::Limits::available_below))]
pub fn available_below(a: Account, amount: u64) -> bool
    ensures { result ≡ available_below a amount }
{
    a.balance
        .checked_sub(a.settings.ltk)
        .is_none_or(|available| available < amount)
}

// An LPO stands in its row as 0 for none and n + 1 for n, and the definitions of the next two are of that number.
//
// Whether there is an LPO above 0 and turnover and an amount go above it. No sum is made, so that none can be too high.
#[tactic(auto, unfolding(crate::specs::Limits::turnover_above))]
pub fn turnover_above(a: Account, amount: u64) -> bool
    ensures { result ≡ turnover_above a amount }
{
    let lpo = a.settings.lpo;
    if lpo <= 1 {
        return false;
    }
    (lpo - 1)
        .checked_sub(a.turnover)
        .is_none_or(|left| left < amount)
}

// Whether LPO is 0.
#[tactic(auto, unfolding(crate::specs::Limits::turnover_shut))]
pub fn turnover_shut(a: Account) -> bool
    ensures { result ≡ turnover_shut a }
{
    a.settings.lpo == 1
}
