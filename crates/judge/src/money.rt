// Checks 20 to 24: blocks, limits and available money of the accounts that a movement is between. The rules stand in `specs/Rows.antt`, one
// definition for each function.
ghost use Rattle.std.specs.Prelude.{◌≡◌, ◌≤◌, length};
ghost use Rattle.slip.specs.Meaning.{steps};
ghost use Rattle.layout.specs.Seat.{seat_long, head_of};
ghost use Rattle.judge.specs.Rows.{kept_in, movement_in, account_at, debit_blocked, credit_blocked, money_short, limit_passed, limit_zero};

use crate::case::{Case, Movement, NO_MOVEMENT};
use crate::repeats::due_to;
use journal::{Placed, available_below, blocked_into, blocked_out, turnover_above, turnover_shut};
use layout::rows::Account;
use layout::{ACCOUNTS, account};
use message::Reply;
use table::Kind;

// What a waiting transfer is to move.
#[tactic(auto, unfolding(crate::specs::Rows::kept_in))]
fn kept_in(transfer: Option<Placed>) -> Movement
    ensures { result ≡ kept_in transfer }
{
    transfer.map_or(
        NO_MOVEMENT,
        |found| Movement {
            debit: Some(found.step.debit),
            credit: Some(found.step.credit),
            amount: found.step.amount,
        },
    )
}

// The movement that a message is about in a seat, which checks 20 to 24 run on.
#[tactic(auto, unfolding(crate::specs::Rows::movement_in, crate::specs::Rows::movement_for, crate::specs::Rows::accepts))]
pub fn movement_in(c: Case, s: &[u64]) -> Movement
    requires { (length s.now ≡ seat_long) × ((head_of s.now).steps ≤ steps) }
    ensures { result ≡ movement_in c s.now }
{
    if c.message.kind == Kind::Pacs002 && c.message.reply == Some(Reply::Accepts) {
        kept_in(due_to(c, s))
    } else {
        c.movement
    }
}

// The account with a number in the seat.
#[tactic(auto, unfolding(crate::specs::Rows::account_at))]
fn account_at(s: &[u64], number: Option<u64>) -> Option<Account>
    requires { length s.now ≡ seat_long }
    ensures { result ≡ account_at number s.now }
{
    let i = number?;
    (i < ACCOUNTS as u64).then(|| account(s, i as usize))
}

#[tactic(auto, unfolding(crate::specs::Rows::debit_blocked, crate::specs::Rows::shows))]
pub fn debit_blocked(m: Movement, s: &[u64]) -> bool
    requires { length s.now ≡ seat_long }
    ensures { result ≡ debit_blocked m s.now }
{
    account_at(s, m.debit).is_some_and(|a| blocked_out(a))
}

#[tactic(auto, unfolding(crate::specs::Rows::credit_blocked, crate::specs::Rows::shows))]
pub fn credit_blocked(m: Movement, s: &[u64]) -> bool
    requires { length s.now ≡ seat_long }
    ensures { result ≡ credit_blocked m s.now }
{
    account_at(s, m.credit).is_some_and(|a| blocked_into(a))
}

#[tactic(auto, unfolding(crate::specs::Rows::money_short, crate::specs::Rows::shows))]
pub fn money_short(m: Movement, s: &[u64]) -> bool
    requires { length s.now ≡ seat_long }
    ensures { result ≡ money_short m s.now }
{
    account_at(s, m.debit).is_some_and(|a| available_below(a, m.amount))
}

#[tactic(auto, unfolding(crate::specs::Rows::limit_passed, crate::specs::Rows::shows))]
pub fn limit_passed(m: Movement, s: &[u64]) -> bool
    requires { length s.now ≡ seat_long }
    ensures { result ≡ limit_passed m s.now }
{
    account_at(s, m.debit).is_some_and(|a| turnover_above(a, m.amount))
}

#[tactic(auto, unfolding(crate::specs::Rows::limit_zero, crate::specs::Rows::shows))]
pub fn limit_zero(m: Movement, s: &[u64]) -> bool
    requires { length s.now ≡ seat_long }
    ensures { result ≡ limit_zero m s.now }
{
    account_at(s, m.debit).is_some_and(|a| turnover_shut(a))
}
