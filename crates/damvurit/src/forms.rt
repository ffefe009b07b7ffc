// Answers and wishes in the form in which they go through C. What each form means stands in `specs/Boundary.antt`.
ghost use Rattle.std.specs.Prelude.{◌≡◌, ◌≤◌};
ghost use Rattle.centre.specs.Answers.{told};
ghost use Rattle.damvurit.specs.Boundary.{detail_most, result_number, seven, six, opening_in, limit_of, ltk_of, wish_of};

use centre::{Done, Refusal};
use journal::SUM_MOST;
use layout::rows::{ACCOUNT_LONG, write_account};
use seat::Wish;

// How many numbers a slip is in C.
const SLIP_VALUES: usize = 6;

// What one of a detail counts in a result.
pub const DETAIL_UNIT: u64 = 256;

// The result of a call. No call tells a higher detail than is asked here.
#[tactic(auto, unfolding(crate::specs::Boundary::result_number, centre::specs::Answers::told))]
pub fn result_of(answer: Result<Done, Refusal>) -> u64
    requires { (told answer).detail ≤ detail_most }
    ensures { result ≡ result_number (told answer) }
{
    match answer {
        Ok(_) => 0,
        Err(refusal) => refusal.number() + DETAIL_UNIT * refusal.detail(),
    }
}

// The opening number that an answer gives, or 0.
#[tactic(auto, unfolding(crate::specs::Boundary::out_of, centre::specs::Answers::told, centre::specs::Answers::slip_values, layout::specs::Rows::account_row))]
pub fn opening_in(answer: Result<Done, Refusal>) -> u64
    ensures { result ≡ opening_in (told answer) }
{
    match answer {
        Ok(Done::Opened(opening)) => opening,
        _ => 0,
    }
}

// The seven numbers of the account that an answer gives, or zeros.
#[tactic(auto, unfolding(crate::specs::Boundary::out_of, centre::specs::Answers::told, centre::specs::Answers::slip_values, layout::specs::Rows::account_row))]
pub fn account_in(answer: Result<Done, Refusal>) -> [u64; ACCOUNT_LONG]
    ensures { result ≡ seven (told answer) }
{
    let mut out = [0; ACCOUNT_LONG];
    if let Ok(Done::Holds(account)) = answer {
        write_account(&mut out, account);
    }
    out
}

// The six numbers of the slip that an answer gives, or zeros.
#[tactic(auto, unfolding(crate::specs::Boundary::out_of, centre::specs::Answers::told, centre::specs::Answers::slip_values, layout::specs::Rows::account_row))]
pub fn slip_in(answer: Result<Done, Refusal>) -> [u64; SLIP_VALUES]
    ensures { result ≡ six (told answer) }
{
    match answer {
        Ok(Done::Says(s)) => [s.kind, s.status, s.check, s.seat, s.opening, s.step],
        _ => [0; SLIP_VALUES],
    }
}

// An LPO, of which 0 is none and n + 1 is n; a lesson's is the same in `class`, and a function for both would only name the library's.
#[tactic(auto, unfolding(crate::specs::Boundary::limit_of))]
fn limit_of(lpo: u64) -> Option<u64>
    ensures { result ≡ limit_of lpo }
{
    lpo.checked_sub(1)
}

// An LTK, or one that is too high where a block is neither 0 nor 1.
#[tactic(auto, unfolding(crate::specs::Boundary::ltk_of))]
fn ltk_of(out: u64, into: u64, ltk: u64) -> u64
    ensures { result ≡ ltk_of out into ltk }
{
    if out <= 1 && into <= 1 {
        ltk
    } else {
        SUM_MOST + 1
    }
}

// The wish of a set call.
#[tactic(auto, unfolding(crate::specs::Boundary::wish_of))]
pub fn wish_of(out: u64, into: u64, ltk: u64, lpo: u64) -> Wish
    ensures { result ≡ wish_of out into ltk lpo }
{
    Wish {
        out: out == 1,
        into: into == 1,
        ltk: ltk_of(out, into, ltk),
        lpo: limit_of(lpo),
    }
}
