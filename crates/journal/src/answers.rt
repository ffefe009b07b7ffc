// Which step answers which, and what has become of a step. The rules stand in `specs/Answers.antt`, one definition for each function.
// That a seat has at most 24 steps stands in each clause, here and in `traces.rt`: `result_now`, `earliest`, `is_known` and `is_possible` are public
// over the seat itself (docs/CONTRACTS.md), and a type that holds the fact would ask it of every caller's value.
ghost use Rattle.std.specs.Prelude.{◌≡◌, ◌≤◌, ◌<◌, length};
ghost use Rattle.slip.specs.Meaning.{steps};
ghost use Rattle.layout.specs.Seat.{seat_long, head_of};
ghost use Rattle.journal.specs.Answers.{answer_to, waits, row_result, result_now, same_movement, answerable};

use crate::results::Outcome;
use crate::steps::{is_waiting, moves};
use crate::traces::Placed;
use layout::rows::Step;
use layout::{head, step, step_answered};

// The place of the answer to the step at a place.
#[tactic(auto, using(crate::proofs::AnswerLaws::loop_of_answer_to))]
fn answer_to(s: &[u64], k: usize) -> Option<usize>
    requires { (length s.now ≡ seat_long) × ((head_of s.now).steps ≤ steps) × (k < steps) }
    ensures { result ≡ answer_to s.now k }
{
    let number = k as u64 + 1;
    for j in 0..head(s).steps as usize {
        if step_answered(s, j) == number {
            return Some(j);
        }
    }
    None
}

// Whether a step at its place waits for its answer.
#[tactic(auto, unfolding(crate::specs::Answers::waits, crate::specs::Answers::is_answered))]
pub fn waits(s: &[u64], at: Placed) -> bool
    requires { (length s.now ≡ seat_long) × ((head_of s.now).steps ≤ steps) × (at.place < steps) }
    ensures { result ≡ waits s.now at.place at.step }
{
    is_waiting(at.step) && answer_to(s, at.place).is_none()
}

// What the row at a place holds.
fn row_result(s: &[u64], k: usize) -> Outcome
    requires { (length s.now ≡ seat_long) × (k < steps) }
    ensures { result ≡ row_result s.now k }
{
    let x = step(s, k);
    Outcome {
        status: x.status,
        check: x.check,
    }
}

// What has become of the step at a place of the journal.
#[tactic(auto, unfolding(crate::specs::Answers::result_now))]
pub fn result_now(s: &[u64], k: usize) -> Outcome
    requires { (length s.now ≡ seat_long) × ((head_of s.now).steps ≤ steps) × (k < steps) }
    ensures { result ≡ result_now s.now k }
{
    row_result(s, answer_to(s, k).unwrap_or(k))
}

// Whether two steps move the same between the same accounts.
#[tactic(auto, unfolding(crate::specs::Answers::same_movement))]
fn same_movement(x: Step, y: Step) -> bool
    ensures { result ≡ same_movement x y }
{
    (x.debit, x.credit, x.amount) == (y.debit, y.credit, y.amount)
}

// Whether a step may be the next one, by what it answers.
#[tactic(auto, unfolding(crate::specs::Answers::answerable))]
pub fn is_answerable(s: &[u64], x: Step) -> bool
    requires { (length s.now ≡ seat_long) × ((head_of s.now).steps ≤ steps) }
    ensures { result ≡ answerable x s.now }
{
    let Some(k) = x.answers.checked_sub(1) else {
        return true;
    };
    if head(s).steps < x.answers {
        return false;
    }
    let transfer = Placed {
        place: k as usize,
        step: step(s, k as usize),
    };
    waits(s, transfer) && (!moves(x) || same_movement(x, transfer.step))
}
