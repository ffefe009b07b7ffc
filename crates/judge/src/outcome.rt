// What becomes of a message, and the step that it is. The rules stand in `specs/Verdict.antt`.
ghost use Rattle.std.specs.Prelude.{◌≡◌, true, ◌||◌, cond, eqb, ◌≤◌, length};
ghost use Rattle.slip.specs.Meaning.{steps, status_number};
ghost use Rattle.layout.specs.Seat.{seat_long, head_of};
ghost use Rattle.journal.specs.Traces.{place_fits};
ghost use Rattle.judge.specs.Rows.{asked_after, due_to};
ghost use Rattle.judge.specs.Verdict.{told_of, end_of, carried, awaits, step_number, closed_by, step_made, step_by};

use crate::case::{Case, Movement, NO_MOVEMENT};
use crate::money::movement_in;
use crate::repeats::{asked_after, due_to};
use journal::{Outcome, Placed, no_step, result_now};
use layout::rows::Step;
use slip::{ACCC, Status, WAITS, kind_number, status_number};
use table::{Kind, is_rejecting};

// An end with a status and no check.
fn unchecked(status: Status) -> Outcome
    ensures { result ≡ record { status = status_number status; check = 0 } }
{
    Outcome {
        status: status_number(status),
        check: 0,
    }
}

// How a message ends that is done in one way and fails by a check in another.
fn ended(check: u64, done: Outcome, failed: Status) -> Outcome
    ensures { result ≡ cond (eqb check 0) done (record { status = status_number failed; check = check }) }
{
    if check == 0 {
        return done;
    }
    Outcome {
        status: status_number(failed),
        check,
    }
}

// What has become of the payment that is asked after.
#[tactic(auto, unfolding(crate::specs::Verdict::told_of))]
fn told_of(payment: Option<Placed>, s: &[u64]) -> Outcome
    requires { (length s.now ≡ seat_long) × ((head_of s.now).steps ≤ steps) × (place_fits payment ≡ true) }
    ensures { result ≡ told_of payment s.now }
{
    match payment {
        Some(found) => result_now(s, found.place),
        None => unchecked(Status::Pdng),
    }
}

// What becomes of a message that fails by this check, or by none.
#[tactic(auto, unfolding(crate::specs::Verdict::end_of, crate::specs::Verdict::sent, crate::specs::Verdict::transferred, crate::specs::Verdict::answered))]
fn end_of(c: Case, s: &[u64], check: u64) -> Outcome
    requires { (length s.now ≡ seat_long) × ((head_of s.now).steps ≤ steps) }
    ensures { result ≡ end_of c.message.kind check (told_of (asked_after c s.now) s.now) }
{
    match c.message.kind {
        Kind::Pacs008 => ended(check, unchecked(Status::Waits), Status::Rjct),
        Kind::Camt050 | Kind::Pacs002 => ended(check, unchecked(Status::Accc), Status::Rjct),
        Kind::Pacs028 => ended(check, told_of(asked_after(c, s), s), Status::Pdng),
    }
}

// Whether money is moved.
#[tactic(auto, unfolding(crate::specs::Verdict::carried, slip::specs::Meaning::status_number))]
fn is_carried(kind: Kind, o: Outcome) -> bool
    ensures { result ≡ carried kind o }
{
    matches!(kind, Kind::Camt050 | Kind::Pacs002) && o.status == ACCC
}

// Whether a transfer waits for its answer.
#[tactic(auto, unfolding(crate::specs::Verdict::awaits, slip::specs::Meaning::status_number))]
fn awaits(kind: Kind, o: Outcome) -> bool
    ensures { result ≡ awaits kind o }
{
    kind == Kind::Pacs008 && o.status == WAITS
}

// Whether a step keeps its movement: money is moved, or is to be.
fn has_movement(kind: Kind, o: Outcome) -> bool
    ensures { result ≡ (carried kind o || awaits kind o) }
{
    is_carried(kind, o) || awaits(kind, o)
}

// The number of a step that was found, 0 for none.
#[tactic(auto, unfolding(crate::specs::Verdict::step_number))]
fn step_number(transfer: Option<Placed>) -> u64
    requires { place_fits transfer ≡ true }
    ensures { result ≡ step_number transfer }
{
    transfer.map_or(0, |found| found.place as u64 + 1)
}

// The number of the step that a message closes, where it fails by this check, or by none.
#[tactic(auto, unfolding(crate::specs::Verdict::closed_by))]
fn closed_by(c: Case, s: &[u64], check: u64) -> u64
    requires { (length s.now ≡ seat_long) × ((head_of s.now).steps ≤ steps) }
    ensures { result ≡ closed_by c.message.kind check (due_to c s.now) }
{
    if c.message.kind == Kind::Pacs002 && (check == 0 || is_rejecting(check)) {
        step_number(due_to(c, s))
    } else {
        0
    }
}

// The step that a message is, by its movement, the step that it answers and its end.
#[tactic(auto, unfolding(crate::specs::Verdict::step_made, crate::specs::Values::or_zero))]
fn step_made(c: Case, movement: Movement, answers: u64, o: Outcome) -> Step
    ensures { result ≡ step_made c movement answers o }
{
    let m = c.message;
    let moved = if has_movement(m.kind, o) {
        movement
    } else {
        NO_MOVEMENT
    };
    let receiver = if awaits(m.kind, o) {
        m.instructed
    } else {
        None
    };
    Step {
        kind: kind_number(m.kind),
        status: o.status,
        check: o.check,
        sender: c.sender,
        id: m.id.stored,
        uetr: m.uetr,
        created: m.created.unwrap_or(0),
        reference: m.reference,
        debit: moved.debit.unwrap_or(0),
        credit: moved.credit.unwrap_or(0),
        amount: moved.amount,
        receiver: receiver.unwrap_or(0),
        answers,
        ..no_step()
    }
}

// The step of a message that fails by this check, or by none, in its seat.
#[tactic(auto, unfolding(crate::specs::Verdict::step_by))]
pub fn step_by(c: Case, s: &[u64], check: u64) -> Step
    requires { (length s.now ≡ seat_long) × ((head_of s.now).steps ≤ steps) }
    ensures { result ≡ step_by c s.now check }
{
    step_made(
        c,
        movement_in(c, s),
        closed_by(c, s, check),
        end_of(c, s, check),
    )
}
