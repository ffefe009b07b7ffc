// How a step ended: what its row may hold. The rules stand in `specs/Results.antt`, one definition for each function.
ghost use Rattle.std.specs.Prelude.{◌≡◌};
ghost use Rattle.journal.specs.Results.{fails_by, ends_as, sent_as, told_as, result_fits};

use slip::{ACCC, CAMT_050, PACS_002, PACS_008, PACS_028, PDNG, RJCT, WAITS};
use table::{Kind, in_order, is_rejecting};

// A status and a check, by their numbers on a slip.
#[derive(Clone, Copy, PartialEq, Eq, Debug)]
pub struct Outcome {
    pub status: u64,
    pub check: u64,
}

// Whether a step of a kind can have failed by a check. Who fails check 1 or 2 makes no step.
// Tried with `matches!(check, 1 | 2)`: the proof did not close.
#[tactic(auto, using(crate::proofs::ResultLaws::checks_failed))]
fn can_fail(kind: Kind, check: u64) -> bool
    ensures { result ≡ fails_by kind check }
{
    in_order(kind, check) & (check != 1) & (check != 2)
}

// Whether a camt.050 or an answer can have ended so. This and the next two differ in the good status and in what can fail; three tables of three lines
// are plainer than one function that is given both.
#[tactic(auto, unfolding(crate::specs::Results::ends_as, slip::specs::Meaning::status_number))]
fn can_end(kind: Kind, status: u64, check: u64) -> bool
    ensures { result ≡ ends_as kind status check }
{
    match status {
        ACCC => check == 0,
        RJCT => can_fail(kind, check),
        _ => false,
    }
}

// Whether the submit of a pacs.008 can have ended so.
#[tactic(auto, unfolding(crate::specs::Results::sent_as, slip::specs::Meaning::status_number))]
fn can_be_sent(status: u64, check: u64) -> bool
    ensures { result ≡ sent_as status check }
{
    match status {
        WAITS => check == 0,
        RJCT => can_fail(Kind::Pacs008, check),
        _ => false,
    }
}

// Whether this can be told of a pacs.008 that waits no more.
#[tactic(auto, unfolding(crate::specs::Results::told_as, slip::specs::Meaning::status_number))]
fn can_be_told(status: u64, check: u64) -> bool
    ensures { result ≡ told_as status check }
{
    match status {
        ACCC => check == 0,
        RJCT => can_fail(Kind::Pacs008, check) | is_rejecting(check),
        _ => false,
    }
}

// Whether a row of a kind may hold this.
#[tactic(auto, using(crate::proofs::ResultLaws::kinds_fit), unfolding(crate::specs::Results::result_fits, slip::specs::Meaning::kind_number))]
pub fn result_fits(kind: u64, status: u64, check: u64) -> bool
    ensures { result ≡ result_fits kind status check }
{
    match kind {
        PACS_008 => can_be_sent(status, check),
        CAMT_050 => can_end(Kind::Camt050, status, check),
        PACS_028 if status == PDNG => can_fail(Kind::Pacs028, check),
        PACS_028 => can_be_told(status, check),
        PACS_002 => can_end(Kind::Pacs002, status, check),
        _ => false,
    }
}
