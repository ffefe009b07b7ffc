// Earlier steps: the first one in a journal that leaves the trace that is looked for, with its place. The rules stand in `specs/Traces.antt`.
ghost use Rattle.std.specs.Prelude.{◌≡◌, ◌≤◌, ◌<◌, length};
ghost use Rattle.slip.specs.Meaning.{steps};
ghost use Rattle.layout.specs.Seat.{seat_long, head_of};
ghost use Rattle.journal.specs.Traces.{waits_as, leaves, earliest, is_there, is_known};

use crate::answers::waits;
use crate::steps::SET;
use layout::rows::Step;
use layout::{head, step};
use shape::stored::{Identifier, Uetr};
use slip::{CAMT_050, PACS_008};

// What is looked for: a message with a MsgId, a pacs.008 with it, a pacs.008 or camt.050 with a UETR, a pacs.008 that waits with a MsgId, one that
// waits with it for the answer of a bank.
#[derive(Clone, Copy, PartialEq, Eq, Debug)]
pub enum Trace {
    Message(Identifier),
    Payment(Identifier),
    Transfer(Uetr),
    Waiting(Identifier),
    Due(Identifier, u64),
}

// A step that was found, with its place in the journal, from 0 on.
#[derive(Clone, Copy, PartialEq, Eq, Debug)]
pub struct Placed {
    pub place: usize,
    pub step: Step,
}

// Whether a step at its place waits with a MsgId. Few steps have it, so that is asked first.
#[tactic(auto, unfolding(crate::specs::Traces::waits_as, shape::specs::Stored::same_identifier))]
fn waits_as(s: &[u64], id: Identifier, at: Placed) -> bool
    requires { (length s.now ≡ seat_long) × ((head_of s.now).steps ≤ steps) × (at.place < steps) }
    ensures { result ≡ waits_as id s.now at.place at.step }
{
    (at.step.id == id) && waits(s, at)
}

// Whether a step at its place leaves the trace.
#[tactic(auto, unfolding(crate::specs::Traces::leaves, slip::specs::Meaning::kind_number, shape::specs::Stored::same_identifier, shape::specs::Stored::same_uetr))]
fn leaves(s: &[u64], trace: Trace, at: Placed) -> bool
    requires { (length s.now ≡ seat_long) × ((head_of s.now).steps ≤ steps) × (at.place < steps) }
    ensures { result ≡ leaves trace s.now at.place at.step }
{
    let x = at.step;
    match trace {
        Trace::Message(id) => (x.kind != SET) & (x.id == id),
        Trace::Payment(id) => (x.kind == PACS_008) & (x.id == id),
        Trace::Transfer(uetr) => {
            ((x.kind == PACS_008) | (x.kind == CAMT_050)) & (x.uetr == uetr)
        }
        Trace::Waiting(id) => waits_as(s, id, at),
        Trace::Due(id, receiver) => (x.receiver == receiver) & waits_as(s, id, at),
    }
}

// The first step of a seat's journal that leaves the trace.
#[tactic(auto, using(crate::proofs::TraceLaws::loop_of_earliest))]
pub fn earliest(s: &[u64], trace: Trace) -> Option<Placed>
    requires { (length s.now ≡ seat_long) × ((head_of s.now).steps ≤ steps) }
    ensures { result ≡ earliest trace s.now }
{
    for place in 0..head(s).steps as usize {
        let at = Placed {
            place,
            step: step(s, place),
        };
        if leaves(s, trace, at) {
            return Some(at);
        }
    }
    None
}

// Whether a step was found: docs/CONTRACTS.md names it, so it stays beside `is_some`.
#[tactic(auto, unfolding(crate::specs::Traces::is_there))]
pub fn is_there(x: Option<Placed>) -> bool
    ensures { result ≡ is_there x }
{
    x.is_some()
}

// Whether it is known what became of a pacs.008 with a MsgId: there is one, and none of them waits.
#[tactic(auto, unfolding(crate::specs::Traces::is_known, crate::specs::Traces::is_there))]
pub fn is_known(s: &[u64], id: Identifier) -> bool
    requires { (length s.now ≡ seat_long) × ((head_of s.now).steps ≤ steps) }
    ensures { result ≡ is_known id s.now }
{
    earliest(s, Trace::Payment(id)).is_some() & earliest(s, Trace::Waiting(id)).is_none()
}
