// Checks 6, 10, 11, 17, 35: what stands in earlier steps. The rules stand in `specs/Rows.antt`, one definition for each function.
ghost use Rattle.std.specs.Prelude.{◌≡◌, ◌≤◌, length};
ghost use Rattle.slip.specs.Meaning.{steps};
ghost use Rattle.layout.specs.Seat.{seat_long, head_of};
ghost use Rattle.judge.specs.Rows.{identifier_repeated, asked_after, original_unknown, differs, original_differs, uetr_repeated, due_to, nothing_due};

use crate::case::Case;
use journal::{Placed, Trace, earliest, is_known};
use message::Message;

#[tactic(auto, unfolding(crate::specs::Rows::identifier_repeated, journal::specs::Traces::is_there))]
pub fn identifier_repeated(c: Case, s: &[u64]) -> bool
    requires { (length s.now ≡ seat_long) × ((head_of s.now).steps ≤ steps) }
    ensures { result ≡ identifier_repeated c s.now }
{
    earliest(s, Trace::Message(c.message.id.stored)).is_some()
}

// The payment that a pacs.028 asks after.
#[tactic(auto, unfolding(crate::specs::Rows::asked_after))]
pub fn asked_after(c: Case, s: &[u64]) -> Option<Placed>
    requires { (length s.now ≡ seat_long) × ((head_of s.now).steps ≤ steps) }
    ensures { result ≡ asked_after c s.now }
{
    earliest(s, Trace::Payment(c.message.original.stored))
}

#[tactic(auto, unfolding(crate::specs::Rows::original_unknown))]
pub fn original_unknown(c: Case, s: &[u64]) -> bool
    requires { (length s.now ≡ seat_long) × ((head_of s.now).steps ≤ steps) }
    ensures { result ≡ original_unknown c s.now }
{
    !is_known(s, c.message.original.stored)
}

// Whether a payment differs from what a pacs.028 says of it.
#[tactic(auto, unfolding(crate::specs::Rows::differs, crate::specs::Values::agree, shape::specs::Stored::same_uetr, shape::specs::Stored::same_identifier))]
fn differs(m: Message, payment: Option<Placed>) -> bool
    ensures { result ≡ differs m payment }
{
    payment.is_some_and(|found| {
        let x = found.step;
        m.originated != Some(x.created) || x.uetr != m.uetr || x.reference != m.reference
    })
}

#[tactic(auto, unfolding(crate::specs::Rows::original_differs))]
pub fn original_differs(c: Case, s: &[u64]) -> bool
    requires { (length s.now ≡ seat_long) × ((head_of s.now).steps ≤ steps) }
    ensures { result ≡ original_differs c s.now }
{
    differs(c.message, asked_after(c, s))
}

#[tactic(auto, unfolding(crate::specs::Rows::uetr_repeated, journal::specs::Traces::is_there))]
pub fn uetr_repeated(c: Case, s: &[u64]) -> bool
    requires { (length s.now ≡ seat_long) × ((head_of s.now).steps ≤ steps) }
    ensures { result ≡ uetr_repeated c s.now }
{
    earliest(s, Trace::Transfer(c.message.uetr)).is_some()
}

// The transfer that a pacs.002 answers.
#[tactic(auto, unfolding(crate::specs::Rows::due_to))]
pub fn due_to(c: Case, s: &[u64]) -> Option<Placed>
    requires { (length s.now ≡ seat_long) × ((head_of s.now).steps ≤ steps) }
    ensures { result ≡ due_to c s.now }
{
    earliest(s, Trace::Due(c.message.original.stored, c.sender))
}

#[tactic(auto, unfolding(crate::specs::Rows::nothing_due, journal::specs::Traces::is_there))]
pub fn nothing_due(c: Case, s: &[u64]) -> bool
    requires { (length s.now ≡ seat_long) × ((head_of s.now).steps ≤ steps) }
    ensures { result ≡ nothing_due c s.now }
{
    due_to(c, s).is_none()
}
