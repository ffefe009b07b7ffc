// Checks 5, 7, 8, 9: what the message says of itself. The rules stand in `specs/Rows.antt`, one definition for each function.
ghost use Rattle.std.specs.Prelude.{◌≡◌};
ghost use Rattle.judge.specs.Rows.{identifier_bad, created_on, created_elsewhen, not_from_sender, original_bad};

use crate::case::Case;
use shape::date::{date_of, day_before};

#[tactic(auto, unfolding(crate::specs::Rows::identifier_bad, crate::specs::Values::agree))]
pub fn identifier_bad(c: Case) -> bool
    ensures { result ≡ identifier_bad c }
{
    c.message.id.code != Some(c.sender)
}

// Whether a time is on a day.
#[tactic(auto, unfolding(crate::specs::Rows::created_on, crate::specs::Values::agree))]
fn created_on(time: Option<u64>, day: Option<u64>) -> bool
    ensures { result ≡ created_on time day }
{
    time.is_some_and(|n| Some(date_of(n)) == day)
}

#[tactic(auto, unfolding(crate::specs::Rows::created_elsewhen))]
pub fn created_elsewhen(c: Case) -> bool
    ensures { result ≡ created_elsewhen c }
{
    let created = c.message.created;
    !(created_on(created, Some(c.today)) || created_on(created, day_before(c.today)))
}

#[tactic(auto, unfolding(crate::specs::Rows::not_from_sender, crate::specs::Values::agree))]
pub fn not_from_sender(c: Case) -> bool
    ensures { result ≡ not_from_sender c }
{
    c.message.instructing != Some(c.sender)
}

#[tactic(auto, unfolding(crate::specs::Rows::original_bad, crate::specs::Values::agree))]
pub fn original_bad(c: Case) -> bool
    ensures { result ≡ original_bad c }
{
    c.message.original.code != Some(c.sender)
}
