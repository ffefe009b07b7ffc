// Checks 1 to 4: who the sender is. The rules stand in `specs/Rows.antt`, one definition for each function.
ghost use Rattle.std.specs.Prelude.{◌≡◌};
ghost use Rattle.judge.specs.Rows.{sender_unlisted, sender_indirect, sender_not_instant, sender_no_owner};

use crate::case::Case;
use directory::{head_in, is_instant, is_owner_found, under_sep};

#[tactic(auto, unfolding(crate::specs::Rows::sender_unlisted))]
pub fn sender_unlisted(c: Case) -> bool
    ensures { result ≡ sender_unlisted c }
{
    !under_sep(c.source)
}

#[tactic(auto, unfolding(crate::specs::Rows::sender_indirect))]
pub fn sender_indirect(c: Case) -> bool
    ensures { result ≡ sender_indirect c }
{
    head_in(c.source).is_some()
}

#[tactic(auto, unfolding(crate::specs::Rows::sender_not_instant))]
pub fn sender_not_instant(c: Case) -> bool
    ensures { result ≡ sender_not_instant c }
{
    c.source.is_some() && !is_instant(c.source)
}

#[tactic(auto, unfolding(crate::specs::Rows::sender_no_owner))]
pub fn sender_no_owner(c: Case) -> bool
    ensures { result ≡ sender_no_owner c }
{
    c.source.is_some() && !is_owner_found(c.source)
}
