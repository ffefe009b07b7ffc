// Checks 36 and 37: what the receiving bank replies. The rules stand in `specs/Rows.antt`, one definition for
// each function.
ghost use Rattle.std.specs.Prelude.{◌≡◌};
ghost use Rattle.judge.specs.Rows.{transfer_declined, credit_refused};

use crate::case::Case;
use message::Reply;

#[tactic(auto, unfolding(crate::specs::Rows::transfer_declined, crate::specs::Rows::declines))]
pub fn transfer_declined(c: Case) -> bool
    ensures { result ≡ transfer_declined c }
{
    c.message.reply == Some(Reply::Declines)
}

#[tactic(auto, unfolding(crate::specs::Rows::credit_refused, crate::specs::Rows::refuses))]
pub fn credit_refused(c: Case) -> bool
    ensures { result ≡ credit_refused c }
{
    c.message.reply == Some(Reply::Refuses)
}
