// The judge: each of the 37 checks, the first that fails in the order of a message's kind, and what becomes of the message. Document 01,
// "The checks", and request 9 of document 02.
// It knows a seat's accounts and journal through `seat` and `journal`, participants through `directory`, and changes nothing. What a check looks
// at stands in `specs/Case.antt`, what a message asks of the directory in `specs/Records.antt`, the rows in `specs/Rows.antt`, the verdict and the
// step in `specs/Verdict.antt`.
#![tactic(auto)]

mod accounts;
mod case;
mod header;
mod money;
mod order;
mod outcome;
mod records;
mod repeats;
mod reply;
mod routing;
mod sender;
mod values;

pub use case::{Case, Looked, Movement, case_from, case_of, movement_of};
pub use order::{fails, first_failing};
pub use outcome::step_by;
pub use records::{Asked, asked_by, asked_in, look_among, look_up};
