// The centre: the nine calls on a whole room, with every refusal in its order. Document 01, "Calls and refusals".
// A refused call leaves the room and the slip buffer as they came. The answers and their numbers stand in `specs/Answers.antt`, the calls in
// `specs/Calls.antt`, submit in `specs/Submit.antt`, the slip calls in `specs/Slips.antt`.
// The calls that need a directory take it as a lent slice of records, or as it was gathered (`.._among`); `lender` lends one for a call. All forms of
// a call have one definition, and share the call by what was found of the owners (`.._found`). Each form keeps its name: the theorems of
// `demands/proofs/CallsTied.antt` name each, and say that it is the call of the demands.
#![tactic(auto)]

mod answers;
mod calls;
mod lent;
mod slips;
mod submit;

pub use answers::{Done, Refusal};
pub use calls::{close_seat, lay_out, open_among, read_among, set_among, take_back};
pub use lent::{open_seat, read_account, set_account, submit_sheet};
pub use slips::{read_slip, write_slip};
pub use submit::submit_among;

// A pupil's right to a seat: the seat, and the number of its opening.
#[derive(Clone, Copy)]
pub struct Ticket {
    pub seat: u64,
    pub opening: u64,
}
