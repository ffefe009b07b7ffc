// What a line of a lesson does: the list of banks after it, and the call that it makes with its values. Document 01, "Calls and refusals".
// It knows nothing of how a line is read (`script`) and of what is shown of an answer (`lesson`). The list of banks stands in
// `specs/Banks.antt`, the calls in `specs/Lines.antt`, the bytes that hexadecimal digits write in `specs/Digits.antt`.
#![tactic(auto)]

mod banks;
mod calls;
mod digits;
mod ends;

pub use banks::{no_banks, with_line};
pub use calls::perform;
pub use ends::{behind, trimmed};
