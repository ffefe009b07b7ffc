// Taking a text apart: at its line feeds, at the blanks of a line, and two hexadecimal digits a byte. The programs read what they are given
// by these functions. What stands before and after a byte is in `specs/Cuts.antt`, what digits write in `specs/Hexadecimal.antt`.
#![tactic(auto)]

mod cuts;
mod hexadecimal;

pub use cuts::{Pieces, cut, lines, words};
pub use hexadecimal::{byte, bytes_in};
