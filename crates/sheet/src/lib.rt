// Reading a sheet: whether it is well formed, and where its elements start and how deep each stands; or the place of the first byte that no
// well-formed sheet has there. Document 01, "The sheet".
// A `Reader` is a sheet and a place in it: what stands next there, and a field as that part of the sheet.
// It knows nothing of messages. The grammar stands in `specs/Grammar.antt`, the reading byte by byte in `specs/Machine.antt` and
// `specs/Answer.antt`, what stands at a place in `specs/Reader.antt`.
#![tactic(auto)]

mod element;
mod parts;
mod reader;

ghost use Rattle.std.specs.Prelude.{◌≡◌};
ghost use Rattle.sheet.specs.Sheet.{Answers, sheet_of};
ghost use Rattle.sheet.specs.Answer.{reading_of};

use element::{Came, element};
pub use parts::{Refused, is_name_byte};
pub use reader::{Ahead, Reader, name_bytes_end, next_at, next_in, part, shown_at};
use shape::byte::peek;

// The limits of a sheet: bytes of a name and of a text, how deep its elements nest, how many there are, and its bytes in all.
pub const NAME_MOST: usize = 35;

pub const TEXT_MOST: usize = 140;

pub const DEPTH_MOST: usize = 12;

pub const ELEMENT_MOST: usize = 256;

pub const SHEET_MOST: usize = 8192;

// A sheet that was read: the number of its elements, and for each its `<` and its depth.
// Two lists of 256 places, as document 01 says of an element list; no pairs.
#[derive(Clone, Copy)]
pub struct Sheet {
    pub count: usize,
    pub starts: [usize; ELEMENT_MOST],
    pub depths: [usize; ELEMENT_MOST],
}

// Reads a sheet. The first clause says what is right by the grammar, the second gives the same answer as a definition that computes.
pub fn read(s: &[u8]) -> Result<Sheet, Refused>
    ensures answers { Answers s.now result }
    ensures value { result ≡ sheet_of (reading_of s.now) }
{
    if SHEET_MOST < s.len() {
        return Err(Refused { place: SHEET_MOST });
    }
    if peek(s, 0) != b'<' {
        return Err(Refused { place: 0 });
    }
    let mut starts = [0usize; ELEMENT_MOST];
    let mut depths = [0usize; ELEMENT_MOST];
    let Came { place, count } = element(s, 1, DEPTH_MOST, 0, &mut starts, &mut depths)?;
    if place < s.len() {
        return Err(Refused { place });
    }
    Ok(Sheet {
        count,
        starts,
        depths,
    })
}
