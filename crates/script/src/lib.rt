// A lesson is lines, and this reads one: its word and the values after it, sums in kopecks, dates as numbers, yes and no as 1 and 0.
// It knows nothing of rooms and calls: whether a date is real, or what stands after slip is one, is the call's business.
// The table of words stands in `specs/Words.antt`, what a word after the first says in `specs/Said.antt`, a line in `specs/Lines.antt`.
#![tactic(auto)]

mod names;
pub mod text;
mod value;
mod values;

ghost use Rattle.std.specs.Prelude.{◌≡◌};
ghost use Rattle.script.specs.Places.{line_end};
ghost use Rattle.script.specs.Lines.{is_whole, line_of};

use names::word_of;
use text::{skip_blanks, word_end};
use values::{Taken, values_of};

// The most values of a line: an open's seat and its sums.
pub const VALUES_MOST: usize = 35;

// The words that a line begins with. Blank is a line that says nothing, Unknown one whose word is none of them.
#[derive(Clone, Copy, PartialEq, Eq, Debug)]
pub enum Word {
    Blank,
    Room,
    Nobody,
    Owner,
    Direct,
    Indirect,
    Provider,
    Open,
    Close,
    Set,
    Submit,
    Back,
    Read,
    Slip,
    Unknown,
}

// A line: its word, whether all that it asks for stands there, the values in their order, and where the rest begins
// (the sheet of a submit, the digits of a slip; else where reading stopped). `line_of` says the values of a bad line too.
// Values with their count: there is no heap.
#[derive(Clone, Copy)]
pub struct Line {
    pub word: Word,
    pub good: bool,
    pub count: usize,
    pub values: [u64; VALUES_MOST],
    pub rest: usize,
}

// Whether a line has exactly what its word asks for.
#[tactic(auto, unfolding(crate::specs::Lines::is_whole))]
fn is_whole(word: Word, taken: Taken, s: &[u8]) -> bool
    ensures { result ≡ is_whole word taken s.now }
{
    let nothing_after = taken.rest == s.len();
    match word {
        Word::Blank => true,
        Word::Unknown => false,
        Word::Open => (taken.count % 2 == 1) & nothing_after,
        Word::Submit => taken.all,
        Word::Slip => !nothing_after,
        _ => taken.all & nothing_after,
    }
}

// Reads a line.
#[tactic(auto, using(crate::proofs::Takes::within), unfolding(crate::specs::Lines::line_of))]
pub fn read_line(s: &[u8]) -> Line
    ensures { result ≡ line_of s.now }
{
    let start = skip_blanks(s, 0);
    let end = word_end(s, start);
    let from = skip_blanks(s, end);
    let word = word_of(&s[start..end]);
    let taken = values_of(word, s, from);
    let Taken {
        count,
        values,
        rest,
        ..
    } = taken;
    Line {
        word,
        good: is_whole(word, taken, s),
        count,
        values,
        rest,
    }
}

// Where the line ends that begins at a place: the next line feed, or the end.
#[tactic(auto, unfolding(crate::specs::Places::line_end))]
pub fn line_end(s: &[u8], from: usize) -> usize
    ensures { result ≡ line_end s.now from }
{
    text::find(s, from, b'\n')
}
