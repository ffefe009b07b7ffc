// The values after a line's word.
ghost use Rattle.std.specs.Prelude.{◌≡◌, ◌≤◌, length};
ghost use Rattle.script.specs.Said.{value_of};
ghost use Rattle.script.specs.Words.{values_most, wants};
ghost use Rattle.script.specs.Lines.{taken};

use crate::text::{skip_blanks, word_end};
use crate::value::{date_of, either, limit_of, number_of, sum_of};
use crate::{VALUES_MOST, Word};
use Want::{Answer, Date, Instant, Limit, Number, Sum};

// What was taken: whether it is all that was wanted, how many values, the values, and where the next word begins. It is no Option:
// `line_of` says the values of a bad line too, and an open takes as many sums as there are.
#[derive(Clone, Copy)]
pub struct Taken {
    pub all: bool,
    pub count: usize,
    pub values: [u64; VALUES_MOST],
    pub rest: usize,
}

// What may be wanted of a word.
#[derive(Clone, Copy, PartialEq, Eq, Debug)]
pub enum Want {
    Number,
    Sum,
    Date,
    // Yes or no.
    Answer,
    // Instant or ordinary.
    Instant,
    Limit,
}

// What a word says where this is wanted.
#[tactic(auto, unfolding(crate::specs::Said::value_of))]
fn value_of(want: Want, s: &[u8]) -> Option<u64>
    ensures { result ≡ value_of want s.now }
{
    match want {
        Number => number_of(s),
        Sum => sum_of(s),
        Date => date_of(s),
        Answer => either(b"yes", b"no", s),
        Instant => either(b"instant", b"ordinary", s),
        Limit => limit_of(s),
    }
}

// Takes a word for each want, up to the first that does not say what is wanted. Past the last stands an empty one, which says nothing.
#[tactic(auto, using(crate::proofs::Takes::takes), unfolding(crate::specs::Lines::taken))]
fn take_values(wants: &[Want], s: &[u8], from: usize) -> Taken
    requires { (length wants.now ≤ values_most) × (from ≤ length s.now) }
    ensures { result ≡ taken wants.now s.now from }
{
    let mut values = [0u64; VALUES_MOST];
    let mut rest = from;
    for (count, want) in wants.iter().enumerate() {
        let end = word_end(s, rest);
        let Some(n) = value_of(*want, &s[rest..end]) else {
            return Taken {
                all: false,
                count,
                values,
                rest,
            };
        };
        values[count] = n;
        rest = skip_blanks(s, end);
    }
    Taken {
        all: true,
        count: wants.len(),
        values,
        rest,
    }
}

// An open has a seat and at most 34 sums.
const OPEN: [Want; VALUES_MOST] = [
    Number, Sum, Sum, Sum, Sum, Sum, Sum, Sum, Sum, Sum, Sum, Sum, Sum, Sum, Sum, Sum, Sum, Sum,
    Sum, Sum, Sum, Sum, Sum, Sum, Sum, Sum, Sum, Sum, Sum, Sum, Sum, Sum, Sum, Sum, Sum,
];

// What a word asks for.
#[tactic(auto, unfolding(crate::specs::Words::wants))]
fn wants(word: Word) -> &'static [Want]
    ensures { result.now ≡ wants word }
{
    match word {
        Word::Owner => &[Number, Instant],
        Word::Direct | Word::Indirect | Word::Provider => &[Number, Number, Instant],
        Word::Open => &OPEN,
        Word::Close | Word::Back => &[Number, Number],
        Word::Set => &[Number, Number, Number, Number, Answer, Answer, Sum, Limit],
        Word::Submit => &[Number, Number, Number, Date],
        Word::Read => &[Number, Number, Number, Number],
        _ => &[],
    }
}

// Takes what a word asks for.
#[tactic(auto, using(crate::proofs::Takes::wants_few), unfolding(crate::specs::Words::wants))]
pub fn values_of(word: Word, s: &[u8], from: usize) -> Taken
    requires { from ≤ length s.now }
    ensures { result ≡ taken (wants word) s.now from }
{
    take_values(wants(word), s, from)
}
