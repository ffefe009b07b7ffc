// The word that a line begins with.
ghost use Rattle.std.specs.Prelude.{◌≡◌, map};
ghost use Rattle.script.specs.Words.{named, word_of};

use crate::Word;
use shape::byte::peek;

// The names of the words: those for the room and its banks, and those for the calls.
const NAMES: [(&[u8], Word); 13] = [
    (b"room", Word::Room),
    (b"nobody", Word::Nobody),
    (b"owner", Word::Owner),
    (b"direct", Word::Direct),
    (b"indirect", Word::Indirect),
    (b"provider", Word::Provider),
    (b"open", Word::Open),
    (b"close", Word::Close),
    (b"set", Word::Set),
    (b"submit", Word::Submit),
    (b"back", Word::Back),
    (b"read", Word::Read),
    (b"slip", Word::Slip),
];

// The word of a table that has this name.
#[tactic(auto, unfolding(crate::specs::Places::is_same))]
fn named(names: &[(&[u8], Word)], s: &[u8]) -> Word
    ensures { result ≡ named (map (λ n. (n.0.now, n.1)) names.now) s.now }
{
    for (name, word) in names {
        if *name == s {
            return *word;
        }
    }
    Word::Unknown
}

// Of all words. A text that is empty or begins with `#` says nothing.
#[tactic(auto, unfolding(crate::specs::Words::word_of))]
pub fn word_of(s: &[u8]) -> Word
    ensures { result ≡ word_of s.now }
{
    let first = peek(s, 0);
    if (first == 0) | (first == b'#') {
        return Word::Blank;
    }
    named(&NAMES, s)
}
