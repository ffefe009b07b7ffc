// A text at the places where a byte stands in it.
ghost use Rattle.std.specs.Prelude.{◌≡◌, ◌<◌, length, MatchOption};
ghost use Rattle.std.specs.Iterator.{at_most};
ghost use Rattle.text.specs.Cuts.{place_of, before, after};

// The first place where a byte stands in a text.
fn place_of(s: &[u8], b: u8) -> Option<usize>
    ensures { result ≡ place_of b s.now }
{
    s.iter().position(|x| *x == b)
}

// A text at the first of this byte: what stands before it, and what stands after it. Where there is none, all stands before it.
pub fn cut(s: &[u8], b: u8) -> (&[u8], &[u8])
    ensures first { result.0.now ≡ before b s.now }
    ensures second { result.1.now ≡ after b s.now }
{
    match place_of(s, b) {
        Some(place) => (&s[..place], &s[place + 1..]),
        None => (s, &[]),
    }
}

// The pieces of a text that this byte ends, one after another. Nothing stands after the last of them, so it is no piece.
#[derive(Drop)]
pub struct Pieces<'a> {
    pub rest: &'a [u8],
    pub end: u8,
}

impl<'a> Iterator for Pieces<'a> {
    type Item = &'a [u8];

    ghost next_gives = { λ s r t. MatchOption r ((length s.rest.now ≡ 0) × (t ≡ s)) (λ x. (0 < length s.rest.now) × (x.now ≡ before s.end s.rest.now) × (t.rest.now ≡ after s.end s.rest.now) × (t.end ≡ s.end)) };

    ghost remaining = { λ s. at_most (length s.rest.now) };

    fn next(&mut self) -> Option<&'a [u8]> {
        if self.rest.is_empty() {
            return None;
        }
        let (piece, rest) = cut(self.rest, self.end);
        self.rest = rest;
        Some(piece)
    }
}

// The lines of a text, without their line feeds. What a last line feed ends is the last line.
pub fn lines(s: &[u8]) -> Pieces<'_>
    ensures text { result.rest.now ≡ s.now }
    ensures feed { result.end ≡ 10 }
{
    Pieces {
        rest: s,
        end: b'\n',
    }
}

// The words of a line, without the blank after each. Between two blanks stands a word with no byte.
pub fn words(s: &[u8]) -> Pieces<'_>
    ensures text { result.rest.now ≡ s.now }
    ensures blank { result.end ≡ 32 }
{
    Pieces { rest: s, end: b' ' }
}
