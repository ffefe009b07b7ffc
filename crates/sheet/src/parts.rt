// The parts of a sheet that hold no element: names, tags and texts. Each function goes as far as the grammar lets it.
ghost use Rattle.std.specs.Prelude.{◌≡◌, true, ◌<◌, ◌≤◌, length, get_or, Some};
ghost use Rattle.std.specs.List.{prefix_len};
ghost use Rattle.shape.specs.Bytes.{is_text};
ghost use Rattle.sheet.specs.Grammar.{is_name_byte};
ghost use Rattle.sheet.specs.Machine.{is_next};
ghost use Rattle.sheet.specs.Parts.{NameRead, TextRead, AttributeRead, ClosingRead, TagRead, LeafRead};
ghost use Rattle.sheet.specs.Words.{words_of};

use crate::{NAME_MOST, TEXT_MOST};
use shape::byte::{is_capital, is_digit, is_letter, is_text, peek};
use std::error::Error;
use std::fmt;

// Any capital, in the pattern of a Ccy.
const ANY_CAPITAL: u8 = b'^';

// A Ccy and the end of its tag, after the blank.
const CCY: [u8; 10] = *b"Ccy=\"^^^\">";

// A sheet was refused: the place of the first byte that no well-formed sheet has there.
#[derive(Clone, Copy, Debug, PartialEq, Eq)]
pub struct Refused {
    pub place: usize,
}

impl fmt::Display for Refused {
    ghost output = { λ r. Some (words_of r) };

    fn fmt<W: fmt::Write>(&self, f: &mut fmt::Formatter<W>) -> fmt::Result {
        write!(f, "refused at {}", self.place)
    }
}

impl Error for Refused {}

#[tactic(auto, unfolding(crate::specs::Grammar::is_name_byte))]
pub fn is_name_byte(b: u8) -> bool
    ensures { result ≡ is_name_byte b }
{
    is_letter(b) | is_digit(b)
}

// How many name bytes stand in front.
pub fn name_run(s: &[u8]) -> usize
    ensures value { result ≡ prefix_len is_name_byte s.now }
    ensures within { result ≤ length s.now }
{
    s.iter().take_while(|b| is_name_byte(**b)).count()
}

// How many text bytes stand in front.
pub fn text_run(s: &[u8]) -> usize
    ensures value { result ≡ prefix_len is_text s.now }
    ensures within { result ≤ length s.now }
{
    s.iter().take_while(|b| is_text(**b)).count()
}

// The end of a name whose first letter stands at a place.
pub fn name_end(s: &[u8], from: usize) -> usize
    requires { from < length s.now }
    ensures { NameRead s.now from result }
{
    let most = s.len().min(from + NAME_MOST);
    from + 1 + name_run(&s[from + 1..most])
}

// The end of a text whose first byte stands at a place.
pub fn text_end(s: &[u8], from: usize) -> usize
    requires { from < length s.now }
    ensures { TextRead s.now from result }
{
    let most = s.len().min(from + TEXT_MOST);
    from + 1 + text_run(&s[from + 1..most])
}

// Whether a byte is the one that is to follow in ` Ccy="UAH">`, where `^` stands for any capital.
fn is_next(c: u8, b: u8) -> bool
    ensures { result ≡ is_next c b }
{
    if c == ANY_CAPITAL {
        return is_capital(b);
    }
    b == c
}

// The rest of a Ccy and the tag's end, after the blank: the place after it.
pub fn attribute(s: &[u8], from: usize) -> Result<usize, Refused>
    requires { from ≤ length s.now }
    ensures { AttributeRead s.now from result }
{
    for (k, c) in CCY.iter().enumerate() {
        let place = from + k;
        if !is_next(*c, peek(s, place)) {
            return Err(Refused { place });
        }
    }
    Ok(from + CCY.len())
}

// The rest of a closing tag, after its slash: the name that stands at from..to, and the tag's end. The place after it.
pub fn closing(s: &[u8], at: usize, from: usize, to: usize) -> Result<usize, Refused>
    requires { (at ≤ length s.now) × (from ≤ to) × (to ≤ length s.now) }
    ensures { ClosingRead s.now at from to result }
{
    for (k, b) in s[from..to].iter().enumerate() {
        let place = at + k;
        // By `get` the proof did not close.
        if s.len() <= place || s[place] != *b {
            return Err(Refused { place });
        }
    }
    let place = at + (to - from);
    if peek(s, place) != b'>' {
        return Err(Refused { place });
    }
    Ok(place + 1)
}

// An opening tag that was read from after its `<`: where its name ends, whether it has a Ccy, and the place after it.
#[derive(Clone, Copy)]
pub struct Tag {
    pub to: usize,
    pub ccy: bool,
    pub place: usize,
}

// An opening tag, from after its `<`.
pub fn opening_tag(s: &[u8], at: usize) -> Result<Tag, Refused>
    requires { at ≤ length s.now }
    ensures { TagRead s.now at result }
{
    if !is_letter(peek(s, at)) {
        return Err(Refused { place: at });
    }
    let to = name_end(s, at);
    let b = peek(s, to);
    if b == b'>' {
        return Ok(Tag {
            to,
            ccy: false,
            place: to + 1,
        });
    }
    if b != b' ' {
        return Err(Refused { place: to });
    }
    let place = attribute(s, to + 1)?;
    Ok(Tag {
        to,
        ccy: true,
        place,
    })
}

// A text and the closing tag after it, for the name that stands at from..to: the place after both.
pub fn leaf(s: &[u8], inside: usize, from: usize, to: usize) -> Result<usize, Refused>
    requires { (inside < length s.now) × (from ≤ to) × (to ≤ length s.now) × (is_text (get_or s.now inside 0) ≡ true) }
    ensures { LeafRead s.now inside from to result }
{
    let end = text_end(s, inside);
    if peek(s, end) != b'<' {
        return Err(Refused { place: end });
    }
    if peek(s, end + 1) != b'/' {
        return Err(Refused { place: end + 1 });
    }
    closing(s, end + 2, from, to)
}
