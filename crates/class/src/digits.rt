// The bytes of a slip, written as hexadecimal digits in small letters or capitals. Blanks may stand anywhere between them.
ghost use Rattle.std.specs.Prelude.{◌≡◌, take};
ghost use Rattle.class.specs.Digits.{is_hex_digit, no_ink, inked, ink_in, whole_bytes, twelve_as_bytes};
ghost use Rattle.shape.specs.Bytes.{every};

use crate::ends::first;
use script::text::is_blank;
use slip::SLIP_LONG;
use text::bytes_in;

// How many digits a slip has at most, two for each byte.
const DIGITS: usize = 2 * SLIP_LONG;

// The bytes of a text that are no blanks: the first twelve, and how many there are. A thirteenth is counted, so that the text is seen to be
// too long; after it nothing changes any more. Bytes with their count: there is no heap.
#[derive(Clone, Copy)]
pub struct Ink {
    pub count: usize,
    pub bytes: [u8; DIGITS],
}

fn no_ink() -> Ink
    ensures { result ≡ no_ink }
{
    Ink {
        count: 0,
        bytes: [0u8; DIGITS],
    }
}

// What is kept of a text with one byte more.
#[tactic(auto, unfolding(crate::specs::Digits::inked, script::specs::Places::is_blank))]
fn one_more(mut ink: Ink, b: u8) -> Ink
    ensures { result ≡ inked ink b }
{
    if is_blank(b) | (DIGITS < ink.count) {
        return ink;
    }
    if ink.count < DIGITS {
        ink.bytes[ink.count] = b;
    }
    ink.count += 1;
    ink
}

// The bytes of a text that are no blanks.
#[tactic(auto, unfolding(crate::specs::Digits::ink_in))]
pub fn ink_in(s: &[u8]) -> Ink
    ensures { result ≡ ink_in s.now }
{
    s.iter().fold(no_ink(), |ink, b| one_more(ink, *b))
}

// Whether a byte is a hexadecimal digit.
#[tactic(auto, unfolding(shape::specs::Bytes::is_digit))]
fn is_hex_digit(b: u8) -> bool
    ensures { result ≡ is_hex_digit b }
{
    b.is_ascii_hexdigit()
}

// Whether a text is hexadecimal digits and nothing else.
fn all_digits(s: &[u8]) -> bool
    ensures { result ≡ every is_hex_digit s.now }
{
    s.iter().all(|b| is_hex_digit(*b))
}

// Whether a text is the digits of whole bytes, no more of them than a slip has.
#[tactic(auto, unfolding(crate::specs::Digits::whole_bytes))]
pub fn whole_bytes(ink: Ink) -> bool
    ensures { result ≡ whole_bytes ink }
{
    (ink.count <= DIGITS) & (ink.count % 2 == 0) & all_digits(first(&ink.bytes, ink.count))
}

// The six bytes that twelve digits write. Of a shorter text only those count that it has digits for.
#[tactic(auto, unfolding(crate::specs::Digits::twelve_as_bytes))]
pub fn twelve_as_bytes(ink: Ink) -> [u8; SLIP_LONG]
    ensures { result ≡ twelve_as_bytes ink }
{
    let mut bytes = [0; SLIP_LONG];
    bytes_in(&ink.bytes, &mut bytes);
    bytes
}
