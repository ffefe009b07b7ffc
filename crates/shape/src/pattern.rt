// Shapes of a fixed length, a class for each byte, and texts whose every byte is of one class.
ghost use Rattle.std.specs.Prelude.{◌≡◌};
ghost use Rattle.shape.specs.Bytes.{every};
ghost use Rattle.shape.specs.Patterns.{within, fits};

use crate::byte::{is_capital, is_digit, is_digit_or_capital, is_hex, is_text, is_variant};

// The classes, each by a sign that no shape has as a byte of its own. Every other byte of a pattern stands for itself.
pub const DIGIT: u8 = b'#';

pub const CAPITAL: u8 = b'^';

pub const DIGIT_OR_CAPITAL: u8 = b'*';

pub const HEX: u8 = b'x';

pub const VARIANT: u8 = b'y';

pub const TEXT: u8 = b'?';

#[tactic(auto, unfolding(crate::specs::Patterns::within))]
pub fn is_within(class: u8, b: u8) -> bool
    ensures { result ≡ within class b }
{
    match class {
        DIGIT => is_digit(b),
        CAPITAL => is_capital(b),
        DIGIT_OR_CAPITAL => is_digit_or_capital(b),
        HEX => is_hex(b),
        VARIANT => is_variant(b),
        TEXT => is_text(b),
        _ => b == class,
    }
}

// Whether the text has the pattern's length and each byte is of its class.
#[tactic(auto, using(crate::proofs::Loops::unlike))]
pub fn matches(pattern: &[u8], s: &[u8]) -> bool
    ensures { result ≡ fits pattern.now s.now }
{
    if pattern.len() != s.len() {
        return false;
    }
    // A loop, since the proof of `all` over the pairs did not close.
    for (class, b) in pattern.iter().zip(s) {
        if !is_within(*class, *b) {
            return false;
        }
    }
    true
}

// Whether every byte is of the class.
pub fn all_within(class: u8, s: &[u8]) -> bool
    ensures { result ≡ every (within class) s.now }
{
    s.iter().all(|b| is_within(class, *b))
}
