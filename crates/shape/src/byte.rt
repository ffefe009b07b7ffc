// The classes of bytes, and the byte at a place.
ghost use Rattle.std.specs.Prelude.{◌≡◌, get_or};
ghost use Rattle.shape.specs.Bytes.{is_digit, is_capital, is_small, is_letter, is_digit_or_capital, is_hex, is_variant, is_text};

// How many values a byte has.
pub const BYTE_VALUES: u64 = 1 << 8;

#[tactic(auto, unfolding(crate::specs::Bytes::is_digit))]
pub fn is_digit(b: u8) -> bool
    ensures { result ≡ is_digit b }
{
    matches!(b, b'0'..=b'9')
}

#[tactic(auto, unfolding(crate::specs::Bytes::is_capital))]
pub fn is_capital(b: u8) -> bool
    ensures { result ≡ is_capital b }
{
    matches!(b, b'A'..=b'Z')
}

#[tactic(auto, unfolding(crate::specs::Bytes::is_small))]
pub fn is_small(b: u8) -> bool
    ensures { result ≡ is_small b }
{
    matches!(b, b'a'..=b'z')
}

#[tactic(auto, unfolding(crate::specs::Bytes::is_letter))]
pub fn is_letter(b: u8) -> bool
    ensures { result ≡ is_letter b }
{
    is_capital(b) | is_small(b)
}

#[tactic(auto, unfolding(crate::specs::Bytes::is_digit_or_capital))]
pub fn is_digit_or_capital(b: u8) -> bool
    ensures { result ≡ is_digit_or_capital b }
{
    is_digit(b) | is_capital(b)
}

// A hexadecimal digit, in small letters.
#[tactic(auto, unfolding(crate::specs::Bytes::is_hex))]
pub fn is_hex(b: u8) -> bool
    ensures { result ≡ is_hex b }
{
    is_digit(b) | matches!(b, b'a'..=b'f')
}

// The digit of a UUID that says its variant.
#[tactic(auto, unfolding(crate::specs::Bytes::is_variant))]
pub fn is_variant(b: u8) -> bool
    ensures { result ≡ is_variant b }
{
    matches!(b, b'8'..=b'9' | b'a'..=b'b')
}

// A byte that a text may hold.
#[tactic(auto, unfolding(crate::specs::Bytes::is_text))]
pub fn is_text(b: u8) -> bool
    ensures { result ≡ is_text b }
{
    matches!(b, 32..=126) & !matches!(b, b'<' | b'>' | b'&')
}

// The byte at a place, or 0 past the end.
pub fn peek(s: &[u8], i: usize) -> u8
    ensures { result ≡ get_or s.now i 0 }
{
    s.get(i).copied().unwrap_or(0)
}
