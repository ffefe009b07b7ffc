// Identifiers and UETRs as whole numbers, for storing and comparing. All zeros stand for no text.
ghost use Rattle.std.specs.Prelude.{◌≡◌, ◌<◌, ◌≤◌, ◌+◌, ◌*◌, ◌^◌, length};
ghost use Rattle.shape.specs.Stored.{stored_bytes, seven_from, identifier_of, same_identifier, before_zero, seven_bytes, all_bytes, stored_text};
ghost use Rattle.shape.specs.Stored.{group_bits, four_from, groups, is_uetr, uetr_of, same_uetr};

use crate::byte::peek;
use crate::field::{IDENTIFIER_MOST, is_identifier};
use crate::number::hex_value;
use crate::pattern::matches;

// How many bytes of an identifier one number stores.
const STORED_BYTES: usize = 7;

// How many values a hexadecimal digit has, and a group of four of them.
const HEX_VALUES: u64 = 1 << 4;

const GROUP_VALUES: u64 = 1 << 16;

// The 35 bytes of an identifier, seven to a number. The five have names and no places in an array, as the rows of a room and C name them.
#[derive(Clone, Copy, Debug, PartialEq, Eq)]
pub struct Identifier {
    pub first: u64,
    pub second: u64,
    pub third: u64,
    pub fourth: u64,
    pub fifth: u64,
}

// What stands for no identifier.
pub const NO_IDENTIFIER: Identifier = Identifier {
    first: 0,
    second: 0,
    third: 0,
    fourth: 0,
    fifth: 0,
};

// The 32 hexadecimal digits of a UETR, sixteen to a number.
#[derive(Clone, Copy, Debug, PartialEq, Eq)]
pub struct Uetr {
    pub high: u64,
    pub low: u64,
}

// What stands for no UETR.
pub const NO_UETR: Uetr = Uetr { high: 0, low: 0 };

// Seven bytes from a place on, the highest first: the inverse of `seven_bytes`.
#[tactic(auto, unfolding(crate::specs::Stored::seven_from))]
fn seven_from(s: &[u8], i: usize) -> u64
    requires { i ≤ 4 * stored_bytes }
    ensures { result ≡ seven_from s.now i }
{
    u64::from_be_bytes([
        0,
        peek(s, i),
        peek(s, i + 1),
        peek(s, i + 2),
        peek(s, i + 3),
        peek(s, i + 4),
        peek(s, i + 5),
        peek(s, i + 6),
    ])
}

// An identifier in its stored form, all zeros for a text that is none, as the definition `identifier_of` has it and a room stores it.
#[tactic(auto, unfolding(crate::specs::Stored::identifier_of))]
pub fn identifier_of(s: &[u8]) -> Identifier
    ensures { result ≡ identifier_of s.now }
{
    if is_identifier(s) {
        return Identifier {
            first: seven_from(s, 0),
            second: seven_from(s, STORED_BYTES),
            third: seven_from(s, 2 * STORED_BYTES),
            fourth: seven_from(s, 3 * STORED_BYTES),
            fifth: seven_from(s, 4 * STORED_BYTES),
        };
    }
    NO_IDENTIFIER
}

// The text of a stored identifier: the 35 bytes of its numbers, and how many of them come before the first zero. Fixed bytes and a length: no heap.
#[derive(Clone, Copy, Debug, PartialEq, Eq)]
pub struct Text {
    pub bytes: [u8; IDENTIFIER_MOST],
    pub length: usize,
}

// Seven bytes of a number, the highest first.
fn seven_bytes(n: u64) -> [u8; STORED_BYTES]
    ensures { result ≡ seven_bytes n }
{
    let [_, a, b, c, d, e, f, g] = n.to_be_bytes();
    [a, b, c, d, e, f, g]
}

// All bytes of a stored identifier.
#[tactic(auto, unfolding(crate::specs::Stored::all_bytes))]
fn all_bytes(x: Identifier) -> [u8; IDENTIFIER_MOST]
    ensures { result ≡ all_bytes x }
{
    let mut bytes = [0; IDENTIFIER_MOST];
    bytes[..STORED_BYTES].copy_from_slice(&seven_bytes(x.first));
    bytes[STORED_BYTES..2 * STORED_BYTES].copy_from_slice(&seven_bytes(x.second));
    bytes[2 * STORED_BYTES..3 * STORED_BYTES].copy_from_slice(&seven_bytes(x.third));
    bytes[3 * STORED_BYTES..4 * STORED_BYTES].copy_from_slice(&seven_bytes(x.fourth));
    bytes[4 * STORED_BYTES..].copy_from_slice(&seven_bytes(x.fifth));
    bytes
}

// How many bytes come before the first zero. By `position` the proof did not close.
fn before_zero(s: &[u8]) -> usize
    ensures { result ≡ length (before_zero s.now) }
{
    for (i, b) in s.iter().enumerate() {
        if *b == 0 {
            return i;
        }
    }
    s.len()
}

// The text that is stored.
#[tactic(auto, unfolding(crate::specs::Stored::stored_text, crate::specs::Stored::identifier_text))]
pub fn text_of(x: Identifier) -> Text
    ensures { result ≡ stored_text x }
{
    let bytes = all_bytes(x);
    Text {
        bytes,
        length: before_zero(&bytes),
    }
}

// What `==` of two identifiers says: all five numbers are the same.
#[tactic(auto, unfolding(crate::specs::Stored::same_identifier))]
pub fn same_identifier(x: Identifier, y: Identifier) -> bool
    ensures { result ≡ same_identifier x y }
{
    x == y
}

// Whether the text has the pattern of a UUID version 4 in small letters.
#[tactic(auto, unfolding(crate::specs::Stored::is_uetr, crate::specs::Patterns::uetr_pattern))]
pub fn is_uetr(s: &[u8]) -> bool
    ensures { result ≡ is_uetr s.now }
{
    matches(b"xxxxxxxx-xxxx-4xxx-yxxx-xxxxxxxxxxxx", s)
}

// Four hexadecimal digits from a place on. Written out: a loop over the four would have to keep a bound on the sum so far.
#[tactic(auto, unfolding(crate::specs::Stored::four_from))]
fn four_from(s: &[u8], i: usize) -> u64
    requires { i + 3 < length s.now }
    ensures { result ≡ four_from s.now i }
{
    let top = hex_value(s[i]) as u64 * HEX_VALUES + hex_value(s[i + 1]) as u64;
    (top * HEX_VALUES + hex_value(s[i + 2]) as u64) * HEX_VALUES + hex_value(s[i + 3]) as u64
}

// Four groups as one number.
#[tactic(auto, unfolding(crate::specs::Stored::groups))]
fn groups(a: u64, b: u64, c: u64, d: u64) -> u64
    requires { (a < 2 ^ group_bits) × (b < 2 ^ group_bits) × (c < 2 ^ group_bits) × (d < 2 ^ group_bits) }
    ensures { result ≡ groups a b c d }
{
    ((a * GROUP_VALUES + b) * GROUP_VALUES + c) * GROUP_VALUES + d
}

// A UETR in its stored form, all zeros for a text that is none, as the definition `uetr_of` has it and a room stores it.
#[tactic(auto, unfolding(crate::specs::Stored::uetr_of, crate::specs::Patterns::uetr_pattern), using(crate::proofs::Hex::uetr))]
pub fn uetr_of(s: &[u8]) -> Uetr
    ensures { result ≡ uetr_of s.now }
{
    if is_uetr(s) {
        return Uetr {
            high: groups(
                four_from(s, 0),
                four_from(s, 4),
                four_from(s, 9),
                four_from(s, 14),
            ),
            low: groups(
                four_from(s, 19),
                four_from(s, 24),
                four_from(s, 28),
                four_from(s, 32),
            ),
        };
    }
    NO_UETR
}

// What `==` of two UETRs says: both numbers are the same.
#[tactic(auto, unfolding(crate::specs::Stored::same_uetr))]
pub fn same_uetr(x: Uetr, y: Uetr) -> bool
    ensures { result ≡ same_uetr x y }
{
    x == y
}
