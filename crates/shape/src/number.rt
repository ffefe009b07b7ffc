// Digits as numbers.
ghost use Rattle.std.specs.Prelude.{◌≡◌, ◌+◌, ◌≤◌, ◌<◌, ◌^◌, length};
ghost use Rattle.shape.specs.Numbers.{digits_most, digit_value, hex_value, decimal};

use crate::byte::is_digit;

// 0 for what stands before the digits, so that it is a number for every byte.
pub fn digit_value(b: u8) -> u8
    ensures { result ≡ digit_value b }
{
    b.saturating_sub(b'0')
}

// What a hexadecimal letter is above the number that it is worth.
const LETTER_BASE: u8 = b'a' - 10;

#[tactic(auto, unfolding(crate::specs::Numbers::hex_value))]
pub fn hex_value(b: u8) -> u8
    ensures { result ≡ hex_value b }
{
    if is_digit(b) {
        return digit_value(b);
    }
    b.saturating_sub(LETTER_BASE)
}

// The number that digits write, of at most fourteen: that leaves room for a factor of a hundred.
#[tactic(auto, unfolding(crate::specs::Numbers::decimal))]
pub fn decimal(s: &[u8]) -> u64
    requires { length s.now ≤ digits_most }
    ensures value { result ≡ decimal s.now }
    ensures upper_bound { result < 10 ^ (digits_most + 2) }
{
    let mut n: u64 = 0;
    for b in s {
        n = n * 10 + digit_value(*b) as u64;
    }
    n
}
