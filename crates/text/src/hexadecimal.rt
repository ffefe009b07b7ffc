// Bytes that are written as two hexadecimal digits each, in small letters or capitals.
ghost use Rattle.std.specs.Prelude.{◌≡◌, ℕ, ◌<◌, ◌/◌, min, length, drop, get_or};
ghost use Rattle.text.specs.Hexadecimal.{digit_of, byte_of, byte_at};

use shape::byte::is_digit;

// What a digit stands for. Letters, small or not, are 1 to 6 above a multiple of sixteen.
fn digit(b: u8) -> u8
    ensures { result ≡ digit_of b }
{
    if is_digit(b) {
        return b % 16;
    }
    b % 16 + 9
}

// The byte that two digits write.
pub fn byte(high: u8, low: u8) -> u8
    ensures { result ≡ byte_of high low }
{
    ((digit(high) as u64 * 16 + digit(low) as u64) % 256) as u8
}

// Writes the bytes that a text's digits write at the start of a buffer, as many as it takes, and says how many they are.
pub fn bytes_in(s: &[u8], buffer: &mut [u8]) -> usize
    ensures count { result ≡ min (length s.now / 2) (length buffer.old) }
    ensures long { length buffer.new ≡ length buffer.old }
    ensures bytes { (k : ℕ) → k < result → get_or buffer.new k 0 ≡ byte_at s.now k }
    ensures rest { drop result buffer.new ≡ drop result buffer.old }
{
    let count = (s.len() / 2).min(buffer.len());
    // Tried by a zip of the two: of what a loop writes through an adapter of `iter_mut` the proof knows nothing.
    for i in 0..count {
        buffer[i] = byte(s[2 * i], s[2 * i + 1]);
    }
    count
}
