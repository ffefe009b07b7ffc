// What one word after the first says, as a number: a number, a sum in kopecks, a date, yes or no, instant or ordinary, a limit.
ghost use Rattle.std.specs.Prelude.{◌≡◌, true, ◌≤◌, length};
ghost use Rattle.shape.specs.Bytes.{every, is_digit};
ghost use Rattle.shape.specs.Numbers.{decimal};
ghost use Rattle.script.specs.Said.{number_digits_most, number_of, sum_from, sum_of, date_of, either_of, limit_of};

use shape::pattern::{DIGIT, all_within};

// The most digits of a number, and of a sum before its point.
const NUMBER_DIGITS_MOST: usize = 19;

const SUM_DIGITS_MOST: usize = 16;

// The number that digits write. Nineteen of them fit.
fn digits_number(s: &[u8]) -> u64
    requires { (length s.now ≤ number_digits_most) × (every is_digit s.now ≡ true) }
    ensures { result ≡ decimal s.now }
{
    let mut n: u64 = 0;
    for b in s {
        n = n * 10 + (*b - b'0') as u64;
    }
    n
}

// A number: 1 to 19 digits.
#[tactic(auto, unfolding(crate::specs::Said::number_of, shape::specs::Patterns::within))]
pub fn number_of(s: &[u8]) -> Option<u64>
    ensures { result ≡ number_of s.now }
{
    (matches!(s.len(), 1..=NUMBER_DIGITS_MOST) && all_within(DIGIT, s)).then(|| digits_number(s))
}

// A sum by its digits before the point, of which there are 1 to 16, and the two after it.
#[tactic(auto, using(crate::proofs::Digits::tested), unfolding(crate::specs::Said::sum_from, shape::specs::Patterns::within))]
fn sum_from(units: &[u8], hundredths: &[u8]) -> Option<u64>
    ensures { result ≡ sum_from units.now hundredths.now }
{
    (matches!(units.len(), 1..=SUM_DIGITS_MOST)
        && hundredths.len() == 2
        && all_within(DIGIT, units)
        && all_within(DIGIT, hundredths)).then(|| digits_number(units) * 100
        + digits_number(hundredths))
}

// A sum in kopecks, with a point and two digits or without.
#[tactic(auto, unfolding(crate::specs::Said::sum_of))]
pub fn sum_of(s: &[u8]) -> Option<u64>
    ensures { result ≡ sum_of s.now }
{
    match s {
        [units @ .., b'.', tens, ones] => sum_from(units, &[*tens, *ones]),
        _ => sum_from(s, b"00"),
    }
}

// A date, 2024-03-01 as 20240301.
#[tactic(auto, unfolding(crate::specs::Said::date_of))]
pub fn date_of(s: &[u8]) -> Option<u64>
    ensures { result ≡ date_of s.now }
{
    let [y1, y2, y3, y4, b'-', m1, m2, b'-', d1, d2] = s else {
        return None;
    };
    number_of(&[*y1, *y2, *y3, *y4, *m1, *m2, *d1, *d2])
}

// One of two words: 1 for the first, 0 for the second.
#[tactic(auto, unfolding(crate::specs::Said::either_of, crate::specs::Places::is_same))]
pub fn either(first: &[u8], second: &[u8], s: &[u8]) -> Option<u64>
    ensures { result ≡ either_of first.now second.now s.now }
{
    if first == s {
        return Some(1);
    }
    if second == s {
        return Some(0);
    }
    None
}

// What no limit is read as: 0 is what the definition `limit_of` gives for none.
const NO_LIMIT: u64 = 0;

// A limit: a sum n as n + 1, or none.
#[tactic(auto, using(crate::proofs::Digits::sum_below), unfolding(crate::specs::Said::limit_of, crate::specs::Places::is_same))]
pub fn limit_of(s: &[u8]) -> Option<u64>
    ensures { result ≡ limit_of s.now }
{
    if matches!(s, b"none") {
        return Some(NO_LIMIT);
    }
    let n = sum_of(s)?;
    Some(n + 1)
}
