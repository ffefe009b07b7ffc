// The remainder of an IBAN by ISO 7064 MOD 97-10, for check 34. The remainder of the number so far is carried from character to
// character, so that no number longer than the machine's is ever made.
// It knows nothing of messages; which IBANs are well shaped is said in `shape`. The rule stands in `specs/Remainder.antt`.
#![tactic(auto)]

ghost use Rattle.std.specs.Prelude.{◌≡◌, ◌<◌, ◌%◌};
ghost use Rattle.remainder.specs.Remainder.{modulus, written, written_all, remainder_of};

use shape::byte::is_digit;
use shape::pattern::{DIGIT_OR_CAPITAL, all_within};

// MOD 97-10.
const MODULUS: u64 = 97;

// What a capital is above its number: A is 10.
const CAPITAL_BASE: u8 = b'A' - 10;

// The characters in front, the country and its two check digits, which are moved to the end.
const FRONT_LONG: usize = 4;

// The remainder of the number written so far.
#[derive(Clone, Copy, Debug, PartialEq, Eq)]
pub struct Carried {
    pub remainder: u64,
}

impl Carried {
    // Nothing is written yet.
    pub fn start() -> Self
        ensures { result ≡ record { remainder = 0 } }
    {
        Carried { remainder: 0 }
    }

    // The remainder with one more character written after the number.
    pub fn next(self, b: u8) -> Self
        ensures { result ≡ record { remainder = written self.remainder b % modulus } }
    {
        let so_far = self.remainder % MODULUS;
        let longer = if is_digit(b) {
            so_far * 10 + b.saturating_sub(b'0') as u64
        } else {
            so_far * 100 + b.saturating_sub(CAPITAL_BASE) as u64
        };
        Carried {
            remainder: longer % MODULUS,
        }
    }
}

// The remainder with all of a part written after the number. By `fold` the proof did not close.
fn through(from: Carried, s: &[u8]) -> Carried
    requires { from.remainder < modulus }
    ensures { result ≡ record { remainder = written_all from.remainder s.now % modulus } }
{
    let mut at = from;
    for b in s {
        at = at.next(*b);
    }
    at
}

// The remainder of an IBAN, or that the text is none.
pub fn remainder(s: &[u8]) -> Option<u64>
    ensures { result ≡ remainder_of s.now }
{
    if s.len() < FRONT_LONG || !all_within(DIGIT_OR_CAPITAL, s) {
        return None;
    }
    let end = through(Carried::start(), &s[FRONT_LONG..]);
    let all = through(end, &s[..FRONT_LONG]);
    Some(all.remainder)
}
