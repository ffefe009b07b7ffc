// What a field's text is. A text that has not the shape gives nothing.
ghost use Rattle.std.specs.Prelude.{◌≡◌, ◌≤◌, length};
ghost use Rattle.shape.specs.Fields.{amount_bytes_least, amount_bytes_most, code_of, kopecks, is_amount, amount_of, three_bytes, currency_of};
ghost use Rattle.shape.specs.Fields.{account_of, message_code_of, is_iban, system_of, is_identifier, names_pacs008};

use crate::byte::{BYTE_VALUES, peek};
use crate::date::is_date;
use crate::number::{decimal, digit_value};
use crate::pattern::{DIGIT, TEXT, all_within, matches};

// The bytes of an amount: 1 to 11 digits, the point and two digits.
const AMOUNT_BYTES_LEAST: usize = 4;

const AMOUNT_BYTES_MOST: usize = 14;

// The most bytes of an identifier.
pub const IDENTIFIER_MOST: usize = 35;

// An account by its name: which of the two, whose, in which currency. A text that names none is all zeros, as the
// definition `account_of` has it: no currency is 0.
#[derive(Clone, Copy, Debug, PartialEq, Eq)]
pub struct Account {
    pub digit: u64,
    pub code: u64,
    pub currency: u64,
}

// S, the system that lists an agent, or neither: three values, as the definition `system_of` has them.
#[derive(Clone, Copy, Debug, PartialEq, Eq)]
pub enum System {
    Sep,
    Asp,
    Neither,
}

// M, a participant's code.
#[tactic(auto, unfolding(crate::specs::Fields::code_of, crate::specs::Patterns::code_pattern), using(crate::proofs::Loops::lengths))]
pub fn code_of(s: &[u8]) -> Option<u64>
    ensures { result ≡ code_of s.now }
{
    matches(b"######", s).then(|| decimal(s))
}

// The kopecks of a text that is long enough to have a point, and short enough for its number to fit.
#[tactic(auto, unfolding(crate::specs::Fields::kopecks))]
fn kopecks(s: &[u8]) -> u64
    requires { (amount_bytes_least ≤ length s.now) × (length s.now ≤ amount_bytes_most) }
    ensures { result ≡ kopecks s.now }
{
    let n = s.len();
    let units = n - 3;
    let cents = n - 2;
    decimal(&s[..units]) * 100 + decimal(&s[cents..])
}

// Whether the text is an amount above zero with no needless zero in front. Its length is asked first: a pattern of a slice with units, point
// and cents would have to ask for it as well.
#[tactic(auto, unfolding(crate::specs::Fields::is_amount, crate::specs::Patterns::within), using(crate::proofs::Parts::rest))]
pub fn is_amount(s: &[u8]) -> bool
    ensures { result ≡ is_amount s.now }
{
    let n = s.len();
    if !matches!(n, AMOUNT_BYTES_LEAST..=AMOUNT_BYTES_MOST) {
        return false;
    }
    let units = n - 3;
    let cents = n - 2;
    all_within(DIGIT, &s[..units])
        & ((n == AMOUNT_BYTES_LEAST) | (s[0] != b'0'))
        & (s[units] == b'.')
        & all_within(DIGIT, &s[cents..])
        & (0 < kopecks(s))
}

// An amount in kopecks.
#[tactic(auto, unfolding(crate::specs::Fields::amount_of), using(crate::proofs::Amounts::lengths))]
pub fn amount_of(s: &[u8]) -> Option<u64>
    ensures { result ≡ amount_of s.now }
{
    is_amount(s).then(|| kopecks(s))
}

// Three bytes as one number, the first on top.
#[tactic(auto, unfolding(crate::specs::Fields::three_bytes))]
fn three_bytes(s: &[u8]) -> u64
    ensures { result ≡ three_bytes s.now }
{
    (peek(s, 0) as u64 * BYTE_VALUES + peek(s, 1) as u64) * BYTE_VALUES + peek(s, 2) as u64
}

// A currency, three capitals, as one number.
#[tactic(auto, unfolding(crate::specs::Fields::currency_of, crate::specs::Patterns::currency_pattern))]
pub fn currency_of(s: &[u8]) -> Option<u64>
    ensures { result ≡ currency_of s.now }
{
    matches(b"^^^", s).then(|| three_bytes(s))
}

// An account by its name.
#[tactic(auto, unfolding(crate::specs::Fields::account_of, crate::specs::Patterns::account_pattern), using(crate::proofs::Loops::lengths, crate::proofs::Parts::rest))]
pub fn account_of(s: &[u8]) -> Account
    ensures { result ≡ account_of s.now }
{
    if matches(b"#######^^^", s) {
        return Account {
            digit: digit_value(s[0]) as u64,
            code: decimal(&s[1..7]),
            currency: three_bytes(&s[7..]),
        };
    }
    Account {
        digit: 0,
        code: 0,
        currency: 0,
    }
}

// The code in front of a good message identifier.
#[tactic(auto, unfolding(crate::specs::Fields::message_code_of, crate::specs::Patterns::message_pattern), using(crate::proofs::Loops::lengths))]
pub fn message_code_of(s: &[u8]) -> Option<u64>
    ensures { result ≡ message_code_of s.now }
{
    if !matches(b"##############********", s) {
        return None;
    }
    is_date(decimal(&s[6..14])).then(|| decimal(&s[..6]))
}

// Whether the text has an IBAN's shape; its remainder is another matter.
#[tactic(auto, unfolding(crate::specs::Fields::is_iban, crate::specs::Patterns::iban_pattern))]
pub fn is_iban(s: &[u8]) -> bool
    ensures { result ≡ is_iban s.now }
{
    matches(b"UA########*******************", s)
}

// S. A text of one reading is a shape too, and is compared as shapes are.
#[tactic(auto, unfolding(crate::specs::Fields::system_of, crate::specs::Patterns::sep_pattern, crate::specs::Patterns::asp_pattern))]
pub fn system_of(s: &[u8]) -> System
    ensures { result ≡ system_of s.now }
{
    if matches(b"SEP", s) {
        return System::Sep;
    }
    if matches(b"ASP", s) {
        return System::Asp;
    }
    System::Neither
}

// Whether the text is an identifier.
#[tactic(auto, unfolding(crate::specs::Fields::is_identifier, crate::specs::Patterns::within))]
pub fn is_identifier(s: &[u8]) -> bool
    ensures { result ≡ is_identifier s.now }
{
    matches!(s.len(), 1..=IDENTIFIER_MOST) & all_within(TEXT, s)
}

// Whether the text is an identifier that names a pacs.008. Its front is compared as shapes are.
#[tactic(auto, unfolding(crate::specs::Fields::names_pacs008, crate::specs::Patterns::pacs008_pattern), using(crate::proofs::Loops::unlike))]
pub fn names_pacs_008(s: &[u8]) -> bool
    ensures { result ≡ names_pacs008 s.now }
{
    if s.len() < 8 {
        return false;
    }
    is_identifier(s) & matches(b"pacs.008", &s[..8])
}
