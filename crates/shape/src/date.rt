// Dates as numbers yyyymmdd and times as numbers yyyymmddhhmmss, of 2000 to 2099.
ghost use Rattle.std.specs.Prelude.{◌≡◌, ◌<◌, length};
ghost use Rattle.shape.specs.Dates.{is_leap, days_in, is_date, day_before, is_time, date_of, time_of, time_number};

use crate::number::decimal;
use crate::pattern::matches;

// The calendar's first and last year.
const YEAR_FIRST: u64 = 2000;

const YEAR_LAST: u64 = 2099;

// What a month and a year are worth in a date yyyymmdd.
const MONTH: u64 = 100;

const YEAR: u64 = 100 * MONTH;

// What a minute, an hour and a day are worth in a time yyyymmddhhmmss.
const MINUTE: u64 = 100;

const HOUR: u64 = 100 * MINUTE;

const DAY: u64 = 100 * HOUR;

#[tactic(auto, unfolding(crate::specs::Dates::is_leap))]
pub fn is_leap(year: u64) -> bool
    ensures { result ≡ is_leap year }
{
    (year % 4 == 0) & ((year % 100 != 0) | (year % 400 == 0))
}

#[tactic(auto, unfolding(crate::specs::Dates::days_in))]
pub fn days_in(year: u64, month: u64) -> u64
    ensures { result ≡ days_in year month }
{
    match month {
        2 if is_leap(year) => 29,
        2 => 28,
        4 | 6 | 9 | 11 => 30,
        _ => 31,
    }
}

// Whether the number is a real date.
#[tactic(auto, unfolding(crate::specs::Dates::is_date))]
pub fn is_date(n: u64) -> bool
    ensures { result ≡ is_date n }
{
    let year = n / YEAR;
    let month = n / MONTH % 100;
    let day = n % MONTH;
    matches!(year, YEAR_FIRST..=YEAR_LAST)
        & matches!(month, 1..=12)
        & (1 <= day)
        & (day <= days_in(year, month))
}

// The day before, for a message that was created late on the eve of the call's date.
#[tactic(auto, unfolding(crate::specs::Dates::day_before), using(crate::proofs::Calendar::days))]
pub fn day_before(n: u64) -> Option<u64>
    ensures { result ≡ day_before n }
{
    if !is_date(n) {
        return None;
    }
    let year = n / YEAR;
    let month = n / MONTH % 100;
    if 1 < n % MONTH {
        return Some(n - 1);
    }
    if 1 < month {
        return Some(year * YEAR + (month - 1) * MONTH + days_in(year, month - 1));
    }
    if YEAR_FIRST < year {
        return Some((year - 1) * YEAR + 12 * MONTH + 31);
    }
    None
}

// Whether the number is a real time.
#[tactic(auto, unfolding(crate::specs::Dates::is_time))]
pub fn is_time(n: u64) -> bool
    ensures { result ≡ is_time n }
{
    is_date(date_of(n)) & (n / HOUR % 100 <= 23) & (n / MINUTE % 100 <= 59) & (n % MINUTE <= 59)
}

// The date of a time.
pub fn date_of(n: u64) -> u64
    ensures { result ≡ date_of n }
{
    n / DAY
}

// The fourteen digits of a time as one number. Written out: they stand apart in the text, and `decimal` takes them side by side.
#[tactic(auto, unfolding(crate::specs::Dates::time_number))]
fn time_number(s: &[u8]) -> u64
    requires { 18 < length s.now }
    ensures { result ≡ time_number s.now }
{
    let digits = [
        s[0], s[1], s[2], s[3], s[5], s[6], s[8], s[9], s[11], s[12], s[14], s[15], s[17], s[18],
    ];
    decimal(&digits)
}

// The time that YYYY-MM-DDThh:mm:ss writes.
#[tactic(auto, unfolding(crate::specs::Dates::time_of, crate::specs::Patterns::time_pattern), using(crate::proofs::Loops::lengths))]
pub fn time_of(s: &[u8]) -> Option<u64>
    ensures { result ≡ time_of s.now }
{
    if !matches(b"####-##-##T##:##:##", s) {
        return None;
    }
    let n = time_number(s);
    is_time(n).then_some(n)
}
