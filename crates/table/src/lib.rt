// The 37 checks with their SEP and ISO codes, and the order in which the checks of each kind of message run: document 01, "The checks", and
// request 9 of document 02. It knows nothing of when a check fails. The definitions stand in `specs/Checks.antt`; docs/CHECKS.md says what each check means.
#![tactic(auto)]

mod names;

ghost use Rattle.std.specs.Prelude.{◌≡◌};
ghost use Rattle.table.specs.Checks.{line_of, sep_of, iso_of, rejecting, order_of, is_in, runs};

// The kinds of messages.
#[derive(Clone, Copy, Debug, PartialEq, Eq)]
pub enum Kind {
    Pacs008,
    Camt050,
    Pacs028,
    Pacs002,
}

// Four blanks: a code that there is none of, as the definitions `iso_of` and `sep_of` have it.
pub const ABSENT: [u8; 4] = *b"    ";

// The line of a number that is no check's.
const BLANK: [u8; 12] = *b"            ";

// How many checks there are, numbered from 1 on.
pub const CHECKS_MOST: u64 = 37;

// All checks, a line for each: number, SEP code, ISO code or blanks.
static CHECKS: [[u8; 12]; CHECKS_MOST as usize] = [
    *b"01 TE03 AGNT",
    *b"02 TE04 AGNT",
    *b"03 TE07 AGNT",
    *b"04 TE08     ",
    *b"05 H026 RR04",
    *b"06 DU01 DU01",
    *b"07 H037 RR04",
    *b"08 H005 AGNT",
    *b"09 N002 RR04",
    *b"10 KV03 RR04",
    *b"11 KV02 RR04",
    *b"12 N029     ",
    *b"13 N028     ",
    *b"14 N027     ",
    *b"15 N015     ",
    *b"16 N026     ",
    *b"17 DU03 DU03",
    *b"18 N031     ",
    *b"19 N030     ",
    *b"20 A001 RR04",
    *b"21 A002 RR04",
    *b"22 M001 AM04",
    *b"23 M003 RR04",
    *b"24 A018 RR04",
    *b"25 X002 AGNT",
    *b"26 H018 RC10",
    *b"27 X001 AGNT",
    *b"28 H065 CNOR",
    *b"29 H066 CNOR",
    *b"30 H008 AGNT",
    *b"31 H019 AGNT",
    *b"32 H012 RC09",
    *b"33 H013 RC09",
    *b"34 T003 AC03",
    *b"35 X003 NARR",
    *b"36 TE10 FF10",
    *b"37 X004 NARR",
];

// The orders.
static PACS_008: [u64; 18] = [
    1, 2, 3, 5, 6, 7, 8, 17, 25, 27, 26, 28, 29, 30, 31, 32, 33, 34,
];

static CAMT_050: [u64; 20] = [
    1, 2, 3, 4, 5, 7, 12, 13, 14, 15, 16, 6, 17, 18, 19, 20, 21, 22, 23, 24,
];

static PACS_028: [u64; 10] = [1, 2, 3, 5, 6, 7, 8, 9, 10, 11];

static PACS_002: [u64; 14] = [1, 2, 3, 5, 6, 7, 35, 36, 37, 20, 21, 22, 23, 24];

// The line of a check, blank for a number that is no check's.
#[tactic(auto, unfolding(crate::specs::Checks::checks, crate::specs::Checks::line_of))]
fn line(number: u64) -> [u8; 12]
    ensures { result ≡ line_of number }
{
    match number {
        0 => BLANK,
        _ => CHECKS.get((number - 1) as usize).copied().unwrap_or(BLANK),
    }
}

// The SEP code of a check.
#[tactic(auto, unfolding(crate::specs::Checks::sep_of))]
pub fn sep_code(number: u64) -> [u8; 4]
    ensures { result ≡ sep_of number }
{
    let l = line(number);
    [l[3], l[4], l[5], l[6]]
}

// The ISO code that goes with a check in the answer to a message of a kind.
#[tactic(auto, unfolding(crate::specs::Checks::iso_of))]
pub fn iso_code(kind: Kind, number: u64) -> [u8; 4]
    ensures { result ≡ iso_of kind number }
{
    if kind == Kind::Camt050 {
        return ABSENT;
    }
    let l = line(number);
    [l[8], l[9], l[10], l[11]]
}

// The checks of a kind, in the order in which they run.
#[tactic(auto, unfolding(crate::specs::Checks::order_of))]
pub fn order_of(kind: Kind) -> &'static [u64]
    ensures { result.now ≡ order_of kind }
{
    match kind {
        Kind::Pacs008 => &PACS_008,
        Kind::Camt050 => &CAMT_050,
        Kind::Pacs028 => &PACS_028,
        Kind::Pacs002 => &PACS_002,
    }
}

// Whether a transfer is rejected where its answer fails by this check.
pub fn is_rejecting(number: u64) -> bool
    ensures { result ≡ is_in number rejecting }
{
    matches!(number, 20..=24 | 36 | 37)
}

// Whether a check is one of a kind's.
pub fn in_order(kind: Kind, number: u64) -> bool
    ensures { result ≡ runs kind number }
{
    order_of(kind).contains(&number)
}
