// The slip that the centre answers with: bytes that say the kind of message, how it ended, by which check, and the seat, the opening and the
// step it belongs to. Writing and reading one, and what a slip can say at all: document 01, "The slip", and requests 8 and 9 of
// document 02.
// Six bytes are written; five bytes, which lie in mark books, are read as well. It knows nothing of rooms.
// The definitions stand in `specs/`: what a slip means in each form, its bits, and what the two calls answer.
#![tactic(auto)]

ghost use Rattle.std.specs.Prelude.{◌≡◌, ◌≤◌, length};
ghost use Rattle.std.specs.Prelude.{Some};
ghost use Rattle.slip.specs.Meaning.{kind_number, status_number, slip_long};
ghost use Rattle.slip.specs.Meaning.{either_says, six_alone_says, says_in, six_bytes, measures, is_slip_in};
ghost use Rattle.slip.specs.Image.{IsMeasured, Fits, slip_number, held_in, spare_zero, bytes_number};
ghost use Rattle.slip.specs.Answers.{write_answer, write_after, read_answer};
ghost use Rattle.slip.specs.Words.{words_of};

use shape::byte::BYTE_VALUES;
use std::error::Error;
use std::fmt;
use table::Kind;

// How a message ended.
#[derive(Clone, Copy, Debug, PartialEq, Eq)]
pub enum Status {
    Pdng,
    Accc,
    Rjct,
    Waits,
}

// The six values of a slip. They are numbers, as C hands them over: whatever numbers come, `write` has to refuse those of no slip.
#[derive(Clone, Copy, Debug, PartialEq, Eq)]
pub struct Slip {
    pub kind: u64,
    pub status: u64,
    pub check: u64,
    pub seat: u64,
    pub opening: u64,
    pub step: u64,
}

// Refusal 11: the bytes are no slip, or the values are none, or the buffer is too short for one.
#[derive(Clone, Copy, Debug, PartialEq, Eq)]
pub struct NoSlip;

impl fmt::Display for NoSlip {
    ghost output = { λ r. Some (words_of r) };

    fn fmt<W: fmt::Write>(&self, f: &mut fmt::Formatter<W>) -> fmt::Result {
        write!(f, "no slip")
    }
}

impl Error for NoSlip {}

// The forms of a slip.
#[derive(Clone, Copy, Debug, PartialEq, Eq)]
pub enum Form {
    FiveBytes,
    SixBytes,
}

// The bytes of a slip that is written.
pub const SLIP_LONG: usize = 6;

// The bytes of a slip in the other form, which is read alone.
const FIVE_LONG: usize = 5;

// The pupils' places in a room, the times that one can be opened, the steps of an exercise.
pub const SEATS: u64 = 12;

pub const OPENINGS: u64 = 65535;

pub const STEPS: u64 = 24;

// The numbers of the kinds and of the statuses: a slip's fields and a row's are numbers, which come from C or out of a room, and the definitions
// `kind_number` and `status_number` name them.
pub const PACS_008: u64 = 1;

pub const CAMT_050: u64 = 2;

pub const PACS_028: u64 = 3;

pub const PACS_002: u64 = 4;

pub const PDNG: u64 = 0;

pub const ACCC: u64 = 1;

pub const RJCT: u64 = 2;

pub const WAITS: u64 = 3;

// How many bits each value has in six bytes, the most significant first.
const KIND_WIDE: u64 = 3;

const STATUS_WIDE: u64 = 2;

const CHECK_WIDE: u64 = 6;

const SEAT_WIDE: u64 = 4;

const OPENING_WIDE: u64 = 16;

const STEP_WIDE: u64 = 10;

// The zero bits after them.
const SPARE_WIDE: u64 = 7;

#[tactic(auto, unfolding(crate::specs::Meaning::kind_number))]
pub fn kind_number(kind: Kind) -> u64
    ensures { result ≡ kind_number kind }
{
    match kind {
        Kind::Pacs008 => PACS_008,
        Kind::Camt050 => CAMT_050,
        Kind::Pacs028 => PACS_028,
        Kind::Pacs002 => PACS_002,
    }
}

#[tactic(auto, unfolding(crate::specs::Meaning::status_number))]
pub fn status_number(status: Status) -> u64
    ensures { result ≡ status_number status }
{
    match status {
        Status::Pdng => PDNG,
        Status::Accc => ACCC,
        Status::Rjct => RJCT,
        Status::Waits => WAITS,
    }
}

// Whether a slip of either form can say this: the kinds and statuses that go together, and the checks that may stand with them. Who fails
// check 1 or 2 gets no slip. The three come apart, as `says_in` takes them.
#[tactic(auto, unfolding(crate::specs::Meaning::either_says, crate::specs::Meaning::kind_number, crate::specs::Meaning::status_number))]
fn either_says(kind: u64, status: u64, check: u64) -> bool
    ensures { result ≡ says_in either_says kind status check }
{
    match (kind, status) {
        (PACS_008 | CAMT_050 | PACS_028, ACCC) => check == 0,
        (PACS_008 | PACS_028, RJCT) => matches!(check, 3 | 5..=8 | 17 | 20..=34),
        (CAMT_050, RJCT) => matches!(check, 3..=7 | 12..=24),
        (PACS_028, PDNG) => matches!(check, 3 | 5..=11),
        _ => false,
    }
}

// Whether a slip of six bytes can say this and one of five bytes cannot.
#[tactic(auto, unfolding(crate::specs::Meaning::six_alone_says, crate::specs::Meaning::kind_number, crate::specs::Meaning::status_number))]
fn six_alone_says(kind: u64, status: u64, check: u64) -> bool
    ensures { result ≡ says_in six_alone_says kind status check }
{
    match (kind, status) {
        (PACS_008, WAITS) | (PACS_002, ACCC) => check == 0,
        (PACS_028, RJCT) => matches!(check, 36 | 37),
        (PACS_002, RJCT) => matches!(check, 3 | 5..=7 | 20..=24 | 35..=37),
        _ => false,
    }
}

// Whether a slip of a form can say this.
#[tactic(auto, using(crate::proofs::Meanings::says_in_six))]
pub fn can_say(form: Form, kind: u64, status: u64, check: u64) -> bool
    ensures { result ≡ says_in (measures form).sayings kind status check }
{
    let by_either = either_says(kind, status, check);
    match form {
        Form::FiveBytes => by_either,
        Form::SixBytes => by_either | six_alone_says(kind, status, check),
    }
}

// The measures in which the forms differ: how many seats they name, the bits of the seat and the zero bits after the values.
#[derive(Clone, Copy)]
struct Measures {
    seats: u64,
    seat_wide: u64,
    spare_wide: u64,
}

const FIVE_BYTES: Measures = Measures {
    seats: 8,
    seat_wide: 3,
    spare_wide: 0,
};

const SIX_BYTES: Measures = Measures {
    seats: SEATS,
    seat_wide: SEAT_WIDE,
    spare_wide: SPARE_WIDE,
};

fn measures_of(form: Form) -> Measures
    ensures { IsMeasured form result }
{
    match form {
        Form::FiveBytes => FIVE_BYTES,
        Form::SixBytes => SIX_BYTES,
    }
}

// Whether the six values are those of a slip of a form.
pub fn is_slip(form: Form, s: Slip) -> bool
    ensures { result ≡ is_slip_in (measures form) s }
{
    can_say(form, s.kind, s.status, s.check)
        & (s.seat < measures_of(form).seats)
        & matches!(s.opening, 1..=OPENINGS)
        & matches!(s.step, 1..=STEPS)
}

// The bits of a slip of six bytes as one number.
#[tactic(auto, unfolding(crate::specs::Image::slip_number))]
fn number_of(s: Slip) -> u64
    requires { Fits six_bytes.widths s }
    ensures { result ≡ slip_number s }
{
    let front = (s.kind * (1 << STATUS_WIDE) + s.status) * (1 << CHECK_WIDE) + s.check;
    let middle = (front * (1 << SEAT_WIDE) + s.seat) * (1 << OPENING_WIDE) + s.opening;
    (middle * (1 << STEP_WIDE) + s.step) * (1 << SPARE_WIDE)
}

// The six values that the bits of a number hold in a form.
fn values_in(form: Form, n: u64) -> Slip
    ensures { result ≡ held_in (measures form) n }
{
    let m = measures_of(form);
    let after_step = m.spare_wide;
    let after_opening = after_step + STEP_WIDE;
    let after_seat = after_opening + OPENING_WIDE;
    let after_check = after_seat + m.seat_wide;
    let after_status = after_check + CHECK_WIDE;
    Slip {
        kind: (n >> (after_status + STATUS_WIDE)) % (1 << KIND_WIDE),
        status: (n >> after_status) % (1 << STATUS_WIDE),
        check: (n >> after_check) % (1 << CHECK_WIDE),
        seat: (n >> after_seat) % (1 << m.seat_wide),
        opening: (n >> after_opening) % (1 << OPENING_WIDE),
        step: (n >> after_step) % (1 << STEP_WIDE),
    }
}

// Whether the bits after the values are zero.
fn spare_zero(form: Form, n: u64) -> bool
    ensures { result ≡ spare_zero (measures form) n }
{
    n % (1 << measures_of(form).spare_wide) == 0
}

// Writes a slip into the first six bytes of the buffer. The bytes after them stay; on a refusal all of them do.
pub fn write(s: Slip, buffer: &mut [u8]) -> Result<(), NoSlip>
    ensures value { result ≡ write_answer s buffer.old }
    ensures buffer_after { buffer.new ≡ write_after s buffer.old }
{
    if buffer.len() < SLIP_LONG || !is_slip(Form::SixBytes, s) {
        return Err(NoSlip);
    }
    let bytes = number_of(s).to_be_bytes();
    buffer[..SLIP_LONG].copy_from_slice(&bytes[bytes.len() - SLIP_LONG..]);
    Ok(())
}

// The bytes of a slip as one number.
fn number_in(bytes: &[u8]) -> u64
    requires { length bytes.now ≤ slip_long }
    ensures { result ≡ bytes_number bytes.now }
{
    let mut n = 0;
    for b in bytes {
        n = n * BYTE_VALUES + *b as u64;
    }
    n
}

// Reads a slip: exactly five or exactly six bytes, no bit set after the values, and the values those of a slip of that form.
pub fn read(bytes: &[u8]) -> Result<Slip, NoSlip>
    ensures { result ≡ read_answer bytes.now }
{
    let form = match bytes.len() {
        FIVE_LONG => Form::FiveBytes,
        SLIP_LONG => Form::SixBytes,
        _ => return Err(NoSlip),
    };
    let n = number_in(bytes);
    let s = values_in(form, n);
    if spare_zero(form, n) & is_slip(form, s) {
        return Ok(s);
    }
    Err(NoSlip)
}
