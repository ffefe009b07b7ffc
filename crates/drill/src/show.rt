// What is printed: the answer of a call, and what a seat holds.
ghost use Rattle.std.specs.Prelude.{◌≡◌, length};
ghost use Rattle.layout.specs.Seat.{seat_long};

use centre::{Done, Refusal};
use layout::rows::{Account, Settings, Step};
use layout::{ACCOUNTS, ROOM_LONG, SEAT_LONG, account, head, seat_in, step};
use shape::stored::Identifier;
use slip::{SEATS, STEPS, Slip};
use std::io;
use std::io::Write;

// How many values an answer has: none, that of an opening, those of a slip. An account has as many as its row.
pub const NO_VALUES: usize = 0;

pub const OPENED_VALUES: usize = 1;

pub const SLIP_VALUES: usize = 6;

pub fn put_number<W: Write>(out: &mut W, n: u64) -> io::Result<()> {
    write!(out, " {n}")
}

fn put_zeros<W: Write>(out: &mut W, count: usize) -> io::Result<()> {
    for _ in 0..count {
        put_number(out, 0)?;
    }
    Ok(())
}

fn put_settings<W: Write>(out: &mut W, s: Settings) -> io::Result<()> {
    write!(out, " {} {} {} {}", s.out, s.into, s.ltk, s.lpo)
}

fn put_account<W: Write>(out: &mut W, a: Account) -> io::Result<()> {
    write!(out, " {} {} {}", a.opening, a.balance, a.turnover)?;
    put_settings(out, a.settings)
}

fn put_slip<W: Write>(out: &mut W, s: Slip) -> io::Result<()> {
    write!(out, " {} {} {}", s.kind, s.status, s.check)?;
    write!(out, " {} {} {}", s.seat, s.opening, s.step)
}

// An answer: its number in the table of refusals, its detail and its values, so many zeros where it has none.
pub fn tell<W: Write>(out: &mut W, answer: Result<Done, Refusal>, values: usize) -> io::Result<()> {
    let (number, detail) = match answer {
        Ok(_done) => (0, 0),
        Err(refusal) => (refusal.number(), refusal.detail()),
    };
    write!(out, " -> {number} {detail}")?;
    match answer {
        Ok(Done::Opened(opening)) => put_number(out, opening),
        Ok(Done::Holds(account)) => put_account(out, account),
        Ok(Done::Says(slip)) => put_slip(out, slip),
        _ => put_zeros(out, values),
    }
}

// The bytes of a slip's buffer.
pub fn put_buffer<W: Write>(out: &mut W, bytes: &[u8]) -> io::Result<()> {
    out.write_all(b" slip ")?;
    for byte in bytes {
        write!(out, "{byte:02x}")?;
    }
    Ok(())
}

// An account that was never used.
const UNUSED: Account = Account {
    opening: 0,
    balance: 0,
    turnover: 0,
    settings: Settings {
        out: 0,
        into: 0,
        ltk: 0,
        lpo: 0,
    },
};

fn put_account_row<W: Write>(out: &mut W, i: usize, a: Account) -> io::Result<()> {
    if a == UNUSED {
        return Ok(());
    }
    write!(out, "account {i}")?;
    put_account(out, a)?;
    out.write_all(b"\n")
}

// Counted, since an account is read by its number.
fn put_accounts<W: Write>(out: &mut W, s: &[u64]) -> io::Result<()>
    requires { length s.now ≡ seat_long }
{
    for i in 0..ACCOUNTS {
        put_account_row(out, i, account(s, i))?;
    }
    Ok(())
}

fn put_identifier<W: Write>(out: &mut W, x: Identifier) -> io::Result<()> {
    write!(out, " {} {} {}", x.first, x.second, x.third)?;
    write!(out, " {} {}", x.fourth, x.fifth)
}

// A step's numbers in the order of their places.
fn put_step<W: Write>(out: &mut W, x: Step) -> io::Result<()> {
    write!(out, " {} {} {} {}", x.kind, x.status, x.check, x.sender)?;
    put_identifier(out, x.id)?;
    write!(out, " {} {} {}", x.uetr.high, x.uetr.low, x.created)?;
    put_identifier(out, x.reference)?;
    write!(out, " {} {} {} {}", x.debit, x.credit, x.amount, x.account)?;
    put_settings(out, x.old)?;
    put_settings(out, x.given)?;
    write!(out, " {} {}", x.receiver, x.answers)
}

fn put_step_row<W: Write>(out: &mut W, number: u64, x: Step) -> io::Result<()> {
    write!(out, "step {number}")?;
    put_step(out, x)?;
    out.write_all(b"\n")
}

// The first steps of a seat, counted from 1, since a step is read by its number.
fn put_steps<W: Write>(out: &mut W, s: &[u64], count: u64) -> io::Result<()>
    requires { length s.now ≡ seat_long }
{
    for k in 0..count.min(STEPS) {
        put_step_row(out, k + 1, step(s, k as usize))?;
    }
    Ok(())
}

// The part of a room's numbers that a seat is, empty where there is none.
pub fn seat_part(numbers: &[u64], seat: u64) -> &[u64] {
    if SEATS <= seat || numbers.len() < ROOM_LONG {
        return &[];
    }
    seat_in(&numbers[..ROOM_LONG], seat as usize)
}

// A seat's head, its accounts that are not all zeros, and its steps.
pub fn dump<W: Write>(out: &mut W, s: &[u64]) -> io::Result<()> {
    if s.len() != SEAT_LONG {
        return Ok(());
    }
    let h = head(s);
    writeln!(out, "head {} {} {}", h.opening, h.opened, h.steps)?;
    put_accounts(out, s)?;
    put_steps(out, s, h.steps)
}
