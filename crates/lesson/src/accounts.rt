// What is seen of a seat: its balances before and after a call, how many steps it has, and its last one.
ghost use Rattle.std.specs.Prelude.{◌≡◌, length};
ghost use Rattle.layout.specs.Seat.{seat_long};

use crate::show::{Code, NEXT, Sum};
use directory::Gathered;
use layout::rows::Step;
use layout::{ACCOUNTS, ROOM_LONG, SEAT_LONG, account, head, seat_in, step};
use script::Line;
use slip::{SEATS, STEPS};
use std::io;
use std::io::Write;

// What is seen: zeros and no step where there is no such seat.
#[derive(Clone, Copy)]
pub struct Sight {
    pub balances: [u64; ACCOUNTS],
    pub steps: u64,
    pub last: Option<Step>,
}

impl Sight {
    // The number of the step that the last one answers.
    pub fn answers(&self) -> Option<u64> {
        self.last.map(|x| x.answers).filter(|step| *step != 0)
    }
}

fn nothing() -> Sight {
    Sight {
        balances: [0u64; ACCOUNTS],
        steps: 0,
        last: None,
    }
}

fn balances_in(s: &[u64]) -> [u64; ACCOUNTS]
    requires { length s.now ≡ seat_long }
{
    let mut balances = [0u64; ACCOUNTS];
    for (i, balance) in balances.iter_mut().enumerate() {
        *balance = account(s, i).balance;
    }
    balances
}

// The last of so many steps.
fn last_of(s: &[u64], steps: u64) -> Option<Step>
    requires { length s.now ≡ seat_long }
{
    if STEPS < steps {
        return None;
    }
    let last = steps.checked_sub(1)?;
    Some(step(s, last as usize))
}

fn seen_in(s: &[u64]) -> Sight {
    if s.len() != SEAT_LONG {
        return nothing();
    }
    let steps = head(s).steps;
    Sight {
        balances: balances_in(s),
        steps,
        last: last_of(s, steps),
    }
}

// What is seen of a seat of the room.
pub fn seen(room: &[u64], seat: u64) -> Sight {
    if SEATS <= seat || room.len() != ROOM_LONG {
        return nothing();
    }
    seen_in(seat_in(room, seat as usize))
}

// A call that was made: its line, the list of banks, and what was seen of its seat before and after.
#[derive(Clone, Copy)]
pub struct Call {
    pub line: Line,
    pub banks: Gathered,
    pub before: Sight,
    pub after: Sight,
}

impl Call {
    // An account by its number in a seat, with the code of the bank that owns it.
    fn put_name<W: Write>(&self, out: &mut W, i: usize) -> io::Result<()> {
        if let Some(bank) = self.banks.records.get(i / 2) {
            write!(out, "{NEXT}{} account {}: ", Code(bank.code), i % 2 + 1)?;
        }
        Ok(())
    }

    // The balances that the call changed.
    pub fn put_changes<W: Write>(&self, out: &mut W) -> io::Result<()> {
        let before = &self.before.balances;
        let after = &self.after.balances;
        if before == after {
            return write!(out, "{NEXT}no balance changed");
        }
        for (i, (was, is)) in before.iter().zip(after).enumerate() {
            if was != is {
                self.put_name(out, i)?;
                write!(out, "{} -> {}", Sum(*was), Sum(*is))?;
            }
        }
        Ok(())
    }

    // The balances after the call that are not zero.
    pub fn put_balances<W: Write>(&self, out: &mut W) -> io::Result<()> {
        for (i, balance) in self.after.balances.iter().enumerate() {
            if *balance != 0 {
                self.put_name(out, i)?;
                write!(out, "{}", Sum(*balance))?;
            }
        }
        Ok(())
    }
}
