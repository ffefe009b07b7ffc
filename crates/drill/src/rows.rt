// Every check that a message fails, each row by itself, in the order of the message's kind.
ghost use Rattle.std.specs.Prelude.{◌≡◌, ◌≤◌, length};
ghost use Rattle.slip.specs.Meaning.{steps};
ghost use Rattle.layout.specs.Seat.{seat_long, head_of};

use crate::line::{Line, ROWS_WORDS};
use crate::show::{put_number, seat_part};
use directory::{Gathered, fits};
use judge::{Case, case_of, fails};
use layout::{SEAT_LONG, head};
use message::receive;
use slip::STEPS;
use std::io;
use std::io::Write;
use table::order_of;

fn put_failing<W: Write>(out: &mut W, c: Case, s: &[u64]) -> io::Result<()>
    requires { (length s.now ≡ seat_long) × ((head_of s.now).steps ≤ steps) }
{
    for check in order_of(c.message.kind) {
        let number = *check;
        if fails(c, s, number) {
            put_number(out, number)?;
        }
    }
    Ok(())
}

fn put_rows<W: Write>(out: &mut W, s: &[u64], c: Case) -> io::Result<()> {
    if s.len() != SEAT_LONG || STEPS < head(s).steps {
        return Ok(());
    }
    out.write_all(b" ->")?;
    put_failing(out, c, s)
}

// The failing checks of the sheet that ends a line, in the seat that it names.
pub fn tell_rows<W: Write>(out: &mut W, room: &[u64], g: Gathered, line: &Line) -> io::Result<()> {
    let [seat, sender, date, ..] = line.values;
    if !fits(g) {
        return Ok(());
    }
    match receive(line.after(ROWS_WORDS)).answer {
        Ok(m) => put_rows(out, seat_part(room, seat), case_of(g, sender, date, m)),
        Err(_refusal) => Ok(()),
    }
}
