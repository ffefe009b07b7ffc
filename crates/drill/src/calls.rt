// The nine calls, with the numbers of a line. The script's directory is lent to those that need one, through `lender`.
use crate::line::{Line, SUBMIT_WORDS};
use crate::show::{NO_VALUES, OPENED_VALUES, SLIP_VALUES, put_buffer, tell};
use centre::{Ticket, close_seat, lay_out, read_slip, take_back, write_slip};
use directory::Gathered;
use layout::rows::ACCOUNT_LONG;
use lender::{open_with, read_with, set_with, submit_with};
use seat::Wish;
use slip::Slip;
use std::io;
use std::io::Write;
use text::bytes_in;

// How many bytes a slip's buffer has at most.
const BUFFER_MOST: usize = 8;

// What a slip's buffer is full of before the call.
const UNWRITTEN: u8 = 170;

fn ticket(line: &Line) -> Ticket {
    let [seat, opening, ..] = line.values;
    Ticket { seat, opening }
}

// Room, directory and line go together through the calls, each as the centre takes it; no struct would be plainer.

// The sums of an opening stand after its seat.
fn open<W: Write>(out: &mut W, room: &mut [u64], g: Gathered, line: &Line) -> io::Result<()> {
    let sums = line.values.get(1..line.count).unwrap_or(&[]);
    tell(out, open_with(room, g, line.values[0], sums), OPENED_VALUES)
}

// The LPO that ends a line: a number, or `-` for none.
fn limit(line: &Line, n: u64) -> Option<u64> {
    if line.text.ends_with(b"-") {
        return None;
    }
    Some(n)
}

fn set<W: Write>(out: &mut W, room: &mut [u64], g: Gathered, line: &Line) -> io::Result<()> {
    let [_, _, owner, number, outgoing, incoming, ltk, lpo, ..] = line.values;
    let wish = Wish {
        out: outgoing == 1,
        into: incoming == 1,
        ltk,
        lpo: limit(line, lpo),
    };
    let answer = set_with(room, g, ticket(line), owner, number, wish);
    tell(out, answer, NO_VALUES)
}

fn submit<W: Write>(out: &mut W, room: &mut [u64], g: Gathered, line: &Line) -> io::Result<()> {
    let [_, _, sender, date, long, ..] = line.values;
    let sheet = line.after(SUBMIT_WORDS);
    let mut bytes = [UNWRITTEN; BUFFER_MOST];
    let buffer = &mut bytes[..BUFFER_MOST.min(long as usize)];
    let answer = submit_with(room, g, ticket(line), sender, date, sheet, buffer);
    tell(out, answer, NO_VALUES)?;
    put_buffer(out, buffer)
}

fn read<W: Write>(out: &mut W, room: &[u64], g: Gathered, line: &Line) -> io::Result<()> {
    let [_, _, owner, number, ..] = line.values;
    let answer = read_with(room, g, ticket(line), owner, number);
    tell(out, answer, ACCOUNT_LONG)
}

// The calls on a room. Other words make none.
pub fn on_room<W: Write>(
    out: &mut W,
    room: &mut [u64],
    g: Gathered,
    line: &Line,
) -> io::Result<()> {
    match line.word {
        b"lay" => tell(out, lay_out(room), NO_VALUES),
        b"open" => open(out, room, g, line),
        b"close" => tell(out, close_seat(room, ticket(line)), NO_VALUES),
        b"set" => set(out, room, g, line),
        b"submit" => submit(out, room, g, line),
        b"back" => tell(out, take_back(room, ticket(line)), NO_VALUES),
        b"read" => read(out, room, g, line),
        _ => Ok(()),
    }
}

pub fn write<W: Write>(out: &mut W, line: &Line) -> io::Result<()> {
    let [kind, status, check, seat, opening, step, long, ..] = line.values;
    let slip = Slip {
        kind,
        status,
        check,
        seat,
        opening,
        step,
    };
    let mut bytes = [UNWRITTEN; BUFFER_MOST];
    let buffer = &mut bytes[..BUFFER_MOST.min(long as usize)];
    tell(out, write_slip(slip, buffer), NO_VALUES)?;
    put_buffer(out, buffer)
}

pub fn slip<W: Write>(out: &mut W, line: &Line) -> io::Result<()> {
    let mut bytes = [0u8; BUFFER_MOST];
    let count = bytes_in(line.after(1), &mut bytes);
    tell(out, read_slip(&bytes[..count]), SLIP_VALUES)
}
