// Plays a script of calls on one room and prints each line with its answer. A line of standard input is a word and numbers:
//     lay LONG                                              the room that is lent from here on has so many numbers
//     open SEAT SUM..     close SEAT OPENING     back SEAT OPENING     read SEAT OPENING OWNER NUMBER
//     set SEAT OPENING OWNER NUMBER OUT INTO LTK LPO        LPO is `-` for none
//     submit SEAT OPENING SENDER DATE LONG SHEET            LONG is that of the buffer, whose bytes are 170; the sheet is not printed
//     write KIND STATUS CHECK SEAT OPENING STEP LONG        slip BYTES
//     forget     record CODE INSTANT KIND NAMED             the directory
//     poke PLACE NUMBER                                     changes a number of the room
//     rows SEAT SENDER DATE SHEET                           prints every check that the message fails, in the order of its kind
//     dump SEAT                                             prints all that the seat holds
// After a call stand the answer's number, its detail and its values, then the slip's buffer. Other lines are only printed.
// The script stands in `stdin`, what it must give in `stdout`; both are written by `tests/drill.py`.
#![tactic(auto)]

mod calls;
mod line;
mod records;
mod rows;
mod show;

use directory::{Gathered, no_records};
use input::{buffer, read_text};
use layout::ROOM_LONG;
use line::{Line, line_of};
use records::directory_after;
use show::{dump, seat_part};
use std::io;
use std::io::{BufWriter, Write};
use text::lines;

// How many bytes of a script are read, and how many numbers a room can be lent with: more than a room has, so that one can be too long.
const SCRIPT_MOST: usize = 524288;

const ROOM_MOST: usize = ROOM_LONG + 16;

// The length of the room after a line.
fn length_after(long: usize, line: &Line) -> usize {
    if !line.is(b"lay") {
        return long;
    }
    ROOM_MOST.min(line.values[0] as usize)
}

// Changes a number of the room, where it has that place.
fn poke(numbers: &mut [u64], line: &Line) {
    let [place, given, ..] = line.values;
    if let Some(number) = numbers.get_mut(place as usize) {
        *number = given;
    }
}

// A line with its answer, in a room of which so many numbers are lent.
fn answer<W: Write>(
    out: &mut W,
    numbers: &mut [u64],
    long: usize,
    g: Gathered,
    line: &Line,
) -> io::Result<()> {
    if numbers.len() < long {
        return Ok(());
    }
    out.write_all(line.head)?;
    match line.word {
        b"poke" => poke(numbers, line),
        b"rows" => rows::tell_rows(out, numbers, g, line)?,
        b"write" => calls::write(out, line)?,
        b"slip" => calls::slip(out, line)?,
        _ => calls::on_room(out, &mut numbers[..long], g, line)?,
    }
    out.write_all(b"\n")?;
    if line.is(b"dump") {
        dump(out, seat_part(numbers, line.values[0]))?;
    }
    Ok(())
}

fn play<W: Write>(out: &mut W, script: &[u8], numbers: &mut [u64]) -> io::Result<()> {
    let mut g = no_records();
    let mut long = 0;
    for text in lines(script) {
        let line = line_of(text);
        g = directory_after(g, &line);
        long = length_after(long, &line);
        answer(out, numbers, long, g, &line)?;
    }
    Ok(())
}

fn main(rt: HostRuntime) -> io::Result<()> {
    let mut input = buffer::<SCRIPT_MOST>();
    let mut room = [0u64; ROOM_MOST];
    let mut out = BufWriter::new(rt.alloc(), rt.stdout())?;
    let script = read_text(&mut rt.stdin(), &mut input)?;
    play(&mut out, script, &mut room)?;
    out.flush()
}
