// Plays a lesson: a class's script on standard input, a call a line, each answered in words after the line's number. A bad line is answered
// with what was expected, and the lesson goes on. What the lines are stands in `script`, what they do in `class`, and the calls in `centre`,
// each with its contract; this program goes through the lines and prints. `lessons/` has lessons, docs/TEACHERS.md says how to write one.
#![tactic(auto)]

mod accounts;
mod done;
mod expected;
mod fields;
mod meanings;
mod messages;
mod refusals;
mod show;

use accounts::{Call, seen};
use class::{behind, no_banks, perform, with_line};
use directory::Gathered;
use done::put_done;
use expected::expected;
use input::{buffer, read_text};
use layout::ROOM_LONG;
use refusals::put_refusal;
use script::{Line, Word, read_line};
use slip::SLIP_LONG;
use std::io;
use std::io::{BufWriter, Write};
use text::lines;

// How many bytes of a script are read.
const SCRIPT_MOST: usize = 524288;

// Makes the call of a line and tells how it ended, or what the line should have been.
fn answer<W: Write>(
    out: &mut W,
    line: Line,
    text: &[u8],
    room: &mut [u64],
    banks: Gathered,
) -> io::Result<()> {
    let [seat, ..] = line.values;
    if !line.good {
        return write!(out, "not understood; expected: {}", expected(line.word));
    }
    let before = seen(room, seat);
    let mut slip = [0u8; SLIP_LONG];
    let answer = perform(room, banks, line, text, &mut slip);
    let after = seen(room, seat);
    let call = Call {
        line,
        banks,
        before,
        after,
    };
    match answer {
        Ok(done) => put_done(out, &call, done, slip),
        Err(refusal) => put_refusal(out, refusal, line.word, behind(text, line.rest)),
    }
}

// Goes through the lines, and answers each that says something after its number.
fn play<W: Write>(out: &mut W, script: &[u8], room: &mut [u64]) -> io::Result<()> {
    let mut banks = no_banks();
    for (number, text) in (1u64..).zip(lines(script)) {
        let line = read_line(text);
        banks = with_line(banks, line);
        if line.word != Word::Blank {
            write!(out, "{number:>4}  ")?;
            answer(out, line, text, room, banks)?;
            out.write_all(b"\n")?;
        }
    }
    Ok(())
}

fn main(rt: HostRuntime) -> io::Result<()> {
    let mut input = buffer::<SCRIPT_MOST>();
    let mut room = [0u64; ROOM_LONG];
    let mut out = BufWriter::new(rt.alloc(), rt.stdout())?;
    let script = read_text(&mut rt.stdin(), &mut input)?;
    play(&mut out, script, &mut room)?;
    if script.len() == SCRIPT_MOST {
        writeln!(
            out,
            "the script has {SCRIPT_MOST} bytes or more; what stands after them was not played"
        )?;
    }
    out.flush()
}
