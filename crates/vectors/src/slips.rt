// What is asked of slips.
use crate::ask::number;
use slip::{SLIP_LONG, Slip};
use std::io;
use text::bytes_in;

// What writing is given: the bytes of a slip, and two after them that it must leave.
const BUFFER_LONG: usize = SLIP_LONG + 2;

// How many bytes of a text of hexadecimal digits are read: more than a slip has, so that one can be too long.
const BYTES_MOST: usize = 8;

// The six numbers of a slip, with a blank between each. The last one stands for those that are missing.
fn slip_in(s: &[u8]) -> Slip {
    let mut values = [0u64; 6];
    let mut parts = s.split(|b| *b == b' ');
    let mut last = 0;
    for value in &mut values {
        last = parts.next().map_or(last, number);
        *value = last;
    }
    let [kind, status, check, seat, opening, step] = values;
    Slip {
        kind,
        status,
        check,
        seat,
        opening,
        step,
    }
}

fn put_slip(rt: &impl Print, s: Slip) -> io::Result<()> {
    print!(rt; " {} {} {}", s.kind, s.status, s.check)?;
    print!(rt; " {} {} {}", s.seat, s.opening, s.step)
}

// Writes into a buffer that is longer than a slip, and shows all of it.
pub fn write(rt: &impl Print, text: &[u8]) -> io::Result<()> {
    let mut buffer = [0xeeu8; BUFFER_LONG];
    match slip::write(slip_in(text), &mut buffer) {
        Ok(()) => print!(rt; " 0 ")?,
        Err(_) => print!(rt; " 11 ")?,
    }
    for byte in &buffer {
        print!(rt; "{byte:02x}")?;
    }
    Ok(())
}

pub fn read(rt: &impl Print, text: &[u8]) -> io::Result<()> {
    let mut bytes = [0u8; BYTES_MOST];
    let count = bytes_in(text, &mut bytes);
    match slip::read(&bytes[..count]) {
        Ok(s) => put_slip(rt, s),
        Err(no_slip) => print!(rt; " {no_slip}"),
    }
}
