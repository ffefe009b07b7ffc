// The program of document 01: reads a sheet on standard input and prints its listing, or its refusal.
// Nothing is decided here: what is printed is `lister`'s. A longer input than the first buffer holds is a longer sheet than any that is
// accepted, and is refused at the same place. The second buffer holds the longest listing that there is (`longest` in `lister/proofs`).
#![tactic(auto)]

use input::{buffer, read_text};
use lister::LISTING_MOST;
use std::io;

// How many bytes are read at most, more than the longest sheet that is accepted.
const INPUT_MOST: usize = 65536;

fn main(rt: HostRuntime) -> io::Result<()> {
    let mut input = buffer::<INPUT_MOST>();
    let sheet = read_text(&mut rt.stdin(), &mut input)?;
    let mut out = [0u8; LISTING_MOST];
    let count = lister::listing(sheet, &mut out);
    rt.write_all(&out[..count])
}
