// Reads an input into a buffer: the whole of it, or as much as fills the buffer. The programs take what stands on standard input by this one
// function, and go through the bytes themselves.
#![tactic(auto)]

ghost use Rattle.std.specs.Prelude.{◌≡◌, ◌<◌, ◌≤◌, length, take, replicate, IfOk};
ghost use Rattle.std.specs.Io.{ReadsAtMost};
ghost use Rattle.std.specs.Io.KnownBytes.{Consumes, IsAtEnd};

use std::io;
use std::io::Read;

// A buffer of zeros. It is made here so that a proof about who reads into it sees its length alone, and not each of its bytes.
pub fn buffer<const LONG: usize>() -> [u8; LONG]
    ensures { result ≡ replicate LONG 0 }
{
    [0; LONG]
}

// Reads until the buffer is full or the input ends, and says how many bytes stand at the buffer's start. They are all that the input had,
// where they do not fill the buffer.
pub fn read_full<R: Read>(input: &mut R, buffer: &mut [u8]) -> io::Result<usize>
    ensures bound { ReadsAtMost result buffer.new }
    ensures bytes { IfOk result (λ n. Consumes (R.remaining input.old) (R.remaining input.new) (take n buffer.new)) }
    ensures end { IfOk result (λ n. n < length buffer.new → IsAtEnd (R.remaining input.new)) }
{
    let mut filled = 0;
    // No `for`: a turn goes on by as many bytes as its read gave.
    while filled < buffer.len() {
        let n = input.read(&mut buffer[filled..])?;
        if n == 0 {
            return Ok(filled);
        }
        filled += n;
    }
    Ok(filled)
}

// Reads the same, and gives the bytes themselves.
pub fn read_text<'a, R: Read>(input: &mut R, buffer: &'a mut [u8]) -> io::Result<&'a [u8]>
    ensures bound { IfOk result (λ s. length s.now ≤ length buffer.old) }
    ensures bytes { IfOk result (λ s. Consumes (R.remaining input.old) (R.remaining input.new) s.now) }
    ensures end { IfOk result (λ s. length s.now < length buffer.old → IsAtEnd (R.remaining input.new)) }
{
    let n = read_full(input, buffer)?;
    Ok(&buffer[..n])
}
