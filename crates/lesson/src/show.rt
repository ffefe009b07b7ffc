// How numbers are put on the page: sums, codes, blocks, limits, and the bytes of a slip.
use slip::SLIP_LONG;
use std::io::Write;
use std::{fmt, io};

// What begins a further line of an answer.
pub const NEXT: &str = "\n      ";

// How wide the point of a sum is with the two digits after it.
const KOPECKS_WIDE: usize = 3;

// A sum of kopecks, as 500.00.
#[derive(Clone, Copy)]
pub struct Sum(pub u64);

impl fmt::Display for Sum {
    fn fmt<W: fmt::Write>(&self, f: &mut fmt::Formatter<W>) -> fmt::Result {
        let sum = self.0;
        let wide = f.width().unwrap_or(0).saturating_sub(KOPECKS_WIDE);
        write!(f, "{:>wide$}.{:02}", sum / 100, sum % 100)
    }
}

// A limit: 0 for none, n + 1 for a sum of n.
#[derive(Clone, Copy)]
pub struct Lpo(pub u64);

impl fmt::Display for Lpo {
    fn fmt<W: fmt::Write>(&self, f: &mut fmt::Formatter<W>) -> fmt::Result {
        match self.0.checked_sub(1) {
            Some(n) => Sum(n).fmt(f),
            None => f.pad("none"),
        }
    }
}

// Whether money is blocked: 1 for yes.
#[derive(Clone, Copy)]
pub struct Block(pub u64);

impl fmt::Display for Block {
    fn fmt<W: fmt::Write>(&self, f: &mut fmt::Formatter<W>) -> fmt::Result {
        f.pad(if self.0 == 1 { "blocked" } else { "free" })
    }
}

// What a sum has over another, which may be below zero.
#[derive(Clone, Copy)]
pub struct Difference(pub u64, pub u64);

impl fmt::Display for Difference {
    fn fmt<W: fmt::Write>(&self, f: &mut fmt::Formatter<W>) -> fmt::Result {
        let Difference(sum, less) = *self;
        let wide = f.width().unwrap_or(0).saturating_sub(KOPECKS_WIDE);
        let below = less.saturating_sub(sum);
        if below == 0 {
            return Sum(sum.saturating_sub(less)).fmt(f);
        }
        if below < 100 {
            return write!(f, "{:>wide$}.{:02}", "-0", below);
        }
        write!(f, "{:>wide$}.{:02}", -((below / 100) as i64), below % 100)
    }
}

// The code of a bank, six digits.
#[derive(Clone, Copy)]
pub struct Code(pub u64);

impl fmt::Display for Code {
    fn fmt<W: fmt::Write>(&self, f: &mut fmt::Formatter<W>) -> fmt::Result {
        let code = self.0;
        write!(f, "{code:06}")
    }
}

// The bytes of a slip, each as two hexadecimal digits in capitals.
pub fn put_bytes<W: Write>(out: &mut W, slip: [u8; SLIP_LONG]) -> io::Result<()> {
    for byte in slip {
        write!(out, " {byte:02X}")?;
    }
    Ok(())
}
