// Writing into a buffer as far as there is room. Each function is given the place to write from and says the place after. The two are no struct:
// the clauses are `Wrote` of the buffer before and after and of both places.
ghost use Rattle.std.specs.Prelude.{◌∷◌, []};
ghost use Rattle.lister.specs.Listing.{ones, decimal_text};
ghost use Rattle.lister.specs.Writing.{Wrote};

// One byte.
pub fn put(out: &mut [u8], n: usize, b: u8) -> usize
    ensures { Wrote out.old n (b ∷ []) out.new result }
{
    if n < out.len() {
        out[n] = b;
        return n + 1;
    }
    n
}

// A whole text.
pub fn put_all(out: &mut [u8], n: usize, text: &[u8]) -> usize
    ensures { Wrote out.old n text.now out.new result }
{
    let mut at = n;
    for b in text {
        at = put(out, at, *b);
    }
    at
}

// The last digit of a number.
fn put_ones(out: &mut [u8], n: usize, number: usize) -> usize
    ensures { Wrote out.old n (ones number ∷ []) out.new result }
{
    put(out, n, b'0' + (number % 10) as u8)
}

// A number below ten thousand in decimal digits. A branch for each number of digits, as `decimal_text` has it: of a number of five digits or
// more it says the last four, which a loop that ends at zero would not.
pub fn put_decimal(out: &mut [u8], n: usize, number: usize) -> usize
    ensures { Wrote out.old n (decimal_text number) out.new result }
{
    if number < 10 {
        return put_ones(out, n, number);
    }
    if number < 100 {
        let tens = put_ones(out, n, number / 10);
        return put_ones(out, tens, number);
    }
    if number < 1000 {
        let hundreds = put_ones(out, n, number / 100);
        let tens = put_ones(out, hundreds, number / 10);
        return put_ones(out, tens, number);
    }
    let thousands = put_ones(out, n, number / 1000);
    let hundreds = put_ones(out, thousands, number / 100);
    let tens = put_ones(out, hundreds, number / 10);
    put_ones(out, tens, number)
}
