// The sheet's reader in the form in which it goes to C: one function that reads a sheet and answers with one number, for the measurements of
// `bench/`. The crate `reader_c` exports it to C, under the same name and with the same clause.
// It does what `sheet::read` does and adds no rule. What the number means stands in `specs/Number.antt`.
// Which number is wanted is known only when it is called, so the compiler cannot leave out any part of the reading: both lists are filled each time.
#![tactic(auto)]

ghost use Rattle.std.specs.Prelude.{◌≡◌};
ghost use Rattle.sheet.specs.Answer.{reading_of};
ghost use Rattle.reader.specs.Number.{number_at};

use sheet::ELEMENT_MOST;

// The number of a sheet that is refused at its first byte; refused at another place, the place is added.
pub const REFUSED_FROM: u64 = 1_000_000;

// Reads the bytes. Below 256 it answers with the start of that element, below 512 with the depth of the element that stands 256 before, and
// from 512 on with the number of elements, or the place of the refusal and a million. Of a refused sheet there is no start and no depth: 0.
pub fn damvurit_read_sheet(s: &[u8], which: usize) -> u64
    ensures { result ≡ number_at (reading_of s.now) which }
{
    // By reference, so that the lists are read where they stand.
    match &sheet::read(s) {
        Ok(sheet) if which < ELEMENT_MOST => sheet.starts[which] as u64,
        Ok(sheet) if which < 2 * ELEMENT_MOST => sheet.depths[which - ELEMENT_MOST] as u64,
        Ok(sheet) => sheet.count as u64,
        Err(_) if which < 2 * ELEMENT_MOST => 0,
        Err(refused) => REFUSED_FROM + refused.place as u64,
    }
}
