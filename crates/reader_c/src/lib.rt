// The sheet's reader for a program in C, as a static library, for the measurements of `bench/`.
// There is no code here but the export: it calls the function of its name in the crate `reader` and has that function's clause.
#![tactic(auto)]

ghost use Rattle.std.specs.Prelude.{◌≡◌};
ghost use Rattle.sheet.specs.Answer.{reading_of};
ghost use Rattle.reader.specs.Number.{number_at};

// Reads the bytes from a pointer on, so many of them. Below 256 it answers with the start of that element, below 512 with the depth of the
// element that stands 256 before, and from 512 on with the number of elements, or the place of the refusal and a million.
// In C: uint64_t damvurit_read_sheet(const uint8_t *sheet, size_t length, size_t which).
#[unsafe(no_mangle)]
pub extern "C" fn damvurit_read_sheet(s: &[u8], which: usize) -> u64
    ensures { result ≡ number_at (reading_of s.now) which }
{
    reader::damvurit_read_sheet(s, which)
}
