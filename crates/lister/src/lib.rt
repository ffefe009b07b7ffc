// The listing of a sheet: what the program of that name prints, as bytes.
// It stands on rows and knows nothing of messages. The rule stands in `specs/Printed.antt`, by the grammar, and in `specs/Listing.antt`, worked
// out; what it means to write into a buffer that may be too short, in `specs/Writing.antt`.
#![tactic(auto)]

mod row;
mod writer;

ghost use Rattle.std.specs.Prelude.{◌≡◌, ◌++◌, ◌≤◌};
ghost use Rattle.shape.specs.Text.{bytes};
ghost use Rattle.sheet.specs.Grammar.{element_most};
ghost use Rattle.outline.specs.Rows.{rows_of};
ghost use Rattle.lister.specs.Listing.{listed_count, listed_after, decimal_text, lines_of, fields_of};
ghost use Rattle.lister.specs.Writing.{Wrote};

use outline::names_around;
use row::{put_line, texts_at};
use sheet::{DEPTH_MOST, ELEMENT_MOST, NAME_MOST, Sheet, TEXT_MOST, read};
use writer::{put_all, put_decimal};

// The longest line in bytes: a name and a slash at each level, a Ccy in brackets, a blank, a text and a line feed.
const LINE_MOST: usize = (NAME_MOST + 1) * DEPTH_MOST + 5 + 1 + TEXT_MOST + 1;

// The longest listing of any sheet in bytes: a line for each element, and the count in four digits and the word after them.
pub const LISTING_MOST: usize = LINE_MOST * ELEMENT_MOST + 4 + 8;

// The place after the lines that were written, and how many texts the rows hold.
#[derive(Clone, Copy)]
struct Listed {
    to: usize,
    fields: usize,
}

// The lines of a sheet's rows.
fn put_lines(out: &mut [u8], s: &[u8], sheet: &Sheet) -> Listed
    requires { sheet.now.count ≤ element_most }
    ensures wrote { Wrote out.old 0 (lines_of (rows_of s.now sheet.now.count sheet.now.starts sheet.now.depths)) out.new result.to }
    ensures fields_value { result.fields ≡ fields_of (rows_of s.now sheet.now.count sheet.now.starts sheet.now.depths) }
{
    let mut stack = [0usize; ELEMENT_MOST];
    let mut level = 0;
    let mut to = 0;
    let mut fields = 0;
    // By number: the two lists have more places than the sheet has elements.
    for k in 0..sheet.count {
        let start = sheet.starts[k];
        level = names_around(sheet.depths[k], level);
        stack[level] = start;
        level += 1;
        to = put_line(out, to, s, start, &stack[..level]);
        fields += texts_at(s, start);
    }
    Listed { to, fields }
}

// The last line of an accepted sheet: how many fields.
fn put_count(out: &mut [u8], n: usize, fields: usize) -> usize
    ensures { Wrote out.old n (decimal_text fields ++ bytes " fields\n") out.new result }
{
    let counted = put_decimal(out, n, fields);
    put_all(out, counted, b" fields\n")
}

// The line of a refused sheet.
fn put_refusal(out: &mut [u8], place: usize) -> usize
    ensures { Wrote out.old 0 (bytes "refused 7 at " ++ (decimal_text place ++ bytes "\n")) out.new result }
{
    let said = put_all(out, 0, b"refused 7 at ");
    let placed = put_decimal(out, said, place);
    put_all(out, placed, b"\n")
}

// Writes the listing of a sheet, as much as the buffer has room for, and says how many bytes. A count below the buffer's length means that
// the listing is whole.
pub fn listing(s: &[u8], out: &mut [u8]) -> usize
    ensures value { result ≡ listed_count s.now out.old }
    ensures out_after { out.new ≡ listed_after s.now out.old }
{
    match read(s) {
        Ok(sheet) => {
            let listed = put_lines(out, s, &sheet);
            put_count(out, listed.to, listed.fields)
        }
        Err(refused) => put_refusal(out, refused.place),
    }
}
