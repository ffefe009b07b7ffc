// A sheet and a place in it: what stands next there, and a field as that part of the sheet. Document 01, "The sheet".
// The methods of the struct only take it apart or put it together; the functions on a plain sheet and a place do the work. Callers take
// `next_at` and `shown_at`, which go through the struct and show nothing of it.
ghost use Rattle.std.specs.Prelude.{◌≡◌, ◌+◌, ◌≤◌, length, drop};
ghost use Rattle.shape.specs.Bytes.{is_text};
ghost use Rattle.sheet.specs.Grammar.{is_name_byte};
ghost use Rattle.sheet.specs.Reader.{while, next_in, shown_at};

use crate::parts::{name_run, text_run};
use shape::byte::{is_letter, is_text, peek};

// A sheet and a place in it.
#[derive(Clone, Copy)]
pub struct Reader<'a> {
    pub sheet: &'a [u8],
    pub place: usize,
}

// What stands at a place: an element that begins there, whose name ends at this place; a text, which ends there; or neither. That is a case
// of its own, as `next_in` has it.
#[derive(Clone, Copy, Debug, PartialEq, Eq)]
pub enum Ahead {
    Element(usize),
    Text(usize),
    Neither,
}

// The end of the name bytes from a place on.
pub fn name_bytes_end(sheet: &[u8], from: usize) -> usize
    requires { from ≤ length sheet.now }
    ensures { result ≡ from + length (while is_name_byte (drop from sheet.now)) }
{
    from + name_run(&sheet[from..])
}

// The end of the text bytes from a place on.
fn text_bytes_end(sheet: &[u8], from: usize) -> usize
    requires { from ≤ length sheet.now }
    ensures { result ≡ from + length (while is_text (drop from sheet.now)) }
{
    from + text_run(&sheet[from..])
}

// What stands at a place of a sheet.
pub fn next_in(sheet: &[u8], place: usize) -> Ahead
    ensures { result ≡ next_in sheet.now place }
{
    let b = peek(sheet, place);
    if is_text(b) {
        return Ahead::Text(text_bytes_end(sheet, place));
    }
    if b != b'<' {
        return Ahead::Neither;
    }
    let name = place + 1;
    if !is_letter(peek(sheet, name)) {
        return Ahead::Neither;
    }
    Ahead::Element(name_bytes_end(sheet, name))
}

// The part of a sheet from a place on, of a length; nothing where the sheet is too short for it. One test, so that the sum of both cannot be too
// high.
pub fn part(sheet: &[u8], start: usize, length: usize) -> &[u8]
    ensures { result.now ≡ shown_at sheet.now start length }
{
    if sheet.len() < start || sheet.len() - start < length {
        return &[];
    }
    &sheet[start..start + length]
}

impl<'a> Reader<'a> {
    // A sheet at its first place.
    pub fn begin(sheet: &'a [u8]) -> Reader<'a>
        ensures { (result.sheet ≡ sheet.entry) × (result.place ≡ 0) }
    {
        Reader { sheet, place: 0 }
    }

    pub fn place(self) -> usize
        ensures { result ≡ self.entry.place }
    {
        self.place
    }

    // The same sheet at another place.
    pub fn moved(self, to: usize) -> Reader<'a>
        ensures { (result.sheet ≡ self.entry.sheet) × (result.place ≡ to) }
    {
        Reader {
            sheet: self.sheet,
            place: to,
        }
    }

    // The next element or text.
    pub fn next(self) -> Ahead
        ensures { result ≡ next_in self.entry.sheet.now self.entry.place }
    {
        next_in(self.sheet, self.place)
    }

    // The field of a length that stands at the place, shown as that part of the sheet.
    pub fn shown(self, length: usize) -> &'a [u8]
        ensures { result.now ≡ shown_at self.entry.sheet.now self.entry.place length }
    {
        part(self.sheet, self.place, length)
    }
}

// What stands at a place of a sheet, through a reader of it.
pub fn next_at(sheet: &[u8], place: usize) -> Ahead
    ensures { result ≡ next_in sheet.now place }
{
    Reader::begin(sheet).moved(place).next()
}

// A field of a sheet, through a reader of it.
pub fn shown_at<'a>(sheet: &'a [u8], start: usize, length: usize) -> &'a [u8]
    ensures { result.now ≡ shown_at sheet.now start length }
{
    Reader::begin(sheet).moved(start).shown(length)
}
