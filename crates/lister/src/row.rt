// The line of a row: the path of its names, its Ccy if it has one, and its text.
ghost use Rattle.std.specs.Prelude.{◌≡◌, length};
ghost use Rattle.std.specs.Option.{option_map};
ghost use Rattle.outline.specs.Rows.{ccy_at, text_at};
ghost use Rattle.lister.specs.Listing.{path_text, ccy_text, line_with, holds_text};
ghost use Rattle.lister.specs.Writing.{Wrote, names_of};

use crate::writer::{put, put_all};
use outline::{leaf_at, name_at};

// The path of the elements that start at these places, the outermost first.
fn put_path(out: &mut [u8], n: usize, s: &[u8], path: &[usize]) -> usize
    ensures { Wrote out.old n (path_text (names_of s.now path.now (length path.now))) out.new result }
{
    let mut at = n;
    for start in path {
        at = put(out, at, b'/');
        at = put_all(out, at, name_at(s, *start));
    }
    at
}

// The Ccy in brackets, where there is one.
fn put_ccy(out: &mut [u8], n: usize, given: Option<&[u8]>) -> usize
    ensures { Wrote out.old n (ccy_text (option_map (λ x. x.now) given.entry)) out.new result }
{
    let Some(ccy) = given else {
        return n;
    };
    let opened = put(out, n, b'[');
    let named = put_all(out, opened, ccy);
    put(out, named, b']')
}

// How many texts the element whose `<` stands at a place holds: one or none.
pub fn texts_at(s: &[u8], start: usize) -> usize
    ensures { result ≡ holds_text (text_at s.now start) }
{
    usize::from(leaf_at(s, start).is_some())
}

// The line of the element whose `<` stands at a place, with the path of these places; nothing where it holds no text.
pub fn put_line(out: &mut [u8], n: usize, s: &[u8], start: usize, path: &[usize]) -> usize
    ensures { Wrote out.old n (line_with (names_of s.now path.now (length path.now)) (ccy_at s.now start) (text_at s.now start)) out.new result }
{
    let Some(leaf) = leaf_at(s, start) else {
        return n;
    };
    let named = put_path(out, n, s, path);
    let with_ccy = put_ccy(out, named, leaf.ccy);
    let blank = put(out, with_ccy, b' ');
    let written = put_all(out, blank, leaf.text);
    put(out, written, b'\n')
}
