// A read sheet as rows: the parts of each element, read off the sheet's bytes where the element starts. Messages and the listing stand on
// rows and know nothing of trees.
// The rows stand in `specs/Rows.antt`, the places that the code gives for them in `specs/Places.antt`; that on a well-formed sheet they are
// the tree's is the theorem of `proofs/OfTree.antt`.
#![tactic(auto)]

ghost use Rattle.std.specs.Prelude.{◌≡◌, cond, ◌+◌, ◌-◌, ◌<◌, ◌^◌, ltb};
ghost use Rattle.outline.specs.Rows.{name_at};
ghost use Rattle.outline.specs.Places.{parts_of, leaf_shown, leaf_of};

use shape::byte::peek;
use sheet::{Ahead, name_bytes_end, next_at, shown_at};

// What follows a name in its opening tag: `>`, or ` Ccy="UAH">`.
const PLAIN_END: usize = 1;

const CCY_END: usize = 11;

// The capitals of a Ccy stand between these places, counted from the name's end.
const CCY_FROM: usize = 6;

const CCY_TO: usize = 9;

// Where the parts of an element stand: its name ends at `to`; its Ccy, if it has one, stands from `CCY_FROM` to `CCY_TO` after that; its
// content begins at `inside`; its text, if it has one, ends at `text`.
#[derive(Clone, Copy, Debug, PartialEq, Eq)]
pub struct Parts {
    pub to: usize,
    pub ccy: bool,
    pub inside: usize,
    pub text: Option<usize>,
}

// The name of the element whose `<` stands at a place, as that part of the sheet.
pub fn name_at(s: &[u8], start: usize) -> &[u8]
    ensures { result.now ≡ name_at s.now start }
{
    if s.len() <= start {
        return &[];
    }
    let from = start + 1;
    let to = name_bytes_end(s, from);
    &s[from..to]
}

// Where the content begins: after `>`, or after ` Ccy="UAH">`.
fn after_tag(to: usize, ccy: bool) -> usize
    requires { to < 2 ^ 63 }
    ensures { result ≡ to + cond ccy 11 1 }
{
    to + if ccy { CCY_END } else { PLAIN_END }
}

// The parts of the element whose `<` stands at a place; none where the sheet ends before its content.
pub fn parts_at(s: &[u8], start: usize) -> Option<Parts>
    ensures { result ≡ parts_of s.now start }
{
    if s.len() <= start {
        return None;
    }
    let to = name_bytes_end(s, start + 1);
    let ccy = peek(s, to) == b' ';
    let inside = after_tag(to, ccy);
    if s.len() < inside {
        return None;
    }
    let text = match next_at(s, inside) {
        Ahead::Text(end) => Some(end),
        Ahead::Element(_) | Ahead::Neither => None,
    };
    Some(Parts {
        to,
        ccy,
        inside,
        text,
    })
}

// An element that holds a text: its Ccy, where it has one, the place where its text begins, and the text.
#[derive(Clone, Copy)]
pub struct Leaf<'a> {
    pub ccy: Option<&'a [u8]>,
    pub inside: usize,
    pub text: &'a [u8],
}

// The element whose `<` stands at a place, where it holds a text.
pub fn leaf_at(s: &[u8], start: usize) -> Option<Leaf<'_>>
    ensures { leaf_shown result ≡ leaf_of s.now start }
{
    let parts = parts_at(s, start)?;
    let end = parts.text?;
    let inside = parts.inside;
    let text = shown_at(s, inside, end - inside);
    if parts.ccy {
        return Some(Leaf {
            ccy: Some(shown_at(s, parts.to + CCY_FROM, CCY_TO - CCY_FROM)),
            inside,
            text,
        });
    }
    Some(Leaf {
        ccy: None,
        inside,
        text,
    })
}

// How many names stand around an element at this depth, where the element before it has so many: those that `around_at` keeps.
pub fn names_around(depth: usize, before: usize) -> usize
    ensures { result ≡ cond (ltb (depth - 1) before) (depth - 1) before }
{
    depth.saturating_sub(1).min(before)
}
