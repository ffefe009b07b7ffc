// An element with all that it holds.
ghost use Rattle.std.specs.Prelude.{◌≡◌};
ghost use Rattle.sheet.specs.Element.{may_hold, ElementRoom, ElementRead};

use crate::parts::{Refused, closing, leaf, opening_tag};
use crate::{DEPTH_MOST, ELEMENT_MOST};
use shape::byte::{is_text, peek};

// An element that was read: the place after it, and how many elements were begun in all.
#[derive(Clone, Copy)]
pub struct Came {
    pub place: usize,
    pub count: usize,
}

// Whether a child may begin with this byte, right after an opening tag: with a level left below, and room for an element more.
fn may_hold(b: u8, ccy: bool, left: usize, count: usize) -> bool
    ensures { result ≡ may_hold b ccy left count }
{
    (b == b'<') & !ccy & (1 < left) & (count < ELEMENT_MOST)
}

// An element from after its `<`, with so many levels left, its own among them. It calls itself on its children, with a level less.
pub fn element(
    s: &[u8],
    at: usize,
    left: usize,
    count: usize,
    starts: &mut [usize; ELEMENT_MOST],
    depths: &mut [usize; ELEMENT_MOST],
) -> Result<Came, Refused>
    requires { ElementRoom s.now at left count starts.old depths.old }
    ensures { ElementRead s.now at left count starts.old depths.old result starts.new depths.new }
{
    let tag = opening_tag(s, at)?;
    starts[count] = at - 1;
    depths[count] = DEPTH_MOST + 1 - left;
    // The invariant of the loop below speaks of this name.
    let to = tag.to;
    let mut seen = count + 1;
    let b = peek(s, tag.place);
    if is_text(b) {
        let place = leaf(s, tag.place, at, to)?;
        return Ok(Came { place, count: seen });
    }
    if !may_hold(b, tag.ccy, left, seen) {
        return Err(Refused { place: tag.place });
    }
    let mut i = tag.place + 1;
    loop {
        let child = element(s, i, left - 1, seen, starts, depths)?;
        seen = child.count;
        if peek(s, child.place) != b'<' {
            return Err(Refused { place: child.place });
        }
        i = child.place + 1;
        if peek(s, i) == b'/' {
            let place = closing(s, i + 1, at, to)?;
            return Ok(Came { place, count: seen });
        }
        if seen == ELEMENT_MOST {
            return Err(Refused { place: i });
        }
    }
}
