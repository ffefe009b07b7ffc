// What is found in a sheet at the path of a field, and the parts of the sheet that the field is.
ghost use Rattle.std.specs.Prelude.{◌≡◌};
ghost use Rattle.message.specs.Message.{ccy_in, spot_in, text_in};
ghost use Rattle.outline.specs.Places.{leaf_shown};
ghost use Rattle.message.specs.Seen.{held_found, leaf_held};

use outline::{Leaf, leaf_at};

// A path is counted so often in a sheet, and the last element there starts at this place.
#[derive(Clone, Copy)]
pub struct Found<'a> {
    pub sheet: &'a [u8],
    pub count: usize,
    pub start: usize,
}

// Where a text starts and how long it is.
#[derive(Clone, Copy)]
pub struct Spot {
    pub start: usize,
    pub length: usize,
}

// Where there is no text. It is a part of the sheet too, of no bytes, and no None: the definitions `start_in` and `length_in` give 0 here.
pub const NO_SPOT: Spot = Spot {
    start: 0,
    length: 0,
};

impl<'a> Found<'a> {
    // The element, where the path stands once and it holds a text.
    pub fn leaf(self) -> Option<Leaf<'a>>
        ensures { leaf_shown result ≡ leaf_held (held_found self.entry) }
    {
        if self.count != 1 {
            return None;
        }
        leaf_at(self.sheet, self.start)
    }

    // Where the text stands.
    pub fn spot(self) -> Spot
        ensures { result ≡ spot_in (held_found self.entry) }
    {
        match self.leaf() {
            Some(leaf) => Spot {
                start: leaf.inside,
                length: leaf.text.len(),
            },
            None => NO_SPOT,
        }
    }

    // The text, as the part of the sheet.
    pub fn text(self) -> &'a [u8]
        ensures { result.now ≡ text_in (held_found self.entry) }
    {
        match self.leaf() {
            Some(leaf) => leaf.text,
            None => &[],
        }
    }

    // The Ccy, or nothing.
    pub fn ccy(self) -> &'a [u8]
        ensures { result.now ≡ ccy_in (held_found self.entry) }
    {
        match self.leaf() {
            Some(leaf) => leaf.ccy.unwrap_or(&[]),
            None => &[],
        }
    }
}
