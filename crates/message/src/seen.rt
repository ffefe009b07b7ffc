// What a survey shows of a sheet whose kind is known: which field is bad, and where the texts of the fields stand.
ghost use Rattle.std.specs.Prelude.{◌≡◌, map, ◌<◌, get_or};
ghost use Rattle.paths.specs.Tree.{nodes};
ghost use Rattle.table.specs.declared.Kind.TheVariants.{Pacs002};
ghost use Rattle.shape.specs.Fields.{currency_of};
ghost use Rattle.message.specs.Fields.{numbers_of};
ghost use Rattle.message.specs.Held.{missing};
ghost use Rattle.message.specs.Good.{goes_with, lowest_bad};
ghost use Rattle.message.specs.Message.{ccy_in, spot_in, numbered};
ghost use Rattle.message.specs.Received.{by_number};
ghost use Rattle.message.specs.Seen.{held_at, held_found, held_by, bad_number};

use crate::fit::is_good;
use crate::found::{Found, NO_SPOT, Spot};
use crate::kinds::{Entry, FIELDS_MOST, fields_of, numbers_of};
use paths::NODES;
use shape::field::currency_of;
use shape::pattern::matches;
use table::Kind;

// A sheet, its kind, and for each node of the tree of paths how often it stands in the sheet and where it starts the last time.
#[derive(Clone, Copy)]
pub struct Seen<'a> {
    pub sheet: &'a [u8],
    pub kind: Kind,
    pub counts: &'a [usize; NODES],
    pub starts: &'a [usize; NODES],
}

impl<'a> Seen<'a> {
    #[tactic(auto, unfolding(crate::specs::Seen::held_at))]
    fn nothing(self) -> Found<'a>
        ensures { held_found result ≡ missing }
    {
        Found {
            sheet: self.sheet,
            count: 0,
            start: 0,
        }
    }

    // What is found at the path of a field.
    fn at(self, e: Entry) -> Found<'a>
        requires { e.node < nodes }
        ensures { held_found result ≡ held_at self.entry.sheet.now (get_or self.entry.counts.now e.node 0) (get_or self.entry.starts.now e.node 0) }
    {
        Found {
            sheet: self.sheet,
            count: self.counts[e.node],
            start: self.starts[e.node],
        }
    }

    // What is found at the path of the field with a number; nothing where the kind has no such field. Two tests: tried, the proof of one chain
    // by `checked_sub` and `and_then` does not close, since its closure lends an entry of the table.
    fn numbered(self, number: usize) -> Found<'a>
        ensures { held_found result ≡ numbered (held_by self.entry) number }
    {
        if number == 0 {
            return self.nothing();
        }
        match fields_of(self.kind).get(number - 1) {
            Some(e) => self.at(*e),
            None => self.nothing(),
        }
    }

    // Whether a field of a pacs.002 goes with the others: a TxSts that stands does not go with the GrpSts ACCP, which is compared as shapes are.
    fn goes_with_group(self, number: usize) -> bool
        ensures { result ≡ goes_with Pacs002 number (held_by self.entry) }
    {
        let numbers = numbers_of(Kind::Pacs002);
        if number != numbers.transaction {
            return true;
        }
        let given = self.numbered(number).count != 0;
        !(given & matches(b"ACCP", self.numbered(numbers.group).text()))
    }

    // Whether a field goes with the others of its kind, by its number. Only a pacs.002 has a rule between two fields.
    #[tactic(auto, unfolding(crate::specs::Good::goes_with))]
    fn goes_with(self, number: usize) -> bool
        ensures { result ≡ goes_with self.entry.kind number (held_by self.entry) }
    {
        self.kind != Kind::Pacs002 || self.goes_with_group(number)
    }

    // The lowest number of a bad field, where there is one.
    pub fn first_bad(self) -> Option<usize>
        ensures { result ≡ bad_number (lowest_bad self.entry.kind (held_by self.entry)) }
    {
        let fields = fields_of(self.kind);
        for (k, e) in fields.iter().enumerate() {
            let number = k + 1;
            // With `&` the test is one equation in the proof, with `&&` it forks.
            let good = is_good(*e, self.at(*e));
            if !(good & self.goes_with(number)) {
                return Some(number);
            }
        }
        None
    }

    // Where the text of each field stands, by its number.
    pub fn spots(self) -> [Spot; FIELDS_MOST + 1]
        ensures { result ≡ by_number (map spot_in (held_by self.entry)) }
    {
        let fields = fields_of(self.kind);
        let mut spots = [NO_SPOT; FIELDS_MOST + 1];
        for (k, e) in fields.iter().enumerate() {
            spots[k + 1] = self.at(*e).spot();
        }
        spots
    }

    // The currency of the amount, where the kind has one.
    pub fn currency(self) -> Option<u64>
        ensures { result ≡ currency_of (ccy_in (numbered (held_by self.entry) (numbers_of self.entry.kind).amount)) }
    {
        let amount = self.numbered(numbers_of(self.kind).amount);
        currency_of(amount.ccy())
    }
}
