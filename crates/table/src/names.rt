// The kinds of messages by their names.
ghost use Rattle.std.specs.Prelude.{Some};
ghost use Rattle.table.specs.Names.{name_of};

use crate::Kind;
use std::fmt;

impl fmt::Display for Kind {
    ghost output = { λ k. Some (name_of k) };

    fn fmt<W: fmt::Write>(&self, f: &mut fmt::Formatter<W>) -> fmt::Result {
        f.write_str(match self {
            Kind::Pacs008 => "pacs.008",
            Kind::Camt050 => "camt.050",
            Kind::Pacs028 => "pacs.028",
            Kind::Pacs002 => "pacs.002",
        })
    }
}
