// Whether a field is good: document 01, "Fields" and its shapes, and request 9 of document 02.
ghost use Rattle.std.specs.Prelude.{◌≡◌};
ghost use Rattle.std.specs.Option.{option_map};
ghost use Rattle.message.specs.Good.{has_shape, ccy_fits, is_good};
ghost use Rattle.message.specs.Seen.{held_found};

use crate::found::Found;
use crate::kinds::{Ccy, Entry, Shape};
use shape::date::time_of;
use shape::field::{code_of, is_amount, is_iban, is_identifier, names_pacs_008};
use shape::pattern::matches;
use shape::stored::is_uetr;

// Whether the characters of a text have a shape. A text of one reading is a shape too, and is compared as shapes are.
#[tactic(auto, unfolding(crate::specs::Good::has_shape, shape::specs::Patterns::sep_pattern, shape::specs::Patterns::asp_pattern, shape::specs::Patterns::account_pattern))]
fn has_shape(shape: Shape, s: &[u8]) -> bool
    ensures { result ≡ has_shape shape s.now }
{
    match shape {
        Shape::Identifier => is_identifier(s),
        Shape::Time => time_of(s).is_some(),
        Shape::Code => code_of(s).is_some(),
        Shape::System => matches(b"SEP", s) | matches(b"ASP", s),
        Shape::Uetr => is_uetr(s),
        Shape::Amount => is_amount(s),
        Shape::Iban => is_iban(s),
        Shape::Account => matches(b"#######^^^", s),
        Shape::Original => names_pacs_008(s),
        Shape::GroupStatus => matches(b"ACCP", s) | matches(b"RJCT", s),
        Shape::TransactionStatus => matches(b"RJCT", s),
    }
}

// Whether a Ccy is wanted and given, or neither.
#[tactic(auto, unfolding(crate::specs::Good::ccy_fits))]
fn ccy_fits(wanted: Ccy, given: Option<&[u8]>) -> bool
    ensures { result ≡ ccy_fits wanted (option_map (λ x. x.now) given.entry) }
{
    match (wanted, given) {
        (Ccy::Absent, None) | (Ccy::Any, Some(_)) => true,
        (Ccy::Absent, Some(_)) | (Ccy::Any | Ccy::Hryvnia, None) => false,
        (Ccy::Hryvnia, Some(ccy)) => matches(b"UAH", ccy),
    }
}

// Whether a field is good of which this is found.
pub fn is_good(e: Entry, found: Found<'_>) -> bool
    ensures { result ≡ is_good e.optional e.shape e.ccy (held_found found.entry) }
{
    if found.count == 0 {
        return e.optional;
    }
    match found.leaf() {
        Some(leaf) => ccy_fits(e.ccy, leaf.ccy) & has_shape(e.shape, leaf.text),
        None => false,
    }
}
