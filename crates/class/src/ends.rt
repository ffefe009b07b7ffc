// The parts of a line that a call needs.
ghost use Rattle.std.specs.Prelude.{◌≡◌, take};
ghost use Rattle.class.specs.Ends.{trimmed_of, behind_of};

use script::text::text_end;

// A text without the blanks after it.
#[tactic(auto, using(crate::proofs::Pieces::within), unfolding(crate::specs::Ends::trimmed_of))]
pub fn trimmed(s: &[u8]) -> &[u8]
    ensures { result.now ≡ trimmed_of s.now }
{
    &s[..text_end(s)]
}

// The same from a place on, empty past its end.
#[tactic(auto, unfolding(crate::specs::Ends::behind_of))]
pub fn behind(s: &[u8], from: usize) -> &[u8]
    ensures { result.now ≡ behind_of s.now from }
{
    trimmed(s).get(from..).unwrap_or(&[])
}

// The first so many of what stands in a row, or all where there are fewer.
pub fn first<T>(s: &[T], count: usize) -> &[T]
    ensures { result.now ≡ take count s.now }
{
    s.get(..count).unwrap_or(s)
}
