// Places in a text: after blanks, after a word, at a line feed.
ghost use Rattle.std.specs.Prelude.{◌≡◌, Bool, ℕ, ◌+◌, ◌<◌, drop};
ghost use Rattle.script.specs.Places.{is_blank, run, skip_blanks, word_end, found, text_end};

#[tactic(auto, unfolding(crate::specs::Places::is_blank))]
pub fn is_blank(b: u8) -> bool
    ensures { result ≡ is_blank b }
{
    b <= b' '
}

// Where the bytes end that pass a test, from a place on.
fn run_end<F: Fn(u8) -> bool>(s: &[u8], from: usize, passes: F) -> usize
    requires { F.IsAlwaysCallable passes }
    ensures { (f : ℕ → Bool) → ((b : ℕ) (r : Bool) → b < 256 → F.post passes b r → r ≡ f b) → result ≡ from + run f (drop from s.now) }
{
    // Tried with `position`: the proof did not close.
    for i in from..s.len() {
        if !passes(s[i]) {
            return i;
        }
    }
    from.max(s.len())
}

// The first place from there on that holds no blank, or the end.
pub fn skip_blanks(s: &[u8], from: usize) -> usize
    ensures { result ≡ skip_blanks s.now from }
{
    run_end(s, from, is_blank)
}

// The first place from there on that holds a blank, or the end.
pub fn word_end(s: &[u8], from: usize) -> usize
    ensures { result ≡ word_end s.now from }
{
    run_end(s, from, |b| !is_blank(b))
}

// The first place from there on that holds this byte, or the end.
pub fn find(s: &[u8], from: usize, b: u8) -> usize
    ensures { result ≡ found s.now from b }
{
    run_end(s, from, |other| other != b)
}

// Where a text ends without the blanks after it.
#[tactic(auto, using(crate::proofs::Runs::ends))]
pub fn text_end(s: &[u8]) -> usize
    ensures { result ≡ text_end s.now }
{
    // Tried with `rposition`: the proof did not close.
    for i in (0..s.len()).rev() {
        if !is_blank(s[i]) {
            return i + 1;
        }
    }
    0
}
