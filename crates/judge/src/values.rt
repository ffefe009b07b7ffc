// Two values that may not be given, compared. The rules stand in `specs/Values.antt`.
ghost use Rattle.std.specs.Prelude.{◌≡◌};
ghost use Rattle.judge.specs.Values.{agree};

// Whether both are given and are the same.
#[tactic(auto, unfolding(crate::specs::Values::agree))]
pub fn agree(v: Option<u64>, w: Option<u64>) -> bool
    ensures { result ≡ agree v w }
{
    v.is_some() && v == w
}
