// Whether a seat is fit: it is worked out anew from its opening sums and its journal, and compared. The rules stand in `specs/Fit.antt`.
ghost use Rattle.std.specs.Prelude.{◌≡◌, true, ℕ, ◌≤◌, leb, length, replicate};
ghost use Rattle.shape.specs.Bytes.{every};
ghost use Rattle.slip.specs.Meaning.{steps};
ghost use Rattle.layout.specs.Seat.{accounts, seat_long};
ghost use Rattle.journal.specs.Steps.{sum_most};
ghost use Rattle.journal.specs.Working.{steps_from, worked};
ghost use Rattle.seat.specs.Fit.{open_account, open_seat, sums_of, comes_out, open_fits, closed_fits, seat_fits, room_fits};

use crate::settings::opening_settings;
use journal::{SUM_MOST, append, is_possible};
use layout::rows::{Account, Head};
use layout::{ACCOUNTS, ROOM_LONG, SEAT_LONG, account, head, put_account, put_head, seat_in, step};
use slip::{OPENINGS, SEATS, STEPS};

// The opening sums that stand in a seat. Tried with `out.iter_mut().enumerate()`: the proof did not close.
fn sums(s: &[u64]) -> [u64; ACCOUNTS]
    requires { length s.now ≡ seat_long }
    ensures { result ≡ sums_of s.now }
{
    let mut out = [0u64; ACCOUNTS];
    for i in 0..ACCOUNTS {
        out[i] = account(s, i).opening;
    }
    out
}

// Whether each sum is one.
pub fn sums_fit(s: &[u64]) -> bool
    ensures { result ≡ every (λ (sum : ℕ). leb sum sum_most) s.now }
{
    s.iter().all(|sum| *sum <= SUM_MOST)
}

// An account that was just opened.
fn opened(sum: u64) -> Account
    ensures { result ≡ open_account sum }
{
    Account {
        opening: sum,
        balance: sum,
        turnover: 0,
        settings: opening_settings(sum),
    }
}

// Opens a seat that is all zeros.
pub fn open_with(s: &mut [u64], opening: u64, sums: &[u64])
    requires { (s.old ≡ replicate seat_long 0) × (length sums.now ≤ accounts) }
    ensures { s.new ≡ open_seat opening sums.now }
{
    put_head(
        s,
        Head {
            opening,
            opened: 1,
            steps: 0,
        },
    );
    for (i, sum) in sums.iter().enumerate() {
        put_account(s, i, opened(*sum));
    }
}

// Whether the journal, worked forward on a newly opened seat, gives the numbers that stand there.
fn works_out(s: &[u64], opening: u64, count: usize, given: &[u64]) -> bool
    requires { (length s.now ≡ seat_long) × (count ≤ steps) × (length given.now ≤ accounts) × (every (λ (sum : ℕ). leb sum sum_most) given.now ≡ true) }
    ensures { result ≡ comes_out s.now (worked (steps_from s.now 0 count) (open_seat opening given.now)) }
{
    let mut t = [0u64; SEAT_LONG];
    open_with(&mut t, opening, given);
    for k in 0..count {
        let x = step(s, k);
        if !is_possible(&t, x) {
            return false;
        }
        append(&mut t, x);
    }
    t.as_slice() == s
}

// Whether an open seat is fit. Tried with `matches!(h.opening, 1..=OPENINGS)`: the proof did not close.
#[tactic(auto, unfolding(crate::specs::Fit::open_fits))]
fn open_fits(s: &[u64]) -> bool
    requires { length s.now ≡ seat_long }
    ensures { result ≡ open_fits s.now }
{
    let h = head(s);
    if h.opening < 1 || OPENINGS < h.opening || STEPS < h.steps {
        return false;
    }
    let given = sums(s);
    sums_fit(&given) && works_out(s, h.opening, h.steps as usize, &given)
}

// Whether a closed seat is fit: all zeros but for its opening count.
#[tactic(auto, unfolding(crate::specs::Fit::closed_fits))]
fn closed_fits(s: &[u64]) -> bool
    requires { length s.now ≡ seat_long }
    ensures { result ≡ closed_fits s.now }
{
    s[0] <= OPENINGS && s[1..].iter().all(|number| *number == 0)
}

// Whether a seat is fit.
#[tactic(auto, unfolding(crate::specs::Fit::seat_fits))]
pub fn seat_fits(s: &[u64]) -> bool
    ensures { result ≡ seat_fits s.now }
{
    if s.len() != SEAT_LONG {
        return false;
    }
    if head(s).opened == 0 {
        closed_fits(s)
    } else {
        open_fits(s)
    }
}

// Whether a room is fit: its length is right and each of its seats is fit. The loop goes by number, since `seat_in` alone says where a seat stands,
// and asks for one that a room has, as `all` over the numbers could not tell it.
#[tactic(auto, unfolding(crate::specs::Fit::room_fits))]
pub fn room_fits(r: &[u64]) -> bool
    ensures { result ≡ room_fits r.now }
{
    if r.len() != ROOM_LONG {
        return false;
    }
    for k in 0..SEATS as usize {
        if !seat_fits(seat_in(r, k)) {
            return false;
        }
    }
    true
}
