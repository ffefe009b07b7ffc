// The calls of one seat that need no message: open, close, set, take back, read an account. Each looks for its refusals in the order of document
// 01's table, and only then changes the seat; the many of `open_seat` stand by themselves in `open_answer`. The rules stand in `specs/Calls.antt`.
// That the room and the directory are fit is asked before. `place_fits owner` stays in the clauses of `account_found`, `set_account` and
// `read_account` (docs/CONTRACTS.md): a `Listed` that has it by itself would ask more of everybody who makes one.
ghost use Rattle.std.specs.Prelude.{◌≡◌, true, ◌≤◌, length, replicate, Some};
ghost use Rattle.directory.specs.Directory.{records_most};
ghost use Rattle.directory.specs.Gathering.{records_in};
ghost use Rattle.layout.specs.Seat.{seat_long};
ghost use Rattle.seat.specs.Fit.{seat_fits};
ghost use Rattle.seat.specs.Calls.{no_ticket, pair_good, sums_good, open_answer, open_after, close_answer, close_after, account_named, account_found, place_fits, set_step, set_answer, set_after, back_answer, back_after, read_result};
ghost use Rattle.seat.specs.Words.{words_of};

use crate::fit::open_with;
use directory::{Gathered, Listed, Participant, is_owner};
use journal::{SET, SUM_MOST, append, drop_last, no_step, settings_fit};
use layout::rows::{Account, Head, Settings, Step};
use layout::{account, head, put_head};
use slip::{OPENINGS, STEPS};
use std::error::Error;
use std::fmt;

// Why a call of a seat is refused.
#[derive(Clone, Copy, Debug, PartialEq, Eq)]
pub enum Refusal {
    NoTicket,
    AlreadyOpen,
    NoOpeningLeft,
    BadNumber,
    JournalFull,
    NothingToTakeBack,
}

impl fmt::Display for Refusal {
    ghost output = { λ r. Some (words_of r) };

    fn fmt<W: fmt::Write>(&self, f: &mut fmt::Formatter<W>) -> fmt::Result {
        match self {
            Refusal::NoTicket => write!(f, "the seat is closed or has another opening number"),
            Refusal::AlreadyOpen => write!(f, "the seat is open already"),
            Refusal::NoOpeningLeft => write!(f, "the seat's last opening number is given out"),
            Refusal::BadNumber => write!(f, "a sum, an owner, an account or a limit is bad"),
            Refusal::JournalFull => write!(f, "the journal has no free place"),
            Refusal::NothingToTakeBack => write!(f, "there is no step to take back"),
        }
    }
}

impl Error for Refusal {}

// Whether a ticket's opening number is not that of the seat as it is open.
#[tactic(auto, unfolding(crate::specs::Calls::no_ticket))]
pub fn no_ticket(s: &[u64], opening: u64) -> bool
    requires { length s.now ≡ seat_long }
    ensures { result ≡ no_ticket opening s.now }
{
    let h = head(s);
    !h.is_open() || h.opening != opening
}

// Whether two sums are good for a record.
#[tactic(auto, unfolding(crate::specs::Calls::pair_good))]
fn pair_fits(p: Participant, a: u64, b: u64) -> bool
    ensures { result ≡ pair_good p a b }
{
    a <= SUM_MOST && b <= SUM_MOST && (is_owner(p.kind) || (a == 0 && b == 0))
}

// Whether there are two good sums for each record.
fn sums_good(dir: &[Participant], sums: &[u64]) -> bool
    requires { length dir.now ≤ records_most }
    ensures { result ≡ sums_good dir.now sums.now }
{
    if sums.len() != 2 * dir.len() {
        return false;
    }
    for (p, pair) in dir.iter().zip(sums.chunks_exact(2)) {
        if !pair_fits(*p, pair[0], pair[1]) {
            return false;
        }
    }
    true
}

// Makes every number zero: docs/CONTRACTS.md names it, and the centre makes a room so.
pub fn clear(s: &mut [u64])
    ensures { s.new ≡ replicate (length s.old) 0 }
{
    s.fill(0);
}

#[tactic(auto, unfolding(crate::specs::Calls::open_answer))]
fn open_answer(s: &[u64], g: Gathered, sums: &[u64]) -> Result<(), Refusal>
    requires { (length s.now ≡ seat_long) × (g.count ≤ records_most) }
    ensures { result ≡ open_answer (records_in g) sums.now s.now }
{
    let h = head(s);
    if h.is_open() {
        return Err(Refusal::AlreadyOpen);
    }
    if h.opening == OPENINGS {
        return Err(Refusal::NoOpeningLeft);
    }
    if !sums_good(g.as_slice(), sums) {
        return Err(Refusal::BadNumber);
    }
    Ok(())
}

// Opens a seat with two sums for each record. Its opening number grows by one.
#[tactic(auto, unfolding(crate::specs::Calls::open_after))]
pub fn open_seat(s: &mut [u64], g: Gathered, sums: &[u64]) -> Result<(), Refusal>
    requires { (length s.old ≡ seat_long) × (seat_fits s.old ≡ true) × (g.count ≤ records_most) }
    ensures value { result ≡ open_answer (records_in g) sums.now s.old }
    ensures s_after { s.new ≡ open_after (records_in g) sums.now s.old }
{
    open_answer(s, g, sums)?;
    let h = head(s);
    clear(s);
    open_with(s, h.opening + 1, sums);
    Ok(())
}

// Closes a seat: all zeros but for its opening number.
#[tactic(auto, unfolding(crate::specs::Calls::close_answer, crate::specs::Calls::close_after))]
pub fn close_seat(s: &mut [u64], opening: u64) -> Result<(), Refusal>
    requires { length s.old ≡ seat_long }
    ensures value { result ≡ close_answer opening s.old }
    ensures s_after { s.new ≡ close_after opening s.old }
{
    if no_ticket(s, opening) {
        return Err(Refusal::NoTicket);
    }
    let h = head(s);
    clear(s);
    put_head(
        s,
        Head {
            opening: h.opening,
            opened: 0,
            steps: 0,
        },
    );
    Ok(())
}

// Takes the last step back.
#[tactic(auto, unfolding(crate::specs::Calls::back_answer, crate::specs::Calls::back_after))]
pub fn take_back(s: &mut [u64], opening: u64) -> Result<(), Refusal>
    requires { (length s.old ≡ seat_long) × (seat_fits s.old ≡ true) }
    ensures value { result ≡ back_answer opening s.old }
    ensures s_after { s.new ≡ back_after opening s.old }
{
    if no_ticket(s, opening) {
        return Err(Refusal::NoTicket);
    }
    if head(s).steps == 0 {
        return Err(Refusal::NothingToTakeBack);
    }
    drop_last(s);
    Ok(())
}

// The account of an owner by its number in the seat, where there is one.
#[tactic(auto, unfolding(crate::specs::Calls::account_found, crate::specs::Calls::account_named))]
pub fn account_found(owner: Option<Listed>, number: u64) -> Option<u64>
    requires { place_fits owner ≡ true }
    ensures { result ≡ account_found owner number }
{
    let l = owner?;
    (is_owner(l.participant.kind) && matches!(number, 1 | 2)).then(|| 2 * l.place as u64
        + (number - 1))
}

// A set of an account.
fn set_step(account: u64, old: Settings, given: Settings) -> Step
    ensures { result ≡ set_step account old given }
{
    Step {
        kind: SET,
        account,
        old,
        given,
        ..no_step()
    }
}

// Gives an account its four settings, as one step.
#[tactic(auto, unfolding(crate::specs::Calls::set_answer, crate::specs::Calls::set_after, crate::specs::Calls::account_found))]
pub fn set_account(
    s: &mut [u64],
    opening: u64,
    owner: Option<Listed>,
    number: u64,
    given: Settings,
) -> Result<(), Refusal>
    requires { (length s.old ≡ seat_long) × (seat_fits s.old ≡ true) × (place_fits owner ≡ true) }
    ensures value { result ≡ set_answer opening owner number given s.old }
    ensures s_after { s.new ≡ set_after opening owner number given s.old }
{
    if no_ticket(s, opening) {
        return Err(Refusal::NoTicket);
    }
    let Some(i) = account_found(owner, number) else {
        return Err(Refusal::BadNumber);
    };
    if !settings_fit(given) {
        return Err(Refusal::BadNumber);
    }
    if head(s).steps == STEPS {
        return Err(Refusal::JournalFull);
    }
    let a = account(s, i as usize);
    append(s, set_step(i, a.settings, given));
    Ok(())
}

// Reads all that an account holds.
#[tactic(auto, unfolding(crate::specs::Calls::read_answer, crate::specs::Calls::read_result, crate::specs::Calls::account_found))]
pub fn read_account(
    s: &[u64],
    opening: u64,
    owner: Option<Listed>,
    number: u64,
) -> Result<Account, Refusal>
    requires { (length s.now ≡ seat_long) × (place_fits owner ≡ true) }
    ensures { result ≡ read_result opening owner number s.now }
{
    if no_ticket(s, opening) {
        return Err(Refusal::NoTicket);
    }
    let Some(i) = account_found(owner, number) else {
        return Err(Refusal::BadNumber);
    };
    Ok(account(s, i as usize))
}
