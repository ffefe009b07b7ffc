// The layout of a room: seats one after the other, and in each a head, accounts and steps. docs/LAYOUT.md has every number.
// It knows where a number stands and nothing of what it should be. The rows stand in `specs/Rows.antt`, their places in `specs/Seat.antt`.
// A seat is the lent part of the room that it is, as document 01 has it, so each function asks for that part's length.
#![tactic(auto)]

pub mod rows;

ghost use Rattle.std.specs.Prelude.{◌≡◌, ◌<◌, length};
ghost use Rattle.slip.specs.Meaning.{seats, steps};
ghost use Rattle.layout.specs.Seat.{accounts, account_from, step_from, seat_long, room_long, head_of, with_head, account_of, with_account, step_of, with_step, seat_from, seat_of};

use rows::{
    ACCOUNT_LONG, ANSWERS_AT, Account, HEAD_LONG, Head, STEP_LONG, Step, read_account, read_head,
    read_step, write_account, write_head, write_step,
};
use slip::{SEATS, STEPS};

// The places of a seat, one for each record that a directory can have, and its accounts, two for each place.
pub const PLACES: usize = 16;

pub const ACCOUNTS: usize = 2 * PLACES;

// Where the steps begin, and how many numbers a seat and a room have.
pub const STEPS_FROM: usize = HEAD_LONG + ACCOUNT_LONG * ACCOUNTS;

pub const SEAT_LONG: usize = STEPS_FROM + STEP_LONG * STEPS as usize;

pub const ROOM_LONG: usize = SEATS as usize * SEAT_LONG;

// Where an account and a step begin in a seat.
fn account_from(i: usize) -> usize
    requires { i < accounts }
    ensures { result ≡ account_from i }
{
    HEAD_LONG + ACCOUNT_LONG * i
}

fn step_from(k: usize) -> usize
    requires { k < steps }
    ensures { result ≡ step_from k }
{
    STEPS_FROM + STEP_LONG * k
}

#[tactic(auto, unfolding(crate::specs::Seat::head_of, crate::specs::Parts::part))]
pub fn head(s: &[u64]) -> Head
    requires { length s.now ≡ seat_long }
    ensures { result ≡ head_of s.now }
{
    read_head(&s[..HEAD_LONG])
}

#[tactic(auto, unfolding(crate::specs::Seat::with_head, crate::specs::Parts::put))]
pub fn put_head(s: &mut [u64], h: Head)
    requires { length s.old ≡ seat_long }
    ensures { s.new ≡ with_head s.old h }
{
    write_head(&mut s[..HEAD_LONG], h);
}

#[tactic(auto, using(crate::proofs::Parts::parts), unfolding(crate::specs::Seat::account_of))]
pub fn account(s: &[u64], i: usize) -> Account
    requires { (length s.now ≡ seat_long) × (i < accounts) }
    ensures { result ≡ account_of s.now i }
{
    let from = account_from(i);
    read_account(&s[from..from + ACCOUNT_LONG])
}

#[tactic(auto, using(crate::proofs::Parts::parts), unfolding(crate::specs::Seat::with_account))]
pub fn put_account(s: &mut [u64], i: usize, a: Account)
    requires { (length s.old ≡ seat_long) × (i < accounts) }
    ensures { s.new ≡ with_account s.old i a }
{
    let from = account_from(i);
    write_account(&mut s[from..from + ACCOUNT_LONG], a);
}

#[tactic(auto, using(crate::proofs::Parts::parts), unfolding(crate::specs::Seat::step_of))]
pub fn step(s: &[u64], k: usize) -> Step
    requires { (length s.now ≡ seat_long) × (k < steps) }
    ensures { result ≡ step_of s.now k }
{
    let from = step_from(k);
    read_step(&s[from..from + STEP_LONG])
}

// Which step a step answers, by its number, or 0: one number of the row, since all of a journal are looked at.
#[tactic(auto, using(crate::proofs::RowLaws::answered))]
pub fn step_answered(s: &[u64], k: usize) -> u64
    requires { (length s.now ≡ seat_long) × (k < steps) }
    ensures { result ≡ (step_of s.now k).answers }
{
    s[step_from(k) + ANSWERS_AT]
}

#[tactic(auto, using(crate::proofs::Parts::parts), unfolding(crate::specs::Seat::with_step))]
pub fn put_step(s: &mut [u64], k: usize, x: Step)
    requires { (length s.old ≡ seat_long) × (k < steps) }
    ensures { s.new ≡ with_step s.old k x }
{
    let from = step_from(k);
    write_step(&mut s[from..from + STEP_LONG], x);
}

// Where a seat begins in a room.
pub fn seat_from(seat: usize) -> usize
    requires { seat < seats }
    ensures { result ≡ seat_from seat }
{
    SEAT_LONG * seat
}

// The part of a room that a seat is.
#[tactic(auto, using(crate::proofs::Rooms::rooms), unfolding(crate::specs::Seat::seat_of))]
pub fn seat_in(room: &[u64], seat: usize) -> &[u64]
    requires { (length room.now ≡ room_long) × (seat < seats) }
    ensures { result.now ≡ seat_of room.now seat }
{
    let from = seat_from(seat);
    &room[from..from + SEAT_LONG]
}
