// A small lesson in one seat of a room: open, set, record, take back, close, open. After each call it prints the answer's number, the
// seat's head and what the four accounts of two owners hold: opening sum, balance, turnover, blocks, LTK, LPO.
// The program only plays and prints; what each call does is proved in `seat`, what a step does in `journal`.
#![tactic(auto)]

ghost use Rattle.std.specs.Prelude.{◌≤◌, ◌≡◌, true, length};
ghost use Rattle.directory.specs.Directory.{records_most};
ghost use Rattle.layout.specs.Seat.{seat_long};
ghost use Rattle.seat.specs.Calls.{place_fits};
ghost use Rattle.seat.specs.Fit.{seat_fits};

use directory::{Gathered, Kind, Listed, Participant, no_records};
use journal::{append, is_possible, no_step};
use layout::rows::{Account, Step};
use layout::{ROOM_LONG, SEAT_LONG, account, head, seat_from};
use seat::{
    Refusal, Wish, close_seat, open_seat, room_fits, seat_fits, set_account, settings_of, take_back,
};
use shape::stored::{Identifier, Uetr, identifier_of, uetr_of};
use slip::{ACCC, CAMT_050, STEPS};
use std::io;

// The code of the first of the two owners.
const FIRST_OWNER: u64 = 300001;

// The seat in which the lesson is played.
const LESSON_SEAT: usize = 3;

// How many accounts two owners have.
const ACCOUNTS_SHOWN: usize = 4;

// The number of an answer in the table of refusals.
fn number_of(answer: Result<(), Refusal>) -> u64 {
    match answer {
        Ok(()) => 0,
        Err(refusal) => centre::Refusal::from(refusal).number(),
    }
}

// The seat's head and the accounts of the first two places.
fn show(rt: &impl Print, s: &[u64]) -> io::Result<()> {
    if s.len() != SEAT_LONG {
        return Ok(());
    }
    let h = head(s);
    println!(rt; " {} {} {}", h.opening, h.opened, h.steps)?;
    for i in 0..ACCOUNTS_SHOWN {
        show_account(rt, account(s, i))?;
    }
    Ok(())
}

// An account's line, set in by one blank more than the head's.
fn show_account(rt: &impl Print, a: Account) -> io::Result<()> {
    let settings = a.settings;
    print!(rt; "  {} {} {}", a.opening, a.balance, a.turnover)?;
    println!(rt;
        " {} {} {} {}",
        settings.out, settings.into, settings.ltk, settings.lpo
    )
}

fn tell(rt: &impl Print, call: &[u8], answer: Result<(), Refusal>) -> io::Result<()> {
    rt.write_all(call)?;
    print!(rt; " {}", number_of(answer))
}

fn owner(code: u64) -> Participant {
    Participant {
        code,
        instant: true,
        kind: Kind::Owner,
    }
}

// Two owners.
#[tactic(auto, unfolding(directory::specs::Gathering::added))]
fn class() -> Gathered
    ensures { result.count ≤ records_most }
{
    no_records()
        .with(owner(FIRST_OWNER))
        .with(owner(FIRST_OWNER + 1))
}

// Makes a call in a fit seat, and shows its answer and the seat after it.
fn play<F: FnOnce(&mut [u64]) -> Result<(), Refusal>>(
    rt: &impl Print,
    s: &mut [u64],
    name: &[u8],
    call: F,
) -> io::Result<()>
    requires { (seat : _) → length seat.now ≡ seat_long → seat_fits seat.now ≡ true → F.pre call seat }
{
    if !seat_fits(s) {
        return Ok(());
    }
    tell(rt, name, call(s))?;
    show(rt, s)
}

// The record of the first owner.
fn first_owner() -> Option<Listed>
    ensures { place_fits result ≡ true }
{
    Some(Listed {
        place: 0,
        participant: owner(FIRST_OWNER),
    })
}

// A camt.050 of the first owner that was carried out, from its account 1 to its account 2.
fn transfer(id: Identifier, uetr: Uetr, amount: u64) -> Step {
    Step {
        kind: CAMT_050,
        status: ACCC,
        check: 0,
        sender: FIRST_OWNER,
        id,
        uetr,
        created: 20240301123456,
        credit: 1,
        amount,
        ..no_step()
    }
}

// Records a step where it is possible.
fn play_step(rt: &impl Print, s: &mut [u64], x: Step) -> io::Result<()> {
    if !seat_fits(s) {
        return Ok(());
    }
    let h = head(s);
    if !h.is_open() || STEPS <= h.steps {
        return Ok(());
    }
    if !is_possible(s, x) {
        return println!(rt; "record not possible");
    }
    append(s, x);
    print!(rt; "record")?;
    show(rt, s)
}

// The lesson itself, in a seat's part of the room.
fn in_seat(rt: &impl Print, s: &mut [u64]) -> io::Result<()> {
    let id = identifier_of(b"3000012024030100000001");
    let uetr = uetr_of(b"eb6305c9-1f7f-49de-aed0-16487c27b42d");
    let limits = settings_of(Wish {
        out: false,
        into: true,
        ltk: 10000,
        lpo: Some(0),
    });
    play(
        rt,
        s,
        b"open",
        |s| open_seat(s, class(), &[50000, 10000, 0]),
    )?;
    play(
        rt,
        s,
        b"open",
        |s| open_seat(s, class(), &[50000, 10000, 0, 0]),
    )?;
    play(
        rt,
        s,
        b"set",
        |s| set_account(s, 1, first_owner(), 1, limits),
    )?;
    play(
        rt,
        s,
        b"set",
        |s| set_account(s, 1, first_owner(), 3, limits),
    )?;
    play_step(rt, s, transfer(id, uetr, 50000))?;
    play_step(rt, s, transfer(id, uetr, 1))?;
    play(rt, s, b"back", |s| take_back(s, 1))?;
    play(rt, s, b"back", |s| take_back(s, 2))?;
    play(rt, s, b"back", |s| take_back(s, 1))?;
    play(rt, s, b"back", |s| take_back(s, 1))?;
    play(rt, s, b"close", |s| close_seat(s, 1))?;
    play(rt, s, b"close", |s| close_seat(s, 1))?;
    play(rt, s, b"open", |s| open_seat(s, class(), &[0, 0, 7, 8]))
}

fn tell_fitness(rt: &impl Print, room: &[u64]) -> io::Result<()> {
    let fitness = if room_fits(room) { "fit" } else { "unfit" };
    println!(rt; "room {fitness}")
}

// Plays in a seat of a room that was laid out, and looks at the whole room before and after.
fn lesson(rt: &impl Print, room: &mut [u64]) -> io::Result<()> {
    if room.len() != ROOM_LONG {
        return Ok(());
    }
    tell_fitness(rt, room)?;
    let from = seat_from(LESSON_SEAT);
    let to = from + SEAT_LONG;
    in_seat(rt, &mut room[from..to])?;
    tell_fitness(rt, room)
}

fn main(rt: HostRuntime) -> io::Result<()> {
    let mut room = [0u64; ROOM_LONG];
    lesson(&rt, &mut room)
}
