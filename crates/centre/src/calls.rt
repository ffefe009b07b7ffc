// The calls of a room that need no message. Each tests the room, then the directory, then the seat; what is left is the seat's own call. The
// tests stand in each call, so that its refusals are read there in the order in which the document has them.
ghost use Rattle.std.specs.Prelude.{◌≡◌, ◌<◌, true};
ghost use Rattle.slip.specs.Meaning.{seats};
ghost use Rattle.directory.specs.Gathering.{directory_in};
ghost use Rattle.seat.specs.Calls.{place_fits};
ghost use Rattle.centre.specs.Answers.{told};
ghost use Rattle.centre.specs.Calls.{seat_place, seat_range, lay_told, lay_after, open_told, open_after, close_told, close_after, set_by, set_left, set_told, set_after, back_told, back_after, read_by, read_told};

use crate::{Done, Refusal, Ticket};
use directory::{Gathered, Listed, find_in, fits};
use layout::{ROOM_LONG, SEAT_LONG, head, seat_from, seat_in};
use seat::{Wish, clear, open_seat, read_account, room_fits, set_account, settings_of};
use slip::SEATS;
use std::ops::Range;

// Lays out a room: everything is zero.
pub fn lay_out(room: &mut [u64]) -> Result<Done, Refusal>
    ensures result_value { told result ≡ lay_told room.old }
    ensures room_after { room.new ≡ lay_after room.old }
{
    if room.len() != ROOM_LONG {
        return Err(Refusal::RoomUnfit);
    }
    clear(room);
    Ok(Done::Plain)
}

// Where a seat stands in a room.
pub(crate) fn seat_place(seat: u64) -> Range<usize>
    requires { seat < seats }
    ensures { result ≡ seat_place seat }
{
    let from = seat_from(seat as usize);
    from..from + SEAT_LONG
}

// The same of any number, or refusal 3 where a room has no such seat.
#[tactic(auto, unfolding(crate::specs::Calls::no_seat))]
fn seat_range(seat: u64) -> Result<Range<usize>, Refusal>
    ensures { result ≡ seat_range seat }
{
    if SEATS <= seat {
        return Err(Refusal::NoTicket);
    }
    Ok(seat_place(seat))
}

// Opens a seat with two sums for each record of the directory.
pub fn open_among(room: &mut [u64], g: Gathered, seat: u64, sums: &[u64]) -> Result<Done, Refusal>
    ensures result_value { told result ≡ open_told (directory_in g) seat sums.now room.old }
    ensures room_after { room.new ≡ open_after (directory_in g) seat sums.now room.old }
{
    if !room_fits(room) {
        return Err(Refusal::RoomUnfit);
    }
    if !fits(g) {
        return Err(Refusal::DirectoryUnfit);
    }
    let place = seat_range(seat)?;
    open_seat(&mut room[place], g, sums)?;
    Ok(Done::Opened(head(seat_in(room, seat as usize)).opening))
}

// Closes a seat. It and `take_back` differ in the call of the seat's: one function of that call would be no shorter than the two.
pub fn close_seat(room: &mut [u64], ticket: Ticket) -> Result<Done, Refusal>
    ensures result_value { told result ≡ close_told ticket room.old }
    ensures room_after { room.new ≡ close_after ticket room.old }
{
    if !room_fits(room) {
        return Err(Refusal::RoomUnfit);
    }
    let place = seat_range(ticket.seat)?;
    seat::close_seat(&mut room[place], ticket.opening)?;
    Ok(Done::Plain)
}

// Sets an account's blocks and limits, as one step, by what was found of its owner in a directory that is fit or not. The two stand apart,
// because `set_by` is of both.
pub fn set_found(
    room: &mut [u64],
    fit: bool,
    owner: Option<Listed>,
    ticket: Ticket,
    number: u64,
    wish: Wish,
) -> Result<Done, Refusal>
    requires { fit ≡ true → place_fits owner ≡ true }
    ensures result_value { told result ≡ set_by fit owner ticket number wish room.old }
    ensures room_after { room.new ≡ set_left fit owner ticket number wish room.old }
{
    if !room_fits(room) {
        return Err(Refusal::RoomUnfit);
    }
    if !fit {
        return Err(Refusal::DirectoryUnfit);
    }
    let place = seat_range(ticket.seat)?;
    set_account(
        &mut room[place],
        ticket.opening,
        owner,
        number,
        settings_of(wish),
    )?;
    Ok(Done::Plain)
}

// The same among gathered records.
pub fn set_among(
    room: &mut [u64],
    g: Gathered,
    ticket: Ticket,
    owner: u64,
    number: u64,
    wish: Wish,
) -> Result<Done, Refusal>
    ensures result_value { told result ≡ set_told (directory_in g) ticket owner number wish room.old }
    ensures room_after { room.new ≡ set_after (directory_in g) ticket owner number wish room.old }
{
    set_found(room, fits(g), find_in(g, owner), ticket, number, wish)
}

// Takes back the last step.
pub fn take_back(room: &mut [u64], ticket: Ticket) -> Result<Done, Refusal>
    ensures result_value { told result ≡ back_told ticket room.old }
    ensures room_after { room.new ≡ back_after ticket room.old }
{
    if !room_fits(room) {
        return Err(Refusal::RoomUnfit);
    }
    let place = seat_range(ticket.seat)?;
    seat::take_back(&mut room[place], ticket.opening)?;
    Ok(Done::Plain)
}

// Reads all that an account holds, by what was found of its owner in a directory that is fit or not. The two stand apart, because `read_by` is
// of both.
pub fn read_found(
    room: &[u64],
    fit: bool,
    owner: Option<Listed>,
    ticket: Ticket,
    number: u64,
) -> Result<Done, Refusal>
    requires { fit ≡ true → place_fits owner ≡ true }
    ensures { told result ≡ read_by fit owner ticket number room.now }
{
    if !room_fits(room) {
        return Err(Refusal::RoomUnfit);
    }
    if !fit {
        return Err(Refusal::DirectoryUnfit);
    }
    let place = seat_range(ticket.seat)?;
    let account = read_account(&room[place], ticket.opening, owner, number)?;
    Ok(Done::Holds(account))
}

// The same among gathered records.
pub fn read_among(
    room: &[u64],
    g: Gathered,
    ticket: Ticket,
    owner: u64,
    number: u64,
) -> Result<Done, Refusal>
    ensures { told result ≡ read_told (directory_in g) ticket owner number room.now }
{
    read_found(room, fits(g), find_in(g, owner), ticket, number)
}
