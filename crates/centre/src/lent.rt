// The calls that take a directory, as a lent slice of participants. Three functions go through the slice (`gather` for its records, `find` for
// an owner, `look_up` for what a message asks), and the call that is given what they found does the rest. The definitions are the same.
ghost use Rattle.std.specs.Prelude.{◌≡◌};
ghost use Rattle.centre.specs.Answers.{told};
ghost use Rattle.centre.specs.Calls.{open_told, open_after, set_told, set_after, read_told};
ghost use Rattle.centre.specs.Submit.{submit_told, submit_after, submit_slip};

use crate::calls::{open_among, read_found, set_found};
use crate::submit::{received_in, submit_found};
use crate::{Done, Refusal, Ticket};
use directory::{Participant, find, fits, gather};
use judge::{asked_in, look_up};
use seat::Wish;

// Opens a seat with two sums for each record of the directory.
pub fn open_seat(
    room: &mut [u64],
    dir: &[Participant],
    seat: u64,
    sums: &[u64],
) -> Result<Done, Refusal>
    ensures result_value { told result ≡ open_told dir.now seat sums.now room.old }
    ensures room_after { room.new ≡ open_after dir.now seat sums.now room.old }
{
    open_among(room, gather(dir), seat, sums)
}

// Sets an account's blocks and limits, as one step.
pub fn set_account(
    room: &mut [u64],
    dir: &[Participant],
    ticket: Ticket,
    owner: u64,
    number: u64,
    wish: Wish,
) -> Result<Done, Refusal>
    ensures result_value { told result ≡ set_told dir.now ticket owner number wish room.old }
    ensures room_after { room.new ≡ set_after dir.now ticket owner number wish room.old }
{
    let fit = fits(gather(dir));
    set_found(room, fit, find(dir, owner), ticket, number, wish)
}

// Submits a sheet for a sender on a date.
pub fn submit_sheet(
    room: &mut [u64],
    dir: &[Participant],
    ticket: Ticket,
    sender: u64,
    today: u64,
    sheet: &[u8],
    slip: &mut [u8],
) -> Result<Done, Refusal>
    ensures result_value { told result ≡ submit_told dir.now ticket sender today sheet.now slip.old room.old }
    ensures room_after { room.new ≡ submit_after dir.now ticket sender today sheet.now slip.old room.old }
    ensures slip_after { slip.new ≡ submit_slip dir.now ticket sender today sheet.now slip.old room.old }
{
    let received = received_in(sheet);
    let fit = fits(gather(dir));
    let looked = look_up(dir, sender, asked_in(received));
    submit_found(room, fit, looked, ticket, sender, today, received, slip)
}

// Reads all that an account holds.
pub fn read_account(
    room: &[u64],
    dir: &[Participant],
    ticket: Ticket,
    owner: u64,
    number: u64,
) -> Result<Done, Refusal>
    ensures { told result ≡ read_told dir.now ticket owner number room.now }
{
    let fit = fits(gather(dir));
    read_found(room, fit, find(dir, owner), ticket, number)
}
