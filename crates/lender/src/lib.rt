// Lends a directory of one's own. The centre's calls that need a directory take it as a lent slice of records; a program that has one by
// value, as it was gathered, lends here the records that are in it, for one call. Each call says what the centre's says of that
// directory.
// How many records are lent stands in `specs/Lending.antt`: of a directory with more than there are places none, which is as unfit.
// Nothing is decided here: the refusals and their order are the centre's.
#![tactic(auto)]

ghost use Rattle.std.specs.Prelude.{◌≡◌};
ghost use Rattle.directory.specs.Gathering.{directory_in};
ghost use Rattle.centre.specs.Answers.{told};
ghost use Rattle.centre.specs.Calls.{open_told, open_after, set_told, set_after, read_told};
ghost use Rattle.centre.specs.Submit.{submit_told, submit_after, submit_slip};
ghost use Rattle.lender.specs.Lending.{lent_in};

use centre::{Done, Refusal, Ticket, open_seat, read_account, set_account, submit_sheet};
use directory::{Gathered, Participant};
use seat::Wish;

// The records of a gathered directory that are lent.
fn lent(g: &Gathered) -> &[Participant]
    ensures { result.now ≡ lent_in g.now }
{
    g.records.get(..g.count).unwrap_or(&[])
}

// Opens a seat with two sums for each record of the directory.
pub fn open_with(room: &mut [u64], g: Gathered, seat: u64, sums: &[u64]) -> Result<Done, Refusal>
    ensures result_value { told result ≡ open_told (directory_in g) seat sums.now room.old }
    ensures room_after { room.new ≡ open_after (directory_in g) seat sums.now room.old }
{
    open_seat(room, lent(&g), seat, sums)
}

// Sets an account's blocks and limits, as one step.
pub fn set_with(
    room: &mut [u64],
    g: Gathered,
    ticket: Ticket,
    owner: u64,
    number: u64,
    wish: Wish,
) -> Result<Done, Refusal>
    ensures result_value { told result ≡ set_told (directory_in g) ticket owner number wish room.old }
    ensures room_after { room.new ≡ set_after (directory_in g) ticket owner number wish room.old }
{
    set_account(room, lent(&g), ticket, owner, number, wish)
}

// Submits a sheet for a sender on a date.
pub fn submit_with(
    room: &mut [u64],
    g: Gathered,
    ticket: Ticket,
    sender: u64,
    today: u64,
    sheet: &[u8],
    slip: &mut [u8],
) -> Result<Done, Refusal>
    ensures result_value { told result ≡ submit_told (directory_in g) ticket sender today sheet.now slip.old room.old }
    ensures room_after { room.new ≡ submit_after (directory_in g) ticket sender today sheet.now slip.old room.old }
    ensures slip_after { slip.new ≡ submit_slip (directory_in g) ticket sender today sheet.now slip.old room.old }
{
    submit_sheet(room, lent(&g), ticket, sender, today, sheet, slip)
}

// Reads all that an account holds.
pub fn read_with(
    room: &[u64],
    g: Gathered,
    ticket: Ticket,
    owner: u64,
    number: u64,
) -> Result<Done, Refusal>
    ensures { told result ≡ read_told (directory_in g) ticket owner number room.now }
{
    read_account(room, lent(&g), ticket, owner, number)
}
