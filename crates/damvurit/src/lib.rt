// The C boundary: the calls of the centre as functions of numbers, in the form in which they go through C. The crate `damvurit_c` exports
// each of them to C, under the same name and with the same clauses.
// It adds no rule: each function brings a call's numbers into the centre's form, makes the call and hands on its answer. No function asks
// anything of its caller.
// A result is the call's number and 256 times its detail (`specs/Boundary.antt`); a directory is four numbers a record (`specs/Flat.antt`).
#![tactic(auto)]

mod flat;
mod forms;

ghost use Rattle.std.specs.Prelude.{◌≡◌};
ghost use Rattle.slip.specs.Answers.{write_after};
ghost use Rattle.layout.specs.Seat.{room_long};
ghost use Rattle.centre.specs.Calls.{lay_told, lay_after, open_told, open_after, close_told, close_after, set_told, set_after, back_told, back_after, read_told};
ghost use Rattle.centre.specs.Submit.{submit_told, submit_after, submit_slip};
ghost use Rattle.centre.specs.Slips.{write_told, read_told as slip_told};
ghost use Rattle.damvurit.specs.Flat.{flat_directory};
ghost use Rattle.damvurit.specs.Boundary.{result_number, open_result, seven, six, ticket_of, slip_of, wish_of};

use centre::{
    Ticket, close_seat, lay_out, open_among, read_among, read_slip, set_among, submit_among,
    take_back, write_slip,
};
use flat::gather_flat;
use forms::{DETAIL_UNIT, account_in, opening_in, result_of, slip_in, wish_of};
use layout::ROOM_LONG;
use slip::Slip;

// How many numbers a room has.
pub fn damvurit_room_size() -> u64
    ensures { result ≡ room_long }
{
    ROOM_LONG as u64
}

// Lays out a room.
pub fn damvurit_lay_out(room: &mut [u64]) -> u64
    ensures result_value { result ≡ result_number (lay_told room.old) }
    ensures room_after { room.new ≡ lay_after room.old }
{
    result_of(lay_out(room))
}

// Opens a seat with two sums for each record of the directory. The detail is the opening number.
pub fn damvurit_open(room: &mut [u64], dir: &[u64], seat: u64, sums: &[u64]) -> u64
    ensures result_value { result ≡ open_result (open_told (flat_directory dir.now) seat sums.now room.old) }
    ensures room_after { room.new ≡ open_after (flat_directory dir.now) seat sums.now room.old }
{
    let answer = open_among(room, gather_flat(dir), seat, sums);
    result_of(answer) + DETAIL_UNIT * opening_in(answer)
}

// Closes a seat.
pub fn damvurit_close(room: &mut [u64], seat: u64, opening: u64) -> u64
    ensures result_value { result ≡ result_number (close_told (ticket_of seat opening) room.old) }
    ensures room_after { room.new ≡ close_after (ticket_of seat opening) room.old }
{
    result_of(close_seat(room, Ticket { seat, opening }))
}

// Sets an account's blocks and limits, as one step. A block is 0 or 1; LPO is 0 for none and n + 1 for n.
pub fn damvurit_set(
    room: &mut [u64],
    dir: &[u64],
    seat: u64,
    opening: u64,
    owner: u64,
    account: u64,
    block_out: u64,
    block_in: u64,
    ltk: u64,
    lpo: u64,
) -> u64
    ensures result_value { result ≡ result_number (set_told (flat_directory dir.now) (ticket_of seat opening) owner account (wish_of block_out block_in ltk lpo) room.old) }
    ensures room_after { room.new ≡ set_after (flat_directory dir.now) (ticket_of seat opening) owner account (wish_of block_out block_in ltk lpo) room.old }
{
    let ticket = Ticket { seat, opening };
    let wish = wish_of(block_out, block_in, ltk, lpo);
    result_of(set_among(room, gather_flat(dir), ticket, owner, account, wish))
}

// Submits a sheet for a sender on a date (yyyymmdd), and writes its slip. The detail is the place, the field or the check.
pub fn damvurit_submit(
    room: &mut [u64],
    dir: &[u64],
    seat: u64,
    opening: u64,
    sender: u64,
    date: u64,
    sheet: &[u8],
    slip: &mut [u8],
) -> u64
    ensures result_value { result ≡ result_number (submit_told (flat_directory dir.now) (ticket_of seat opening) sender date sheet.now slip.old room.old) }
    ensures room_after { room.new ≡ submit_after (flat_directory dir.now) (ticket_of seat opening) sender date sheet.now slip.old room.old }
    ensures slip_after { slip.new ≡ submit_slip (flat_directory dir.now) (ticket_of seat opening) sender date sheet.now slip.old room.old }
{
    let ticket = Ticket { seat, opening };
    result_of(submit_among(room, gather_flat(dir), ticket, sender, date, sheet, slip))
}

// Takes back the last step.
pub fn damvurit_take_back(room: &mut [u64], seat: u64, opening: u64) -> u64
    ensures result_value { result ≡ result_number (back_told (ticket_of seat opening) room.old) }
    ensures room_after { room.new ≡ back_after (ticket_of seat opening) room.old }
{
    result_of(take_back(room, Ticket { seat, opening }))
}

// Reads an account: opening sum, balance, turnover, block out, block in, LTK, LPO.
pub fn damvurit_read(
    room: &[u64],
    dir: &[u64],
    seat: u64,
    opening: u64,
    owner: u64,
    account: u64,
    out: &mut [u64; 7],
) -> u64
    ensures result_value { result ≡ result_number (read_told (flat_directory dir.now) (ticket_of seat opening) owner account room.now) }
    ensures out_after { out.new ≡ seven (read_told (flat_directory dir.now) (ticket_of seat opening) owner account room.now) }
{
    let answer = read_among(
        room,
        gather_flat(dir),
        Ticket { seat, opening },
        owner,
        account,
    );
    *out = account_in(answer);
    result_of(answer)
}

// Writes a slip into the first six bytes of a buffer.
pub fn damvurit_write_slip(
    kind: u64,
    status: u64,
    check: u64,
    seat: u64,
    opening: u64,
    step: u64,
    slip: &mut [u8],
) -> u64
    ensures result_value { result ≡ result_number (write_told (slip_of kind status check seat opening step) slip.old) }
    ensures slip_after { slip.new ≡ write_after (slip_of kind status check seat opening step) slip.old }
{
    let s = Slip {
        kind,
        status,
        check,
        seat,
        opening,
        step,
    };
    result_of(write_slip(s, slip))
}

// Reads a slip: kind, status, check, seat, opening, step.
pub fn damvurit_read_slip(slip: &[u8], out: &mut [u64; 6]) -> u64
    ensures result_value { result ≡ result_number (slip_told slip.now) }
    ensures out_after { out.new ≡ six (slip_told slip.now) }
{
    let answer = read_slip(slip);
    *out = slip_in(answer);
    result_of(answer)
}
