// Submit: the refusals in their order, then the verdict, the step and its slip. The rules stand in `specs/Submit.antt`.
ghost use Rattle.std.specs.Prelude.{◌≡◌, true, false, ◌++◌, ◌<◌, ◌≤◌, suc, length, drop};
ghost use Rattle.slip.specs.Meaning.{slip_long, seats, steps};
ghost use Rattle.slip.specs.Image.{image};
ghost use Rattle.slip.specs.Answers.{can_write};
ghost use Rattle.message.specs.Received.{received_of};
ghost use Rattle.directory.specs.Gathering.{directory_in};
ghost use Rattle.layout.specs.Seat.{room_long, head_of, seat_of};
ghost use Rattle.seat.specs.Calls.{no_ticket};
ghost use Rattle.seat.specs.Fit.{seat_fits};
ghost use Rattle.judge.specs.Case.{Arises, case_from};
ghost use Rattle.centre.specs.Answers.{told};
ghost use Rattle.centre.specs.Calls.{ticket_bad};
ghost use Rattle.centre.specs.Submit.{call_bad, not_taken, judged_told, judged_after, judged_slip, slip_of, Sought, submit_by, submit_left, submit_written, submit_told, submit_after, submit_slip};

use crate::calls::seat_place;
use crate::{Done, Refusal, Ticket};
use directory::{CODE_MOST, Gathered, fits};
use journal::append;
use judge::{Case, Looked, asked_in, case_from, first_failing, look_among, step_by};
use layout::rows::Step;
use layout::{head, seat_in};
use message::{Message, receive};
use seat::{no_ticket, room_fits};
use shape::date::is_date;
use slip::{SEATS, SLIP_LONG, STEPS, Slip, write};

// Whether a ticket is for no seat, or its seat is closed or was opened with another number.
fn ticket_bad(room: &[u64], ticket: Ticket) -> bool
    requires { length room.now ≡ room_long }
    ensures { result ≡ ticket_bad ticket room.now }
{
    SEATS <= ticket.seat || no_ticket(seat_in(room, ticket.seat as usize), ticket.opening)
}

// Whether a sender or a date is bad.
fn call_bad(sender: u64, today: u64) -> bool
    ensures { result ≡ call_bad sender today }
{
    sender > CODE_MOST || !is_date(today)
}

// How many steps the journal of a seat has.
fn steps_in(room: &[u64], seat: u64) -> u64
    requires { (length room.now ≡ room_long) × (seat < seats) }
    ensures { result ≡ (head_of (seat_of room.now seat)).steps }
{
    head(seat_in(room, seat as usize)).steps
}

// Writes the slip of a step.
#[tactic(auto, unfolding(crate::specs::Submit::slip_of, slip::specs::Answers::write_answer, slip::specs::Answers::write_after))]
fn put_slip(ticket: Ticket, number: u64, x: Step, slip: &mut [u8])
    requires { can_write (slip_of ticket number x) slip.old ≡ true }
    ensures { slip.new ≡ image (slip_of ticket number x) ++ drop slip_long slip.old }
{
    write(
        Slip {
            kind: x.kind,
            status: x.status,
            check: x.check,
            seat: ticket.seat,
            opening: ticket.opening,
            step: number,
        },
        slip,
    )
    .unwrap();
}

// Whether a check that a message fails by is one of the two that refuse it: `not_taken`, as the journal's `fails_by` says of a row that it
// cannot hold one of them.
#[tactic(auto, unfolding(crate::specs::Submit::not_taken))]
fn not_taken(check: u64) -> bool
    ensures { result ≡ not_taken check }
{
    check == 1 || check == 2
}

// Judges a message in its seat: refused by check 1 or 2, or one step more and its slip.
fn judge_in(s: &mut [u64], ticket: Ticket, c: Case, slip: &mut [u8]) -> Result<Done, Refusal>
    requires { (seat_fits s.old ≡ true) × (no_ticket ticket.opening s.old ≡ false) × (ticket.seat < seats) × ((head_of s.old).steps < steps) × (slip_long ≤ length slip.old) × Arises c }
    ensures result_value { told result ≡ judged_told c s.old }
    ensures s_after { s.new ≡ judged_after c s.old }
    ensures slip_after { slip.new ≡ judged_slip ticket c s.old slip.old }
{
    let check = first_failing(c, s);
    if not_taken(check) {
        return Err(Refusal::NotTaken(check));
    }
    let x = step_by(c, s, check);
    let h = head(s);
    append(s, x);
    put_slip(ticket, h.steps + 1, x, slip);
    Ok(Done::Plain)
}

// What a sheet is received as.
pub fn received_in(sheet: &[u8]) -> Result<Message, message::Refusal>
    ensures { result ≡ (received_of sheet.now).answer }
{
    receive(sheet).answer
}

// Submits what a sheet was received as, for a sender on a date, by what was looked up in a directory that is fit or not. The two stand apart,
// because `submit_by` is of both.
pub fn submit_found(
    room: &mut [u64],
    fit: bool,
    looked: Looked,
    ticket: Ticket,
    sender: u64,
    today: u64,
    received: Result<Message, message::Refusal>,
    slip: &mut [u8],
) -> Result<Done, Refusal>
    requires { Sought fit looked sender received }
    ensures result_value { told result ≡ submit_by fit (case_from looked sender today) ticket sender today received slip.old room.old }
    ensures room_after { room.new ≡ submit_left fit (case_from looked sender today) ticket sender today received slip.old room.old }
    ensures slip_after { slip.new ≡ submit_written fit (case_from looked sender today) ticket sender today received slip.old room.old }
{
    if !room_fits(room) {
        return Err(Refusal::RoomUnfit);
    }
    if !fit {
        return Err(Refusal::DirectoryUnfit);
    }
    if ticket_bad(room, ticket) {
        return Err(Refusal::NoTicket);
    }
    if call_bad(sender, today) {
        return Err(Refusal::BadNumber);
    }
    if slip.len() < SLIP_LONG {
        return Err(Refusal::NoSlip);
    }
    if steps_in(room, ticket.seat) == STEPS {
        return Err(Refusal::JournalFull);
    }
    let m = received?;
    let c = case_from(looked, sender, today, m);
    judge_in(&mut room[seat_place(ticket.seat)], ticket, c, slip)
}

// Submits a sheet for a sender on a date, with the directory as it was gathered.
pub fn submit_among(
    room: &mut [u64],
    g: Gathered,
    ticket: Ticket,
    sender: u64,
    today: u64,
    sheet: &[u8],
    slip: &mut [u8],
) -> Result<Done, Refusal>
    ensures result_value { told result ≡ submit_told (directory_in g) ticket sender today sheet.now slip.old room.old }
    ensures room_after { room.new ≡ submit_after (directory_in g) ticket sender today sheet.now slip.old room.old }
    ensures slip_after { slip.new ≡ submit_slip (directory_in g) ticket sender today sheet.now slip.old room.old }
{
    let received = received_in(sheet);
    let looked = look_among(g, sender, asked_in(received));
    submit_found(room, fits(g), looked, ticket, sender, today, received, slip)
}
