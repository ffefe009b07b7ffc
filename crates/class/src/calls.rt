// The call that a line makes, with the line's values in the order in which they stand there.
ghost use Rattle.std.specs.Prelude.{◌≡◌, ◌-◌, take, drop};
ghost use Rattle.directory.specs.Gathering.{directory_in};
ghost use Rattle.centre.specs.Answers.{told};
ghost use Rattle.centre.specs.Calls.{open_told, open_after, set_told, set_after, read_told};
ghost use Rattle.centre.specs.Submit.{submit_told, submit_after, submit_slip};
ghost use Rattle.class.specs.Lines.{value_at, ticket_in, limit_in, wish_in, sums_in, rest_in, slip_told, line_told, line_after, line_slip};

use crate::digits::{ink_in, twelve_as_bytes, whole_bytes};
use crate::ends::{behind, first};
use centre::{Done, Refusal, Ticket, close_seat, lay_out, read_slip, take_back};
use directory::Gathered;
use lender::{open_with, read_with, set_with, submit_with};
use script::{Line, Word};
use seat::Wish;

// The seat and the opening number, which stand first.
#[tactic(auto, unfolding(crate::specs::Lines::ticket_in))]
fn ticket(line: Line) -> Ticket
    ensures { result ≡ ticket_in line }
{
    let [seat, opening, ..] = line.values;
    Ticket { seat, opening }
}

// The sums of an opening, which stand after its seat.
fn sums(values: &[u64], count: usize) -> &[u64]
    ensures { result.now ≡ take (count - 1) (drop 1 values.now) }
{
    first(values.get(1..).unwrap_or(&[]), count.saturating_sub(1))
}

// Room, banks and line go together from here on, each as the centre's calls take it.
#[tactic(auto, unfolding(crate::specs::Lines::sums_in))]
fn open_by(room: &mut [u64], g: Gathered, line: Line) -> Result<Done, Refusal>
    ensures result_value { told result ≡ open_told (directory_in g) (value_at line 0) (sums_in line) room.old }
    ensures room_after { room.new ≡ open_after (directory_in g) (value_at line 0) (sums_in line) room.old }
{
    open_with(room, g, line.values[0], sums(&line.values, line.count))
}

// An LPO as a line has it: 0 for none, n + 1 for n. C's is the same in `damvurit`: a function for both would only name the library's.
#[tactic(auto, unfolding(crate::specs::Lines::limit_in))]
fn limit(n: u64) -> Option<u64>
    ensures { result ≡ limit_in n }
{
    n.checked_sub(1)
}

#[tactic(auto, unfolding(crate::specs::Lines::wish_in))]
fn wish(line: Line) -> Wish
    ensures { result ≡ wish_in line }
{
    let [_, _, _, _, out, into, ltk, lpo, ..] = line.values;
    Wish {
        out: out == 1,
        into: into == 1,
        ltk,
        lpo: limit(lpo),
    }
}

fn set_by(room: &mut [u64], g: Gathered, line: Line) -> Result<Done, Refusal>
    ensures result_value { told result ≡ set_told (directory_in g) (ticket_in line) (value_at line 2) (value_at line 3) (wish_in line) room.old }
    ensures room_after { room.new ≡ set_after (directory_in g) (ticket_in line) (value_at line 2) (value_at line 3) (wish_in line) room.old }
{
    let [_, _, owner, number, ..] = line.values;
    set_with(room, g, ticket(line), owner, number, wish(line))
}

fn submit_by(
    room: &mut [u64],
    g: Gathered,
    line: Line,
    text: &[u8],
    slip: &mut [u8],
) -> Result<Done, Refusal>
    ensures result_value { told result ≡ submit_told (directory_in g) (ticket_in line) (value_at line 2) (value_at line 3) (rest_in line text.now) slip.old room.old }
    ensures room_after { room.new ≡ submit_after (directory_in g) (ticket_in line) (value_at line 2) (value_at line 3) (rest_in line text.now) slip.old room.old }
    ensures slip_after { slip.new ≡ submit_slip (directory_in g) (ticket_in line) (value_at line 2) (value_at line 3) (rest_in line text.now) slip.old room.old }
{
    let [_, _, sender, today, ..] = line.values;
    let sheet = behind(text, line.rest);
    submit_with(room, g, ticket(line), sender, today, sheet, slip)
}

fn read_by(room: &[u64], g: Gathered, line: Line) -> Result<Done, Refusal>
    ensures { told result ≡ read_told (directory_in g) (ticket_in line) (value_at line 2) (value_at line 3) room.now }
{
    let [_, _, owner, number, ..] = line.values;
    read_with(room, g, ticket(line), owner, number)
}

// Reads the slip that digits write. What is not the digits of whole bytes is no slip's.
#[tactic(auto, using(crate::proofs::Performed::slip_parts), unfolding(centre::specs::Answers::told, crate::specs::Lines::slip_told, crate::specs::Digits::bytes_in))]
fn slip_by(digits: &[u8]) -> Result<Done, Refusal>
    ensures { told result ≡ slip_told digits.now }
{
    let ink = ink_in(digits);
    if !whole_bytes(ink) {
        return Err(Refusal::NoSlip);
    }
    let bytes = twelve_as_bytes(ink);
    read_slip(first(&bytes, ink.count / 2))
}

// Makes the call of a line whose text this is, with the list of banks and a buffer for the slip. A line that is bad, or that makes no call,
// leaves everything as it is.
#[tactic(auto, unfolding(centre::specs::Answers::told, crate::specs::Lines::line_told, crate::specs::Lines::word_told, crate::specs::Lines::line_after, crate::specs::Lines::word_after, crate::specs::Lines::line_slip, crate::specs::Lines::word_slip))]
pub fn perform(
    room: &mut [u64],
    g: Gathered,
    line: Line,
    text: &[u8],
    slip: &mut [u8],
) -> Result<Done, Refusal>
    ensures result_value { told result ≡ line_told (directory_in g) line text.now slip.old room.old }
    ensures room_after { room.new ≡ line_after (directory_in g) line text.now slip.old room.old }
    ensures slip_after { slip.new ≡ line_slip (directory_in g) line text.now slip.old room.old }
{
    if !line.good {
        return Ok(Done::Plain);
    }
    match line.word {
        Word::Room => lay_out(room),
        Word::Open => open_by(room, g, line),
        Word::Close => close_seat(room, ticket(line)),
        Word::Set => set_by(room, g, line),
        Word::Submit => submit_by(room, g, line, text, slip),
        Word::Back => take_back(room, ticket(line)),
        Word::Read => read_by(room, g, line),
        Word::Slip => slip_by(behind(text, line.rest)),
        _ => Ok(Done::Plain),
    }
}
