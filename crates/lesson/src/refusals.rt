// The refusals 1 to 12 in a pupil's words. Their numbers are those of document 01, "Calls and refusals".
use crate::fields::{kind_in, put_field};
use crate::meanings::{meaning, put_check};
use crate::show::NEXT;
use centre::Refusal;
use script::Word;
use std::io;
use std::io::Write;

// 3: what is wrong with a ticket, or with the seat of an opening.
fn put_no_ticket<W: Write>(out: &mut W, word: Word) -> io::Result<()> {
    match word {
        Word::Open => out.write_all(b"refused 3: there are only the seats 0 to 11"),
        _ => out.write_all(
            b"refused 3: the seat is above 11 or closed, or its opening number is another one",
        ),
    }
}

// 6: which values the call looks at.
fn put_bad_number<W: Write>(out: &mut W, word: Word) -> io::Result<()> {
    out.write_all(b"refused 6: ")?;
    match word {
        Word::Open => out.write_all(
            b"not two sums for each bank, or a sum too high, or money for a bank that owns no accounts",
        ),
        Word::Set => out.write_all(b"no listed owner, no account 1 or 2, or a limit too high"),
        Word::Submit => out.write_all(
            b"no day of the years 2000 to 2099, or a sender above 999999",
        ),
        _ => out.write_all(b"no listed owner, or no account 1 or 2"),
    }
}

fn put_ill_formed<W: Write>(out: &mut W, place: usize) -> io::Result<()> {
    write!(
        out,
        "refused 7 at place {place}: the sheet is not well formed; before that place all is right, there it goes wrong or ends too soon"
    )
}

// 12: the check, with the codes of the sheet's kind.
fn put_not_taken<W: Write>(out: &mut W, check: u64, sheet: &[u8]) -> io::Result<()> {
    out.write_all(b"refused 12, ")?;
    put_check(out, kind_in(sheet), check)?;
    write!(out, ": the sender gets no slip{NEXT}{}", meaning(check))
}

// A refused call of a word, with the sheet that it was made with.
pub fn put_refusal<W: Write>(
    out: &mut W,
    refusal: Refusal,
    word: Word,
    sheet: &[u8],
) -> io::Result<()> {
    match refusal {
        Refusal::RoomUnfit => out.write_all(b"refused 1: the numbers of the room are not right"),
        Refusal::DirectoryUnfit => out.write_all(
            b"refused 2: the list of banks is not right: 1 to 16 banks, codes rising, each branch and provider under a listed owner",
        ),
        Refusal::NoTicket => put_no_ticket(out, word),
        Refusal::AlreadyOpen => out.write_all(b"refused 4: the seat is open already"),
        Refusal::NoOpeningLeft => out.write_all(
            b"refused 5: the seat was opened 65535 times, and has no opening number left",
        ),
        Refusal::BadNumber => put_bad_number(out, word),
        Refusal::IllFormed(place) => put_ill_formed(out, place),
        Refusal::BadField(number) => put_field(out, sheet, number),
        Refusal::JournalFull => out.write_all(b"refused 9: the journal is full, it holds 24 steps"),
        Refusal::NothingToTakeBack => out.write_all(b"refused 10: there is no step to take back"),
        Refusal::NoSlip => out.write_all(
            b"refused 11: these are not the bytes of a slip, six or five",
        ),
        Refusal::NotTaken(check) => put_not_taken(out, check, sheet),
    }
}
