// What happened by a call that was done.
use crate::accounts::Call;
use crate::messages::{put_said, put_submitted, put_taken_back};
use crate::show::{Block, Code, Difference, Lpo, NEXT, Sum};
use centre::Done;
use layout::rows::Account;
use script::{Line, Word};
use slip::SLIP_LONG;
use std::io;
use std::io::Write;

fn pace(instant: u64) -> &'static str {
    if instant == 1 { "instant" } else { "ordinary" }
}

// A bank that a line named: its code, what it is, and under whom.
fn put_bank<W: Write>(out: &mut W, line: &Line, what: &str) -> io::Result<()> {
    let [code, named, instant, ..] = line.values;
    write!(
        out,
        "bank {}, {what} {}, {}",
        Code(code),
        Code(named),
        pace(instant)
    )
}

fn put_owner<W: Write>(out: &mut W, line: &Line) -> io::Result<()> {
    let [code, instant, ..] = line.values;
    write!(out, "bank {}, owner, {}", Code(code), pace(instant))
}

fn put_opened<W: Write>(out: &mut W, call: &Call, done: Done) -> io::Result<()> {
    let [seat, ..] = call.line.values;
    write!(out, "seat {seat} is open; its opening number is ")?;
    if let Done::Opened(opening) = done {
        write!(out, "{opening}")?;
    }
    call.put_balances(out)
}

fn put_closed<W: Write>(out: &mut W, line: &Line) -> io::Result<()> {
    let [seat, ..] = line.values;
    write!(out, "seat {seat} is closed")
}

// The owner and the account number of a line.
fn put_account_name<W: Write>(out: &mut W, line: &Line) -> io::Result<()> {
    let [_, _, owner, number, ..] = line.values;
    write!(out, "{} account {number}", Code(owner))
}

fn put_set<W: Write>(out: &mut W, call: &Call) -> io::Result<()> {
    let [_, _, _, _, outgoing, incoming, ltk, lpo, ..] = call.line.values;
    put_account_name(out, &call.line)?;
    write!(
        out,
        ": outgoing {}, incoming {}",
        Block(outgoing),
        Block(incoming)
    )?;
    write!(
        out,
        ", LTK {}, LPO {}; step {}",
        Sum(ltk),
        Lpo(lpo),
        call.after.steps
    )
}

// All that an account holds, its sums in a column.
fn put_account<W: Write>(out: &mut W, line: &Line, a: Account) -> io::Result<()> {
    let s = a.settings;
    put_account_name(out, line)?;
    write!(out, "{NEXT}opening sum {:>17}", Sum(a.opening))?;
    write!(out, "{NEXT}balance     {:>17}", Sum(a.balance))?;
    write!(out, "{NEXT}turnover    {:>17}", Sum(a.turnover))?;
    write!(out, "{NEXT}outgoing    {:>17}", Block(s.out))?;
    write!(out, "{NEXT}incoming    {:>17}", Block(s.into))?;
    write!(out, "{NEXT}LTK         {:>17}", Sum(s.ltk))?;
    write!(out, "{NEXT}LPO         {:>17}", Lpo(s.lpo))?;
    write!(
        out,
        "{NEXT}available   {:>17}",
        Difference(a.balance, s.ltk)
    )
}

fn put_read<W: Write>(out: &mut W, line: &Line, done: Done) -> io::Result<()> {
    if let Done::Holds(account) = done {
        put_account(out, line, account)?;
    }
    Ok(())
}

// A line that names a bank, or empties the list or the room.
fn put_listed<W: Write>(out: &mut W, line: &Line) -> io::Result<()> {
    match line.word {
        Word::Room => out.write_all(
            b"the room is laid out: twelve closed seats, none of them opened so far",
        ),
        Word::Nobody => out.write_all(b"the list of banks is empty"),
        Word::Owner => put_owner(out, line),
        Word::Direct => put_bank(out, line, "direct branch of"),
        Word::Indirect => put_bank(out, line, "indirect branch of"),
        Word::Provider => put_bank(out, line, "provider served by"),
        _ => Ok(()),
    }
}

// What a line did that was not refused.
pub fn put_done<W: Write>(
    out: &mut W,
    call: &Call,
    done: Done,
    bytes: [u8; SLIP_LONG],
) -> io::Result<()> {
    let line = &call.line;
    match line.word {
        Word::Open => put_opened(out, call, done),
        Word::Close => put_closed(out, line),
        Word::Set => put_set(out, call),
        Word::Submit => put_submitted(out, bytes, call),
        Word::Back => put_taken_back(out, call),
        Word::Read => put_read(out, line, done),
        Word::Slip => put_said(out, done),
        _ => put_listed(out, line),
    }
}
