// What became of a message, read off its slip and off the row of its step; what a slip says; and a step that is taken back.
use crate::accounts::Call;
use crate::meanings::{meaning, put_check};
use crate::show::{Code, NEXT, put_bytes};
use centre::Done;
use slip::{ACCC, CAMT_050, PACS_002, PACS_008, PACS_028, PDNG, RJCT, SLIP_LONG, Slip, Status};
use std::io;
use std::io::Write;
use table::Kind;

// What a step was, by its number among the kinds of steps.
fn step_name(kind: u64) -> &'static str {
    match kind {
        PACS_008 => "a pacs.008",
        CAMT_050 => "a camt.050",
        PACS_028 => "a pacs.028",
        PACS_002 => "a pacs.002",
        _ => "a set",
    }
}

// The transfer of a step, and what has become of it.
fn put_transfer<W: Write>(out: &mut W, step: u64, fate: &str) -> io::Result<()> {
    write!(out, "{NEXT}the transfer of step {step} {fate}")
}

// A step that was taken back; the transfer that it answered waits again.
pub fn put_taken_back<W: Write>(out: &mut W, call: &Call) -> io::Result<()> {
    if let Some(last) = call.before.last {
        let name = step_name(last.kind);
        write!(
            out,
            "step {} is taken back; it was {name}",
            call.before.steps
        )?;
    }
    if let Some(answered) = call.before.answers() {
        put_transfer(out, answered, "waits again")?;
    }
    call.put_changes(out)
}

// A slip's kind by its number. The number is a slip's that was read, so it is one of these (the read's promise); `kind_number` in slip names them.
fn kind_of(number: u64) -> Kind {
    match number {
        PACS_008 => Kind::Pacs008,
        CAMT_050 => Kind::Camt050,
        PACS_028 => Kind::Pacs028,
        _ => Kind::Pacs002,
    }
}

// A slip's status by its number. The number is a slip's that was read, so it is one of these; `status_number` in slip names them.
fn status_of(number: u64) -> Status {
    match number {
        PDNG => Status::Pdng,
        ACCC => Status::Accc,
        RJCT => Status::Rjct,
        _ => Status::Waits,
    }
}

fn status_name(status: Status) -> &'static str {
    match status {
        Status::Pdng => "PDNG",
        Status::Accc => "ACCC",
        Status::Rjct => "RJCT",
        Status::Waits => "waits",
    }
}

// How a message ended, as its slip says it.
#[derive(Clone, Copy)]
struct End {
    kind: Kind,
    status: Status,
    check: u64,
}

impl End {
    fn of(s: Slip) -> End {
        End {
            kind: kind_of(s.kind),
            status: status_of(s.status),
            check: s.check,
        }
    }

    // Whether it is told how another message ended: by a pacs.028 that is not pending.
    fn is_telling(&self) -> bool {
        self.kind == Kind::Pacs028 && self.status != Status::Pdng
    }

    // Whether money was moved.
    fn is_moved(&self) -> bool {
        self.status == Status::Accc && self.kind != Kind::Pacs028
    }

    // The kind whose codes stand beside the check.
    fn told(&self) -> Kind {
        if self.is_telling() {
            Kind::Pacs008
        } else {
            self.kind
        }
    }

    // The end, with the check and what that means.
    fn put<W: Write>(&self, out: &mut W) -> io::Result<()> {
        write!(out, "{}: ", self.kind)?;
        if self.is_telling() {
            out.write_all(b"the pacs.008 asked after ended with ")?;
        }
        write!(out, "{}", status_name(self.status))?;
        if self.check == 0 {
            return Ok(());
        }
        out.write_all(b" by ")?;
        put_check(out, self.told(), self.check)?;
        write!(out, "{NEXT}{}", meaning(self.check))
    }
}

fn put_slip<W: Write>(out: &mut W, s: Slip) -> io::Result<()> {
    End::of(s).put(out)?;
    write!(
        out,
        "{NEXT}seat {}, opening number {}, step {}",
        s.seat, s.opening, s.step
    )
}

// The slip that was read.
pub fn put_said<W: Write>(out: &mut W, done: Done) -> io::Result<()> {
    if let Done::Says(slip) = done {
        put_slip(out, slip)?;
    }
    Ok(())
}

// How a message ended, and of a transfer that waits for whom.
fn put_result<W: Write>(out: &mut W, end: End, call: &Call) -> io::Result<()> {
    end.put(out)?;
    if end.is_moved() {
        out.write_all(b", carried out")?;
    }
    if let (Status::Waits, Some(last)) = (end.status, call.after.last) {
        write!(out, " for the answer of {}", Code(last.receiver))?;
    }
    Ok(())
}

// What an answer did to the transfer of a step.
fn put_answered<W: Write>(out: &mut W, end: End, answered: Option<u64>) -> io::Result<()> {
    let Some(step) = answered else {
        return write!(out, "{NEXT}no transfer was touched");
    };
    if end.status == Status::Accc {
        return put_transfer(out, step, "is settled");
    }
    put_transfer(out, step, "is rejected by this check")
}

fn put_message<W: Write>(
    out: &mut W,
    s: Slip,
    bytes: [u8; SLIP_LONG],
    call: &Call,
) -> io::Result<()> {
    let end = End::of(s);
    put_result(out, end, call)?;
    write!(out, "{NEXT}step {}, slip", s.step)?;
    put_bytes(out, bytes)?;
    if end.kind == Kind::Pacs002 {
        put_answered(out, end, call.after.answers())?;
    }
    if end.is_moved() {
        call.put_changes(out)?;
    }
    Ok(())
}

// What became of a message, read off its slip.
pub fn put_submitted<W: Write>(out: &mut W, bytes: [u8; SLIP_LONG], call: &Call) -> io::Result<()> {
    if let Ok(s) = slip::read(&bytes) {
        put_message(out, s, bytes, call)?;
    }
    Ok(())
}
