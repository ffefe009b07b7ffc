// What is asked of messages: a sheet's refusal, or all that its message holds and each of its fields as a part of the sheet.
use crate::ask::{put_account, put_number, put_stored, put_system, put_uetr, put_value};
use message::{Agent, FIELDS_MOST, Message, Name, Received, Refusal, Reply};
use std::io;

fn put_name(rt: &impl Print, name: Name) -> io::Result<()> {
    put_stored(rt, name.stored)?;
    put_value(rt, name.code)
}

fn put_agent(rt: &impl Print, agent: Agent) -> io::Result<()> {
    put_system(rt, agent.system)?;
    put_value(rt, agent.code)
}

// What the kinds have in common, and what a pacs.028 asks after or a pacs.002 answers.
fn put_common(rt: &impl Print, m: Message) -> io::Result<()> {
    print!(rt; " {}", m.kind)?;
    put_name(rt, m.id)?;
    put_value(rt, m.created)?;
    put_value(rt, m.instructing)?;
    put_name(rt, m.original)?;
    put_value(rt, m.originated)
}

// What a transfer has.
fn put_transfer(rt: &impl Print, m: Message) -> io::Result<()> {
    put_stored(rt, m.reference)?;
    put_uetr(rt, m.uetr)?;
    put_value(rt, m.amount)?;
    put_value(rt, m.currency)?;
    put_account(rt, m.debit)?;
    put_account(rt, m.credit)
}

// What a pacs.002 replies.
fn put_reply(rt: &impl Print, reply: Option<Reply>) -> io::Result<()> {
    match reply {
        None => print!(rt; " none"),
        Some(Reply::Accepts) => print!(rt; " accepts"),
        Some(Reply::Declines) => print!(rt; " declines"),
        Some(Reply::Refuses) => print!(rt; " refuses"),
    }
}

// Who else takes part in a pacs.008, and the reply of a pacs.002.
fn put_parties(rt: &impl Print, m: Message) -> io::Result<()> {
    put_value(rt, m.instructed)?;
    put_value(rt, m.previous)?;
    put_agent(rt, m.debtor)?;
    put_agent(rt, m.creditor)?;
    put_value(rt, m.iban)?;
    put_reply(rt, m.reply)
}

// A part of the sheet, in brackets, so that an empty one shows.
fn put_bracketed(rt: &impl Print, text: &[u8]) -> io::Result<()> {
    print!(rt; "[")?;
    rt.write_all(text)?;
    print!(rt; "]")
}

// A number above those of all fields.
const NO_FIELD: usize = FIELDS_MOST + 1;

// Every field that a message can have, with its start, and one more that none has.
fn put_fields(rt: &impl Print, s: &[u8], received: Received) -> io::Result<()> {
    for (number, spot) in received.spots.iter().enumerate().skip(1) {
        put_number(rt, spot.start as u64)?;
        put_bracketed(rt, message::field(s, received, number))?;
    }
    put_bracketed(rt, message::field(s, received, NO_FIELD))
}

pub fn receive(rt: &impl Print, text: &[u8]) -> io::Result<()> {
    let received = message::receive(text);
    match received.answer {
        Err(Refusal::IllFormed(place)) => print!(rt; " 7 {place}"),
        Err(Refusal::BadField(number)) => print!(rt; " 8 {number}"),
        Ok(m) => put_message(rt, text, received, m),
    }
}

// All that a message holds, and its fields as parts of the sheet.
fn put_message(rt: &impl Print, s: &[u8], received: Received, m: Message) -> io::Result<()> {
    print!(rt; " 0")?;
    put_common(rt, m)?;
    put_transfer(rt, m)?;
    put_parties(rt, m)?;
    put_fields(rt, s, received)
}
