// The message that a sheet is: its kind and its fields, or the refusal by 7 or 8. Document 01, "Fields", and request 9 of document 02.
// It knows nothing of rooms, participants and checks. The tables of fields stand in `specs/Fields.antt`, what the rows of a sheet say in
// `specs/Held.antt`, when a field is bad in `specs/Good.antt`, what a message is in `specs/Message.antt`, what a sheet is due as
// an answer in `specs/Due.antt`, and how the answer is worked out in `specs/Received.antt`.
#![tactic(auto)]

mod fit;
mod found;
mod kinds;
mod seen;

ghost use Rattle.std.specs.Prelude.{◌≡◌, Some};
ghost use Rattle.message.specs.Message.{name_of, agent_of, reply_of, message_from};
ghost use Rattle.message.specs.Received.{refusal, received_in, received_of, shown_in, field_shown, field_of};
ghost use Rattle.message.specs.Seen.{held_by};
ghost use Rattle.message.specs.Words.{words_of};

use found::NO_SPOT;
pub use found::Spot;
pub use kinds::FIELDS_MOST;
use kinds::{kind_of, numbers_of};
use paths::survey;
use remainder::remainder;
use seen::Seen;
use shape::date::time_of;
use shape::field::{Account, System, account_of, amount_of, code_of, message_code_of, system_of};
use shape::pattern::matches;
use shape::stored::{Identifier, Uetr, identifier_of, uetr_of};
use sheet::shown_at;
use std::error::Error;
use std::fmt;
use table::Kind;

// A message identifier: as it is stored, and the code in front of it where it is a good one.
#[derive(Clone, Copy)]
pub struct Name {
    pub stored: Identifier,
    pub code: Option<u64>,
}

// An agent: which system lists it, and its code.
#[derive(Clone, Copy)]
pub struct Agent {
    pub system: System,
    pub code: Option<u64>,
}

// What a pacs.002 says of the transfer that it answers: it is accepted, declined as a technical refusal, or the client is not credited.
#[derive(Clone, Copy, Debug, PartialEq, Eq)]
pub enum Reply {
    Accepts,
    Declines,
    Refuses,
}

// A message. A part that its kind lacks, and PrvsInstgAgt1 where it is not given, is None, Neither or zeros.
#[derive(Clone, Copy)]
pub struct Message {
    pub kind: Kind,
    // MsgId
    pub id: Name,
    // CreDtTm
    pub created: Option<u64>,
    // InstgAgt and InstdAgt
    pub instructing: Option<u64>,
    pub instructed: Option<u64>,
    // EndToEndId, OrgnlEndToEndId
    pub reference: Identifier,
    // UETR, OrgnlUETR
    pub uetr: Uetr,
    // IntrBkSttlmAmt, TrfdAmt, in kopecks, and its Ccy
    pub amount: Option<u64>,
    pub currency: Option<u64>,
    // PrvsInstgAgt1
    pub previous: Option<u64>,
    // DbtrAgt and CdtrAgt
    pub debtor: Agent,
    pub creditor: Agent,
    // What the IBAN of CdtrAcct leaves.
    pub iban: Option<u64>,
    // DbtrAcct and CdtrAcct of a camt.050
    pub debit: Account,
    pub credit: Account,
    // OrgnlMsgId
    pub original: Name,
    // OrgnlCreDtTm
    pub originated: Option<u64>,
    // GrpSts and TxSts
    pub reply: Option<Reply>,
}

// Why a sheet is no message: it is refused by 7 with the place, or by 8 with the number of a field, which is 0 where the message is unknown.
// The 0 is no variant of its own: `Due`, `received_of` and the centre's `told` have it as the number of refusal 8.
#[derive(Clone, Copy, Debug, PartialEq, Eq)]
pub enum Refusal {
    IllFormed(usize),
    BadField(usize),
}

impl fmt::Display for Refusal {
    ghost output = { λ r. Some (words_of r) };

    fn fmt<W: fmt::Write>(&self, f: &mut fmt::Formatter<W>) -> fmt::Result {
        match *self {
            Refusal::IllFormed(place) => write!(f, "the sheet is ill-formed at byte {place}"),
            Refusal::BadField(0) => write!(f, "the message is unknown"),
            Refusal::BadField(number) => write!(f, "field {number} is bad"),
        }
    }
}

impl Error for Refusal {}

// The answer to a sheet and, of a message, where the text of each field stands, by the field's number. At 0, after the kind's last field and for
// a field that is not given there is no text. The places stand beside a refusal too: the clause of `field` speaks of a refused sheet as well.
#[derive(Clone, Copy)]
pub struct Received {
    pub answer: Result<Message, Refusal>,
    pub spots: [Spot; FIELDS_MOST + 1],
}

fn refused(reason: Refusal) -> Received
    ensures { result ≡ refusal reason }
{
    Received {
        answer: Err(reason),
        spots: [NO_SPOT; FIELDS_MOST + 1],
    }
}

// The field with a number as that part of the sheet; nothing where no field has the number.
fn shown<'a>(s: &'a [u8], spots: &[Spot; FIELDS_MOST + 1], number: usize) -> &'a [u8]
    ensures { result.now ≡ shown_in s.now spots.now number }
{
    match spots.get(number) {
        Some(spot) => shown_at(s, spot.start, spot.length),
        None => &[],
    }
}

#[tactic(auto, unfolding(crate::specs::Message::name_of))]
fn name_of(s: &[u8]) -> Name
    ensures { result ≡ name_of s.now }
{
    Name {
        stored: identifier_of(s),
        code: message_code_of(s),
    }
}

#[tactic(auto, unfolding(crate::specs::Message::agent_of))]
fn agent_of(system: &[u8], code: &[u8]) -> Agent
    ensures { result ≡ agent_of system.now code.now }
{
    Agent {
        system: system_of(system),
        code: code_of(code),
    }
}

// What GrpSts and TxSts say together. Their texts of one reading are shapes too, and are compared as shapes are.
#[tactic(auto, unfolding(crate::specs::Message::reply_of))]
fn reply_of(group: &[u8], transaction: &[u8]) -> Option<Reply>
    ensures { result ≡ reply_of group.now transaction.now }
{
    if matches(b"ACCP", group) {
        return Some(Reply::Accepts);
    }
    if !matches(b"RJCT", group) {
        return None;
    }
    if transaction.is_empty() {
        return Some(Reply::Declines);
    }
    Some(Reply::Refuses)
}

// The message, by the places of its fields' texts. A text's characters are its own bytes.
#[tactic(auto, unfolding(crate::specs::Message::message_from))]
fn message_of(
    s: &[u8],
    kind: Kind,
    spots: &[Spot; FIELDS_MOST + 1],
    currency: Option<u64>,
) -> Message
    ensures { result ≡ message_from kind (shown_in s.now spots.now) currency }
{
    let numbers = numbers_of(kind);
    Message {
        kind,
        id: name_of(shown(s, spots, numbers.id)),
        created: time_of(shown(s, spots, numbers.created)),
        instructing: code_of(shown(s, spots, numbers.instructing)),
        instructed: code_of(shown(s, spots, numbers.instructed)),
        reference: identifier_of(shown(s, spots, numbers.reference)),
        uetr: uetr_of(shown(s, spots, numbers.uetr)),
        amount: amount_of(shown(s, spots, numbers.amount)),
        currency,
        previous: code_of(shown(s, spots, numbers.previous)),
        debtor: agent_of(
            shown(s, spots, numbers.debtor.system),
            shown(s, spots, numbers.debtor.code),
        ),
        creditor: agent_of(
            shown(s, spots, numbers.creditor.system),
            shown(s, spots, numbers.creditor.code),
        ),
        iban: remainder(shown(s, spots, numbers.iban)),
        debit: account_of(shown(s, spots, numbers.debit)),
        credit: account_of(shown(s, spots, numbers.credit)),
        original: name_of(shown(s, spots, numbers.original)),
        originated: time_of(shown(s, spots, numbers.originated)),
        reply: reply_of(
            shown(s, spots, numbers.group),
            shown(s, spots, numbers.transaction),
        ),
    }
}

// A message of a known kind: 8 with its first bad field, or the message.
fn receive_as(seen: Seen<'_>) -> Received
    ensures { result ≡ received_in seen.entry.kind (held_by seen.entry) }
{
    if let Some(number) = seen.first_bad() {
        return refused(Refusal::BadField(number));
    }
    let spots = seen.spots();
    Received {
        answer: Ok(message_of(seen.sheet, seen.kind, &spots, seen.currency())),
        spots,
    }
}

// Receives a sheet: reads it, goes through its elements once, and judges the fields of its kind.
pub fn receive(s: &[u8]) -> Received
    ensures { result ≡ received_of s.now }
{
    let standing = match survey(s) {
        Ok(standing) => standing,
        Err(reason) => return refused(Refusal::IllFormed(reason.place)),
    };
    let Some(kind) = kind_of(standing.bodies, &standing.counts) else {
        return refused(Refusal::BadField(0));
    };
    receive_as(Seen {
        sheet: s,
        kind,
        counts: &standing.counts,
        starts: &standing.starts,
    })
}

// A field of a message as the part of its sheet: of the sheet that was received so, the field's text.
pub fn field<'a>(s: &'a [u8], received: Received, number: usize) -> &'a [u8]
    ensures result_value { result.now ≡ field_shown s.now received number }
    ensures result_value_2 { received ≡ received_of s.now → result.now ≡ field_of s.now number }
{
    shown(s, &received.spots, number)
}
