// The records that a message asks of the directory: by which codes, and what is found of them. The rules stand in `specs/Records.antt`.
ghost use Rattle.std.specs.Prelude.{◌≡◌};
ghost use Rattle.directory.specs.Gathering.{records_in};
ghost use Rattle.judge.specs.Records.{asked_by, nothing_asked, asked_in, owner_code, debit_code, credit_code, looked_for};

use crate::case::Looked;
use directory::{Gathered, Listed, Participant, account_in, find, find_given};
use message::{Message, Refusal};
use table::Kind;

// The codes by which a message asks the directory, each of which may not be given.
#[derive(Clone, Copy)]
pub struct Asked {
    pub kind: Kind,
    // InstgAgt, InstdAgt, DbtrAgt and CdtrAgt.
    pub instructing: Option<u64>,
    pub instructed: Option<u64>,
    pub debtor: Option<u64>,
    pub creditor: Option<u64>,
    // The codes in DbtrAcct and CdtrAcct of a camt.050.
    pub debit: Option<u64>,
    pub credit: Option<u64>,
}

// What a message asks.
pub fn asked_by(m: Message) -> Asked
    ensures { result ≡ asked_by m }
{
    Asked {
        kind: m.kind,
        instructing: m.instructing,
        instructed: m.instructed,
        debtor: m.debtor.code,
        creditor: m.creditor.code,
        debit: Some(m.debit.code),
        credit: Some(m.credit.code),
    }
}

// No kind of message asks nothing, so one that is looked up for no account stands here, as `nothing_asked` has it.
fn nothing_asked() -> Asked
    ensures { result ≡ nothing_asked }
{
    Asked {
        kind: Kind::Pacs028,
        instructing: None,
        instructed: None,
        debtor: None,
        creditor: None,
        debit: None,
        credit: None,
    }
}

// What a sheet asks: nothing where it is no message.
#[tactic(auto, unfolding(crate::specs::Records::asked_in))]
pub fn asked_in(received: Result<Message, Refusal>) -> Asked
    ensures { result ≡ asked_in received }
{
    match received {
        Ok(m) => asked_by(m),
        Err(_refusal) => nothing_asked(),
    }
}

// The code of the owner of an account: of a pacs.008 by its agent, of a camt.050 by the code that is named.
#[tactic(auto, unfolding(crate::specs::Records::owner_code))]
fn owner_code(kind: Kind, agent: Option<Listed>, named: Option<u64>) -> Option<u64>
    ensures { result ≡ owner_code kind agent named }
{
    match kind {
        Kind::Pacs008 => account_in(agent),
        Kind::Camt050 => named,
        Kind::Pacs028 | Kind::Pacs002 => None,
    }
}

// The code of the owner of the debited account, by what was found of InstgAgt.
pub fn debit_code(asked: Asked, instructing: Option<Listed>) -> Option<u64>
    ensures { result ≡ debit_code asked instructing }
{
    owner_code(asked.kind, instructing, asked.debit)
}

// The code of the owner of the credited account, by what was found of InstdAgt.
pub fn credit_code(asked: Asked, instructed: Option<Listed>) -> Option<u64>
    ensures { result ≡ credit_code asked instructed }
{
    owner_code(asked.kind, instructed, asked.credit)
}

// Looks up in a lent directory, by its thin search, all that was asked for a sender.
#[tactic(auto, unfolding(crate::specs::Records::looked_for))]
pub fn look_up(dir: &[Participant], sender: u64, asked: Asked) -> Looked
    ensures { result ≡ looked_for dir.now sender asked }
{
    let instructing = find_given(dir, asked.instructing);
    let instructed = find_given(dir, asked.instructed);
    Looked {
        source: find(dir, sender),
        instructed,
        debtor: find_given(dir, asked.debtor),
        creditor: find_given(dir, asked.creditor),
        debit: find_given(dir, debit_code(asked, instructing)),
        credit: find_given(dir, credit_code(asked, instructed)),
    }
}

// The same among gathered records.
pub fn look_among(g: Gathered, sender: u64, asked: Asked) -> Looked
    ensures { result ≡ looked_for (records_in g) sender asked }
{
    look_up(g.as_slice(), sender, asked)
}
