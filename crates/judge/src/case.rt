// What the checks look at beside the seat: the message, its sender, the call's date, and what the directory says. The rules stand in
// `specs/Case.antt`.
ghost use Rattle.std.specs.Prelude.{◌≡◌, true};
ghost use Rattle.directory.specs.Gathering.{records_in, fit_gathered};
ghost use Rattle.seat.specs.Calls.{place_fits};
ghost use Rattle.judge.specs.Case.{account_on, movement_of, case_from, case_of};

use crate::records::{asked_by, look_among};
use directory::{Gathered, Listed};
use message::Message;
use seat::account_found;
use table::Kind;

// The debited and the credited account by their numbers in the seat, and the amount in kopecks.
#[derive(Clone, Copy)]
pub struct Movement {
    pub debit: Option<u64>,
    pub credit: Option<u64>,
    pub amount: u64,
}

// No accounts and no money.
pub const NO_MOVEMENT: Movement = Movement {
    debit: None,
    credit: None,
    amount: 0,
};

// What was found in the directory of the sender, of the agents and of the owners of the accounts that a message moves money between.
#[derive(Clone, Copy)]
pub struct Looked {
    // The sender's record.
    pub source: Option<Listed>,
    // The records of InstdAgt, DbtrAgt and CdtrAgt.
    pub instructed: Option<Listed>,
    pub debtor: Option<Listed>,
    pub creditor: Option<Listed>,
    // The records of the owners of the debited and of the credited account.
    pub debit: Option<Listed>,
    pub credit: Option<Listed>,
}

// A message, who sent it and when, and what was found in the directory. The records stand here by themselves, not as a `Looked`: the rules and
// theorems over a case name them so, and the two owners' records have become the movement.
#[derive(Clone, Copy)]
pub struct Case {
    pub message: Message,
    pub sender: u64,
    pub today: u64,
    // The sender's record.
    pub source: Option<Listed>,
    // The records of InstdAgt, DbtrAgt and CdtrAgt.
    pub instructed: Option<Listed>,
    pub debtor: Option<Listed>,
    pub creditor: Option<Listed>,
    pub movement: Movement,
}

// Which of an owner's two accounts a pacs.008 moves money between.
const PACS_008_ACCOUNT: u64 = 2;

// Which of an owner's two accounts, 0 for none, as `account_on` and `account_found` count them.
#[tactic(auto, unfolding(crate::specs::Case::account_on))]
fn account_on(kind: Kind, digit: u64) -> u64
    ensures { result ≡ account_on kind digit }
{
    match kind {
        Kind::Pacs008 => PACS_008_ACCOUNT,
        Kind::Camt050 => digit,
        Kind::Pacs028 | Kind::Pacs002 => 0,
    }
}

// What a message moves between the accounts of two owners. That each owner has a place stands in the clauses here and of `case_from`, which
// docs/CONTRACTS.md names: a `Listed` or `Looked` that has it by itself would ask more of everybody who makes one.
#[tactic(auto, unfolding(crate::specs::Case::movement_of, crate::specs::Values::or_zero))]
pub fn movement_of(m: Message, from: Option<Listed>, to: Option<Listed>) -> Movement
    requires { (place_fits from ≡ true) × (place_fits to ≡ true) }
    ensures { result ≡ movement_of m from to }
{
    Movement {
        debit: account_found(from, account_on(m.kind, m.debit.digit)),
        credit: account_found(to, account_on(m.kind, m.credit.digit)),
        amount: m.amount.unwrap_or(0),
    }
}

// The case of a message, by what was looked up for it.
pub fn case_from(looked: Looked, sender: u64, today: u64, m: Message) -> Case
    requires { (place_fits looked.debit ≡ true) × (place_fits looked.credit ≡ true) }
    ensures { result ≡ case_from looked sender today m }
{
    Case {
        message: m,
        sender,
        today,
        source: looked.source,
        instructed: looked.instructed,
        debtor: looked.debtor,
        creditor: looked.creditor,
        movement: movement_of(m, looked.debit, looked.credit),
    }
}

// The case of a message, by the records of a directory that is fit.
pub fn case_of(g: Gathered, sender: u64, today: u64, m: Message) -> Case
    requires { fit_gathered g ≡ true }
    ensures { result ≡ case_of (records_in g) sender today m }
{
    let looked = look_among(g, sender, asked_by(m));
    case_from(looked, sender, today, m)
}
