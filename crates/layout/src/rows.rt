// The rows of a seat, each as a struct by value, read from and written to a part of exactly its length.
ghost use Rattle.std.specs.Prelude.{◌≡◌, ◌+◌, ◌≤◌, eqb, length};
ghost use Rattle.layout.specs.Rows.{head_long, head_row, head_in, account_long, account_row, account_in, step_long, step_row, step_in, settings_from, identifier_from};

use shape::stored::{Identifier, Uetr};

// How many numbers each row has.
pub const HEAD_LONG: usize = 3;

pub const ACCOUNT_LONG: usize = 7;

pub const STEP_LONG: usize = 31;

// Where a step names the step that it answers.
pub const ANSWERS_AT: usize = 30;

// A seat's head: how often it was opened, whether it is open (0 or 1), and how many steps its journal has.
#[derive(Clone, Copy, PartialEq, Eq, Debug)]
pub struct Head {
    pub opening: u64,
    pub opened: u64,
    pub steps: u64,
}

impl Head {
    // The number of a row is 0 or 1 in a fit room and any number in another one.
    pub fn is_open(self) -> bool
        ensures { result ≡ eqb self.opened 1 }
    {
        self.opened == 1
    }
}

// What a set call gives: both blocks (0 or 1), LTK, and LPO as 0 for none and n + 1 for n.
#[derive(Clone, Copy, PartialEq, Eq, Debug)]
pub struct Settings {
    pub out: u64,
    pub into: u64,
    pub ltk: u64,
    pub lpo: u64,
}

// An account, in kopecks.
#[derive(Clone, Copy, PartialEq, Eq, Debug)]
pub struct Account {
    pub opening: u64,
    pub balance: u64,
    pub turnover: u64,
    pub settings: Settings,
}

// A step of the journal. What its kind lacks is zero.
#[derive(Clone, Copy, PartialEq, Eq, Debug)]
pub struct Step {
    // 1 pacs.008, 2 camt.050, 3 pacs.028, 4 pacs.002, 5 a set; 0 for no step
    pub kind: u64,
    pub status: u64,
    pub check: u64,
    pub sender: u64,
    pub id: Identifier,
    pub uetr: Uetr,
    pub created: u64,
    pub reference: Identifier,
    // What was moved, or of a waiting transfer what is to be: two accounts of the seat by number, and kopecks.
    pub debit: u64,
    pub credit: u64,
    pub amount: u64,
    // Of a set: the account by number, its settings before and after.
    pub account: u64,
    pub old: Settings,
    pub given: Settings,
    // Of a pacs.008 that waits or waited: the code of the bank that is to answer.
    pub receiver: u64,
    // Of an answer that settles or rejects a transfer: the number of the transfer's step, from 1 on.
    pub answers: u64,
}

#[tactic(auto, unfolding(crate::specs::Rows::head_in))]
pub fn read_head(s: &[u64]) -> Head
    requires { length s.now ≡ head_long }
    ensures { result ≡ head_in s.now }
{
    Head {
        opening: s[0],
        opened: s[1],
        steps: s[2],
    }
}

#[tactic(auto, unfolding(crate::specs::Rows::head_row))]
pub fn write_head(s: &mut [u64], h: Head)
    requires { length s.old ≡ head_long }
    ensures { s.new ≡ head_row h }
{
    s.copy_from_slice(&[h.opening, h.opened, h.steps]);
}

// The settings and the identifier that stand from a place of a row on.
#[tactic(auto, using(crate::proofs::RowLaws::in_a_block))]
fn settings_from(s: &[u64], from: usize) -> Settings
    requires { from + 4 ≤ length s.now }
    ensures { result ≡ settings_from s.now from }
{
    Settings {
        out: s[from],
        into: s[from + 1],
        ltk: s[from + 2],
        lpo: s[from + 3],
    }
}

#[tactic(auto, using(crate::proofs::RowLaws::in_a_block))]
fn identifier_from(s: &[u64], from: usize) -> Identifier
    requires { from + 5 ≤ length s.now }
    ensures { result ≡ identifier_from s.now from }
{
    Identifier {
        first: s[from],
        second: s[from + 1],
        third: s[from + 2],
        fourth: s[from + 3],
        fifth: s[from + 4],
    }
}

#[tactic(auto, unfolding(crate::specs::Rows::account_in))]
pub fn read_account(s: &[u64]) -> Account
    requires { length s.now ≡ account_long }
    ensures { result ≡ account_in s.now }
{
    Account {
        opening: s[0],
        balance: s[1],
        turnover: s[2],
        settings: settings_from(s, 3),
    }
}

#[tactic(auto, unfolding(crate::specs::Rows::account_row))]
pub fn write_account(s: &mut [u64], a: Account)
    requires { length s.old ≡ account_long }
    ensures { s.new ≡ account_row a }
{
    s.copy_from_slice(&[
        a.opening,
        a.balance,
        a.turnover,
        a.settings.out,
        a.settings.into,
        a.settings.ltk,
        a.settings.lpo,
    ]);
}

#[tactic(auto, unfolding(crate::specs::Rows::step_in))]
pub fn read_step(s: &[u64]) -> Step
    requires { length s.now ≡ step_long }
    ensures { result ≡ step_in s.now }
{
    Step {
        kind: s[0],
        status: s[1],
        check: s[2],
        sender: s[3],
        id: identifier_from(s, 4),
        uetr: Uetr {
            high: s[9],
            low: s[10],
        },
        created: s[11],
        reference: identifier_from(s, 12),
        debit: s[17],
        credit: s[18],
        amount: s[19],
        account: s[20],
        old: settings_from(s, 21),
        given: settings_from(s, 25),
        receiver: s[29],
        answers: s[ANSWERS_AT],
    }
}

#[tactic(auto, unfolding(crate::specs::Rows::step_row))]
pub fn write_step(s: &mut [u64], x: Step)
    requires { length s.old ≡ step_long }
    ensures { s.new ≡ step_row x }
{
    s.copy_from_slice(&[
        x.kind,
        x.status,
        x.check,
        x.sender,
        x.id.first,
        x.id.second,
        x.id.third,
        x.id.fourth,
        x.id.fifth,
        x.uetr.high,
        x.uetr.low,
        x.created,
        x.reference.first,
        x.reference.second,
        x.reference.third,
        x.reference.fourth,
        x.reference.fifth,
        x.debit,
        x.credit,
        x.amount,
        x.account,
        x.old.out,
        x.old.into,
        x.old.ltk,
        x.old.lpo,
        x.given.out,
        x.given.into,
        x.given.ltk,
        x.given.lpo,
        x.receiver,
        x.answers,
    ]);
}
