// What a step of the journal can be, by itself. The rules stand in `specs/Steps.antt`, one definition for each function.
ghost use Rattle.std.specs.Prelude.{◌≡◌, ◌&&◌, ℕ, leb, eqb};
ghost use Rattle.shape.specs.Bytes.{every};
ghost use Rattle.journal.specs.Steps.{seven_most, settings_fit, same_settings, no_settings, no_identifier, is_stored, is_stored_uetr, no_uetr};
ghost use Rattle.journal.specs.Steps.{no_message, no_movement, no_set, set_fits, moves, is_waiting, closes};
ghost use Rattle.journal.specs.Steps.{between, is_movement, movement_fits, uetr_fits, reference_fits, receiver_fits, answers_fits};
ghost use Rattle.journal.specs.Steps.{message_fits, step_fits, no_step};

use crate::results::result_fits;
use directory::CODE_MOST;
use layout::ACCOUNTS;
use layout::rows::{Settings, Step};
use shape::date::is_time;
use shape::field::is_identifier;
use shape::stored::{Identifier, NO_IDENTIFIER, NO_UETR, Uetr, identifier_of, text_of};
use slip::{ACCC, CAMT_050, PACS_002, PACS_008, STEPS, WAITS};
use table::is_rejecting;

// The kind of a set, by a number of the journal's own; messages have the numbers of their slips. A row of a room holds any number, so kinds and
// statuses stay numbers here: `step_fits` tells which are good.
pub const SET: u64 = 5;

// The highest opening sum, LTK and LPO, and the highest amount, in kopecks.
pub const SUM_MOST: u64 = 1000000000000000;

pub const AMOUNT_MOST: u64 = 9999999999999;

// The highest number of seven bytes.
const SEVEN_MOST: u64 = (1 << 56) - 1;

// The rows of zeros have the names of their definitions, which a `default()` would not have.
pub fn no_settings() -> Settings
    ensures { result ≡ no_settings }
{
    Settings {
        out: 0,
        into: 0,
        ltk: 0,
        lpo: 0,
    }
}

pub fn no_identifier() -> Identifier
    ensures { result ≡ no_identifier }
{
    NO_IDENTIFIER
}

// What stands where no step does.
pub fn no_step() -> Step
    ensures { result ≡ no_step }
{
    Step {
        kind: 0,
        status: 0,
        check: 0,
        sender: 0,
        id: no_identifier(),
        uetr: NO_UETR,
        created: 0,
        reference: no_identifier(),
        debit: 0,
        credit: 0,
        amount: 0,
        account: 0,
        old: no_settings(),
        given: no_settings(),
        receiver: 0,
        answers: 0,
    }
}

#[tactic(auto, unfolding(crate::specs::Steps::settings_fit))]
pub fn settings_fit(x: Settings) -> bool
    ensures { result ≡ settings_fit x }
{
    (x.out <= 1) & (x.into <= 1) & (x.ltk <= SUM_MOST) & (x.lpo <= SUM_MOST + 1)
}

// Whether there are zeros alone.
fn all_zeros(s: &[u8]) -> bool
    ensures { result ≡ every (λ (b : ℕ). eqb b 0) s.now }
{
    s.iter().all(|b| *b == 0)
}

// Whether each number has seven bytes.
fn is_low(x: Identifier) -> bool
    ensures { result ≡ (leb x.first seven_most && leb x.second seven_most && leb x.third seven_most && leb x.fourth seven_most && leb x.fifth seven_most) }
{
    (x.first <= SEVEN_MOST)
        & (x.second <= SEVEN_MOST)
        & (x.third <= SEVEN_MOST)
        & (x.fourth <= SEVEN_MOST)
        & (x.fifth <= SEVEN_MOST)
}

// Whether an identifier is stored so: the text that stands there is one, and is stored as these very numbers. They are those where nothing
// stands above seven bytes nor after the text; so it is in a fit room, and the text need not be stored again.
#[tactic(auto, unfolding(crate::specs::Steps::is_stored))]
fn is_stored(x: Identifier) -> bool
    ensures { result ≡ is_stored x }
{
    let text = text_of(x);
    let word = &text.bytes[..text.length];
    if !is_identifier(word) {
        return false;
    }
    if is_low(x) & all_zeros(&text.bytes[text.length..]) {
        return true;
    }
    identifier_of(word) == x
}

// Whether a UETR is stored so: the version's digit is 4 and the variant's 8 to b.
#[tactic(auto, unfolding(crate::specs::Steps::is_stored_uetr))]
fn is_stored_uetr(x: Uetr) -> bool
    ensures { result ≡ is_stored_uetr x }
{
    ((x.high >> 12) % 16 == 4) & (x.low >> 62 == 2)
}

#[tactic(auto, unfolding(crate::specs::Steps::no_uetr))]
fn no_uetr(x: Uetr) -> bool
    ensures { result ≡ no_uetr x }
{
    x == NO_UETR
}

#[tactic(auto, unfolding(crate::specs::Steps::no_message, shape::specs::Stored::same_identifier))]
fn no_message(x: Step) -> bool
    ensures { result ≡ no_message x }
{
    (x.status == 0)
        & (x.check == 0)
        & (x.sender == 0)
        & (x.id == no_identifier())
        & no_uetr(x.uetr)
        & (x.created == 0)
        & (x.reference == no_identifier())
        & (x.receiver == 0)
        & (x.answers == 0)
}

#[tactic(auto, unfolding(crate::specs::Steps::no_movement))]
fn no_movement(x: Step) -> bool
    ensures { result ≡ no_movement x }
{
    (x.debit == 0) & (x.credit == 0) & (x.amount == 0)
}

#[tactic(auto, unfolding(crate::specs::Steps::no_set, crate::specs::Steps::same_settings))]
fn no_set(x: Step) -> bool
    ensures { result ≡ no_set x }
{
    (x.account == 0) & (x.old == no_settings()) & (x.given == no_settings())
}

#[tactic(auto, unfolding(crate::specs::Steps::set_fits))]
fn set_fits(x: Step) -> bool
    ensures { result ≡ set_fits x }
{
    no_message(x)
        & no_movement(x)
        & (x.account < ACCOUNTS as u64)
        & settings_fit(x.old)
        & settings_fit(x.given)
}

// Whether a step moves money: it is a camt.050 or an answer that was carried out.
#[tactic(auto, unfolding(crate::specs::Steps::moves, slip::specs::Meaning::kind_number, slip::specs::Meaning::status_number))]
pub fn moves(x: Step) -> bool
    ensures { result ≡ moves x }
{
    (x.status == ACCC) & ((x.kind == CAMT_050) | (x.kind == PACS_002))
}

// Whether a step is a pacs.008 that waits for its answer, or did.
#[tactic(auto, unfolding(crate::specs::Steps::is_waiting, slip::specs::Meaning::kind_number, slip::specs::Meaning::status_number))]
pub fn is_waiting(x: Step) -> bool
    ensures { result ≡ is_waiting x }
{
    (x.kind == PACS_008) & (x.status == WAITS)
}

// Whether a step is an answer that settles or rejects the transfer that it names.
#[tactic(auto, unfolding(crate::specs::Steps::closes, slip::specs::Meaning::kind_number))]
fn closes(x: Step) -> bool
    ensures { result ≡ closes x }
{
    (x.kind == PACS_002) & ((x.check == 0) | is_rejecting(x.check))
}

// Whether the accounts of a movement are such as its kind moves between.
#[tactic(auto, unfolding(crate::specs::Steps::between, slip::specs::Meaning::kind_number))]
fn is_between(x: Step) -> bool
    ensures { result ≡ between x }
{
    if x.kind == CAMT_050 {
        (x.debit / 2 == x.credit / 2) & (x.debit != x.credit)
    } else {
        (x.debit % 2 == 1) & (x.credit % 2 == 1)
    }
}

#[tactic(auto, unfolding(crate::specs::Steps::is_movement))]
fn is_movement(x: Step) -> bool
    ensures { result ≡ is_movement x }
{
    matches!(x.amount, 1..=AMOUNT_MOST)
        & (x.debit < ACCOUNTS as u64)
        & (x.credit < ACCOUNTS as u64)
        & is_between(x)
}

#[tactic(auto, unfolding(crate::specs::Steps::movement_fits))]
fn movement_fits(x: Step) -> bool
    ensures { result ≡ movement_fits x }
{
    if moves(x) | is_waiting(x) {
        is_movement(x)
    } else {
        no_movement(x)
    }
}

#[tactic(auto, unfolding(crate::specs::Steps::uetr_fits, slip::specs::Meaning::kind_number))]
fn uetr_fits(x: Step) -> bool
    ensures { result ≡ uetr_fits x }
{
    if x.kind == PACS_002 {
        no_uetr(x.uetr)
    } else {
        is_stored_uetr(x.uetr)
    }
}

#[tactic(auto, unfolding(crate::specs::Steps::reference_fits, slip::specs::Meaning::kind_number, shape::specs::Stored::same_identifier))]
fn reference_fits(x: Step) -> bool
    ensures { result ≡ reference_fits x }
{
    if (x.kind == CAMT_050) | (x.kind == PACS_002) {
        x.reference == no_identifier()
    } else {
        is_stored(x.reference)
    }
}

#[tactic(auto, unfolding(crate::specs::Steps::receiver_fits))]
fn receiver_fits(x: Step) -> bool
    ensures { result ≡ receiver_fits x }
{
    if is_waiting(x) {
        x.receiver <= CODE_MOST
    } else {
        x.receiver == 0
    }
}

#[tactic(auto, unfolding(crate::specs::Steps::answers_fits))]
fn answers_fits(x: Step) -> bool
    ensures { result ≡ answers_fits x }
{
    if closes(x) {
        matches!(x.answers, 1..=STEPS)
    } else {
        x.answers == 0
    }
}

#[tactic(auto, unfolding(crate::specs::Steps::message_fits))]
fn message_fits(x: Step) -> bool
    ensures { result ≡ message_fits x }
{
    result_fits(x.kind, x.status, x.check)
        & (x.sender <= CODE_MOST)
        & is_stored(x.id)
        & uetr_fits(x)
        & is_time(x.created)
        & reference_fits(x)
        & movement_fits(x)
        & receiver_fits(x)
        & answers_fits(x)
        & no_set(x)
}

// Whether a step is one that a journal can have.
#[tactic(auto, unfolding(crate::specs::Steps::step_fits))]
pub fn step_fits(x: Step) -> bool
    ensures { result ≡ step_fits x }
{
    if x.kind == SET {
        set_fits(x)
    } else {
        message_fits(x)
    }
}
