// The first failing check of a message, in the order of its kind. The rules stand in `specs/Verdict.antt`.
// Here and in `repeats.rt`, `money.rt` and `outcome.rt` a case and a seat with at most 24 steps go through the functions side by side, with that fact
// in each clause: `fails`, `first_failing` and `step_by` are public over the two (docs/CONTRACTS.md), and one type of both would ask more of callers.
ghost use Rattle.std.specs.Prelude.{◌≡◌, ◌≤◌, length};
ghost use Rattle.slip.specs.Meaning.{steps};
ghost use Rattle.layout.specs.Seat.{seat_long, head_of};
ghost use Rattle.judge.specs.Verdict.{fails, verdict};

use crate::accounts::{
    amount_foreign, creditor_anothers, creditor_not_hryvnia, currencies_differ, debtor_anothers,
    debtor_not_hryvnia, digits_wrong,
};
use crate::case::Case;
use crate::header::{created_elsewhen, identifier_bad, not_from_sender, original_bad};
use crate::money::{
    credit_blocked, debit_blocked, limit_passed, limit_zero, money_short, movement_in,
};
use crate::repeats::{
    identifier_repeated, nothing_due, original_differs, original_unknown, uetr_repeated,
};
use crate::reply::{credit_refused, transfer_declined};
use crate::routing::{
    creditor_elsewhere, creditor_no_provider, creditor_not_instant, creditor_not_served,
    debtor_elsewhere, debtor_unlisted, iban_wrong, instructed_no_bank, instructing_not_serving,
    previous_not_serving,
};
use crate::sender::{sender_indirect, sender_no_owner, sender_not_instant, sender_unlisted};
use table::order_of;

// Whether the check with a number fails. The numbers are the document's own names of the checks, by which the theorems name them too.
#[tactic(auto, unfolding(crate::specs::Verdict::fails, crate::specs::Verdict::rows_of))]
pub fn fails(c: Case, s: &[u64], number: u64) -> bool
    requires { (length s.now ≡ seat_long) × ((head_of s.now).steps ≤ steps) }
    ensures { result ≡ fails c s.now number }
{
    match number {
        1 => sender_unlisted(c),
        2 => sender_indirect(c),
        3 => sender_not_instant(c),
        4 => sender_no_owner(c),
        5 => identifier_bad(c),
        6 => identifier_repeated(c, s),
        7 => created_elsewhen(c),
        8 => not_from_sender(c),
        9 => original_bad(c),
        10 => original_unknown(c, s),
        11 => original_differs(c, s),
        12 => creditor_anothers(c),
        13 => debtor_anothers(c),
        14 => currencies_differ(c),
        15 => digits_wrong(c),
        16 => amount_foreign(c),
        17 => uetr_repeated(c, s),
        18 => creditor_not_hryvnia(c),
        19 => debtor_not_hryvnia(c),
        20 => debit_blocked(movement_in(c, s), s),
        21 => credit_blocked(movement_in(c, s), s),
        22 => money_short(movement_in(c, s), s),
        23 => limit_passed(movement_in(c, s), s),
        24 => limit_zero(movement_in(c, s), s),
        25 => debtor_unlisted(c),
        26 => creditor_no_provider(c),
        27 => instructed_no_bank(c),
        28 => creditor_not_instant(c),
        29 => creditor_not_served(c),
        30 => debtor_elsewhere(c),
        31 => creditor_elsewhere(c),
        32 => previous_not_serving(c),
        33 => instructing_not_serving(c),
        34 => iban_wrong(c),
        35 => nothing_due(c, s),
        36 => transfer_declined(c),
        37 => credit_refused(c),
        _ => false,
    }
}

// The check that a message fails by, 0 where it fails by none: `verdict`, and `end_of`, `closed_by` and `step_by` which take it, are over ℕ.
pub fn first_failing(c: Case, s: &[u64]) -> u64
    requires { (length s.now ≡ seat_long) × ((head_of s.now).steps ≤ steps) }
    ensures { result ≡ verdict c s.now }
{
    for check in order_of(c.message.kind) {
        if fails(c, s, *check) {
            return *check;
        }
    }
    0
}
