// What a step does to a seat, when it is possible there, and taking the last step back. The rules stand in `specs/Working.antt`.
ghost use Rattle.std.specs.Prelude.{◌≡◌, true, ◌≤◌, ◌<◌, ◌-◌, length};
ghost use Rattle.slip.specs.Meaning.{steps};
ghost use Rattle.layout.specs.Seat.{accounts, seat_long, head_of, account_of, with_account};
ghost use Rattle.journal.specs.Low.{low_most, Low};
ghost use Rattle.journal.specs.Steps.{amount_most, step_fits};
ghost use Rattle.journal.specs.Working.{settled, debited, credited, turned, undebited, uncredited, unturned, moved, unmoved, effect, uneffect, stepped, last_step, backed, covered, possible};

use crate::answers::is_answerable;
use crate::steps::{SET, moves, no_step, step_fits};
use layout::rows::{Account, Head, Settings, Step};
use layout::{account, head, put_account, put_head, put_step, step};

// Other settings.
fn with_settings(a: Account, settings: Settings) -> Account
    ensures { result ≡ settled settings a }
{
    Account { settings, ..a }
}

// Money taken out, which counts as turnover.
fn debit(a: Account, n: u64) -> Account
    requires { (a.turnover ≤ low_most) × (n ≤ amount_most) }
    ensures { result ≡ debited n a }
{
    Account {
        balance: a.balance.saturating_sub(n),
        turnover: a.turnover + n,
        ..a
    }
}

// Money put in.
fn credit(a: Account, n: u64) -> Account
    requires { (a.balance ≤ low_most) × (n ≤ amount_most) }
    ensures { result ≡ credited n a }
{
    Account {
        balance: a.balance + n,
        ..a
    }
}

// Money taken out and put in again: the balance stays, turnover grows.
fn turn(a: Account, n: u64) -> Account
    requires { (a.turnover ≤ low_most) × (n ≤ amount_most) }
    ensures { result ≡ turned n a }
{
    Account {
        turnover: a.turnover + n,
        ..a
    }
}

// The three taken back.
fn undebit(a: Account, n: u64) -> Account
    requires { (a.balance ≤ low_most) × (n ≤ amount_most) }
    ensures { result ≡ undebited n a }
{
    Account {
        balance: a.balance + n,
        turnover: a.turnover.saturating_sub(n),
        ..a
    }
}

fn uncredit(a: Account, n: u64) -> Account
    ensures { result ≡ uncredited n a }
{
    Account {
        balance: a.balance.saturating_sub(n),
        ..a
    }
}

fn unturn(a: Account, n: u64) -> Account
    ensures { result ≡ unturned n a }
{
    Account {
        turnover: a.turnover.saturating_sub(n),
        ..a
    }
}

// One account changed.
fn change<F: FnOnce(Account) -> Account>(s: &mut [u64], i: u64, f: F)
    requires { (length s.old ≡ seat_long) × (i < accounts) × F.pre f (account_of s.old i) }
    ensures { (a : _) × F.post f (account_of s.old i) a × (s.new ≡ with_account s.old i a) }
{
    let i = i as usize;
    let a = account(s, i);
    put_account(s, i, f(a));
}

// The movement of a step.
#[tactic(auto, unfolding(crate::specs::Working::moved, crate::specs::Working::changed))]
fn move_money(s: &mut [u64], x: Step)
    requires { Low s.old × (x.debit < accounts) × (x.credit < accounts) × (x.amount ≤ amount_most) }
    ensures { s.new ≡ moved x s.old }
{
    if x.debit == x.credit {
        change(s, x.debit, |a| turn(a, x.amount));
    } else {
        change(s, x.debit, |a| debit(a, x.amount));
        change(s, x.credit, |a| credit(a, x.amount));
    }
}

// The movement of a step taken back. It is no one function with the movement itself: the order of the accounts and what is done to each differ.
#[tactic(auto, unfolding(crate::specs::Working::unmoved, crate::specs::Working::changed))]
fn move_back(s: &mut [u64], x: Step)
    requires { Low s.old × (x.debit < accounts) × (x.credit < accounts) × (x.amount ≤ amount_most) }
    ensures { s.new ≡ unmoved x s.old }
{
    if x.debit == x.credit {
        change(s, x.debit, |a| unturn(a, x.amount));
    } else {
        change(s, x.credit, |a| uncredit(a, x.amount));
        change(s, x.debit, |a| undebit(a, x.amount));
    }
}

// What a step does to the accounts.
#[tactic(auto, unfolding(crate::specs::Working::effect, crate::specs::Working::changed))]
fn do_effect(s: &mut [u64], x: Step)
    requires { Low s.old × (step_fits x ≡ true) }
    ensures { s.new ≡ effect x s.old }
{
    if x.kind == SET {
        change(s, x.account, |a| with_settings(a, x.given));
    } else if moves(x) {
        move_money(s, x);
    }
}

// And what it did, taken back. The two differ in which settings are given and in which movement runs, so one function would be handed both.
#[tactic(auto, unfolding(crate::specs::Working::uneffect, crate::specs::Working::changed))]
fn undo_effect(s: &mut [u64], x: Step)
    requires { Low s.old × (step_fits x ≡ true) }
    ensures { s.new ≡ uneffect x s.old }
{
    if x.kind == SET {
        change(s, x.account, |a| with_settings(a, x.old));
    } else if moves(x) {
        move_back(s, x);
    }
}

// One step more, in the first free place.
#[tactic(auto, unfolding(crate::specs::Working::stepped))]
pub fn append(s: &mut [u64], x: Step)
    requires { Low s.old × (step_fits x ≡ true) × ((head_of s.old).steps < steps) }
    ensures { s.new ≡ stepped x s.old }
{
    let h = head(s);
    do_effect(s, x);
    put_step(s, h.steps as usize, x);
    put_head(
        s,
        Head {
            steps: h.steps + 1,
            ..h
        },
    );
}

// The last step taken back: what it did is undone, and its place is zero again.
#[tactic(auto, unfolding(crate::specs::Working::backed))]
pub fn drop_last(s: &mut [u64])
    requires { Low s.old × (step_fits (last_step s.old) ≡ true) × (1 ≤ (head_of s.old).steps) × ((head_of s.old).steps ≤ steps) }
    ensures { s.new ≡ backed s.old }
{
    let h = head(s);
    let last = (h.steps - 1) as usize;
    let x = step(s, last);
    undo_effect(s, x);
    put_step(s, last, no_step());
    put_head(
        s,
        Head {
            steps: h.steps - 1,
            ..h
        },
    );
}

// Whether a set's old settings are those of the moment, and no balance falls below zero.
#[tactic(auto, unfolding(crate::specs::Working::covered, crate::specs::Steps::same_settings))]
fn is_covered(s: &[u64], x: Step) -> bool
    requires { (length s.now ≡ seat_long) × (step_fits x ≡ true) }
    ensures { result ≡ covered x s.now }
{
    if x.kind == SET {
        x.old == account(s, x.account as usize).settings
    } else if moves(x) && x.debit != x.credit {
        x.amount <= account(s, x.debit as usize).balance
    } else {
        true
    }
}

// Whether a step is possible in a seat.
#[tactic(auto, unfolding(crate::specs::Working::possible))]
pub fn is_possible(s: &[u64], x: Step) -> bool
    requires { (length s.now ≡ seat_long) × ((head_of s.now).steps ≤ steps) }
    ensures { result ≡ possible x s.now }
{
    step_fits(x) && is_covered(s, x) && is_answerable(s, x)
}
