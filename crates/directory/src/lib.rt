// The directory: who takes part, what it means to be listed, and whose accounts a participant uses. Document 01, "Room, seats, directory".
// All definitions are over the list of participants (`specs/Directory.antt`). The code goes through a lent list to find a code's record and to
// gather the records for the test of fitness; everything else works on what was found. What was gathered is lent as such a list again.
#![tactic(auto)]

ghost use Rattle.std.specs.Prelude.{◌≡◌, ◌<◌, ◌^◌, leb};
ghost use Rattle.shape.specs.Bytes.{every};
ghost use Rattle.directory.specs.declared.Participant.{Participant};
ghost use Rattle.directory.specs.Directory.{code_most, found, is_owner, owner_found, names, ascending, is_listed, is_instant, in_sep, account_code, under_sep, under_asp, head_in, bank_in, is_bank, bank_found, place_in, account_in, found_as};
ghost use Rattle.directory.specs.Gathering.{nobody, none_gathered, added, gathered, records_in, fit_gathered};

// The most records, and the highest code.
pub const RECORDS_MOST: usize = 16;

pub const CODE_MOST: u64 = 999999;

// What a participant is: an owner of accounts, or a branch or provider, with the code of its head or serving bank.
#[derive(Clone, Copy, PartialEq, Eq, Debug)]
pub enum Kind {
    Owner,
    Direct(u64),
    Indirect(u64),
    Provider(u64),
}

// A record of the directory.
#[derive(Clone, Copy, PartialEq, Eq, Debug)]
pub struct Participant {
    pub code: u64,
    pub instant: bool,
    pub kind: Kind,
}

// A record of the directory and its place in the list.
#[derive(Clone, Copy, PartialEq, Eq, Debug)]
pub struct Listed {
    pub place: usize,
    pub participant: Participant,
}

// The first records of a directory, as many as a fit one has, and how many it has in all: by value, since nothing here is on a heap.
#[derive(Clone, Copy)]
pub struct Gathered {
    pub count: usize,
    pub records: [Participant; RECORDS_MOST],
}

fn nobody() -> Participant
    ensures { result ≡ nobody }
{
    Participant {
        code: 0,
        instant: false,
        kind: Kind::Owner,
    }
}

// A directory with no record yet.
pub fn no_records() -> Gathered
    ensures { result ≡ none_gathered }
{
    Gathered {
        count: 0,
        records: [nobody(); RECORDS_MOST],
    }
}

impl Gathered {
    // One record more: in the next place while there is one, and counted in any case. In place, so that a long directory is gathered without a copy
    // of the records for each of its own.
    #[tactic(auto, unfolding(crate::specs::Gathering::added))]
    pub fn add(&mut self, p: Participant)
        requires { self.old.count < 2 ^ 63 }
        ensures { self.new ≡ added self.old p }
    {
        let at = self.count;
        if at < RECORDS_MOST {
            self.records[at] = p;
        }
        self.count = at + 1;
    }

    // The same, as a value.
    pub fn with(self, p: Participant) -> Gathered
        requires { self.count < 2 ^ 63 }
        ensures { result ≡ added self p }
    {
        let mut next = self;
        next.add(p);
        next
    }

    // The records that were gathered; past the places there are none.
    pub fn as_slice(&self) -> &[Participant]
        ensures { result.now ≡ records_in self.now }
    {
        &self.records[..self.count.min(RECORDS_MOST)]
    }
}

// The first records of a directory, and how many it has.
#[tactic(auto, using(crate::proofs::Folds::loop_of_gather))]
pub fn gather(dir: &[Participant]) -> Gathered
    ensures { result ≡ gathered dir.now }
{
    let mut out = no_records();
    for p in dir {
        out.add(*p);
    }
    out
}

// The record of a code.
#[tactic(auto, using(crate::proofs::Folds::loop_of_find), unfolding(crate::specs::Directory::found))]
pub fn find(dir: &[Participant], code: u64) -> Option<Listed>
    ensures { result ≡ found dir.now code }
{
    for (place, p) in dir.iter().enumerate() {
        if p.code == code {
            return Some(Listed {
                place,
                participant: *p,
            });
        }
    }
    None
}

// The record of a code that may not be given.
pub fn find_given(dir: &[Participant], code: Option<u64>) -> Option<Listed>
    ensures { result ≡ found_as dir.now code }
{
    code.and_then(|n| find(dir, n))
}

// What a kind is stands in functions of their own, by the names of their definitions: methods would say no more.
pub fn is_owner(kind: Kind) -> bool
    ensures { result ≡ is_owner kind }
{
    matches!(kind, Kind::Owner)
}

// The record of a code among the gathered ones.
pub fn find_in(g: Gathered, code: u64) -> Option<Listed>
    ensures { result ≡ found (records_in g) code }
{
    find(g.as_slice(), code)
}

// The same of a code that may not be given. Nothing here calls it, nor `place_in`: docs/CONTRACTS.md names both, so both stay.
pub fn find_as(g: Gathered, code: Option<u64>) -> Option<Listed>
    ensures { result ≡ found_as (records_in g) code }
{
    find_given(g.as_slice(), code)
}

// Whether what was found of a code is an owner.
pub fn is_owner_found(f: Option<Listed>) -> bool
    ensures { result ≡ owner_found f }
{
    f.is_some_and(|l| is_owner(l.participant.kind))
}

// Whether a participant is an owner or names one of the list.
fn names_owner(dir: &[Participant], kind: Kind) -> bool
    ensures { result ≡ names dir.now kind }
{
    match kind {
        Kind::Owner => true,
        Kind::Direct(owner) | Kind::Indirect(owner) | Kind::Provider(owner) => {
            is_owner_found(find(dir, owner))
        }
    }
}

// Whether all records name an owner of the list.
fn all_name_owners(dir: &[Participant]) -> bool
    ensures { result ≡ every (λ (p : Participant). names dir.now p.kind) dir.now }
{
    dir.iter().all(|p| names_owner(dir, p.kind))
}

// Whether all codes are codes.
fn all_codes(dir: &[Participant]) -> bool
    ensures { result ≡ every (λ (p : Participant). leb p.code code_most) dir.now }
{
    dir.iter().all(|p| p.code <= CODE_MOST)
}

// Whether the codes ascend.
fn ascends(dir: &[Participant]) -> bool
    ensures { result ≡ ascending dir.now }
{
    dir.is_sorted_by(|p, q| p.code < q.code)
}

// Whether the directory that was gathered is fit.
#[tactic(auto, unfolding(crate::specs::Gathering::fit_gathered))]
pub fn fits(g: Gathered) -> bool
    ensures { result ≡ fit_gathered g }
{
    if !matches!(g.count, 1..=RECORDS_MOST) {
        return false;
    }
    let dir = g.as_slice();
    all_codes(dir) & ascends(dir) & all_name_owners(dir)
}

// Whether `SEP` lists what is of this kind; `ASP` lists the others.
pub fn in_sep(kind: Kind) -> bool
    ensures { result ≡ in_sep kind }
{
    !matches!(kind, Kind::Provider(_))
}

// The code whose accounts a participant uses: its own, its head's, or none's.
pub fn account_code(p: Participant) -> Option<u64>
    ensures { result ≡ account_code p.code p.kind }
{
    match p.kind {
        Kind::Owner => Some(p.code),
        Kind::Direct(head) => Some(head),
        Kind::Indirect(_) | Kind::Provider(_) => None,
    }
}

// Whether what was found of a code is listed at all: docs/CONTRACTS.md names it, so it stays beside `is_some`.
pub fn is_listed(f: Option<Listed>) -> bool
    ensures { result ≡ is_listed f }
{
    f.is_some()
}

// Whether it is listed and instant.
pub fn is_instant(f: Option<Listed>) -> bool
    ensures { result ≡ is_instant f }
{
    f.is_some_and(|l| l.participant.instant)
}

// Whether what was found of a code is listed under `SEP`.
pub fn under_sep(f: Option<Listed>) -> bool
    ensures { result ≡ under_sep f }
{
    f.is_some_and(|l| in_sep(l.participant.kind))
}

// Whether it is listed under `ASP`.
pub fn under_asp(f: Option<Listed>) -> bool
    ensures { result ≡ under_asp f }
{
    f.is_some_and(|l| !in_sep(l.participant.kind))
}

// The head of what is listed as an indirect branch.
pub fn head_in(f: Option<Listed>) -> Option<u64>
    ensures { result ≡ head_in f }
{
    match f?.participant.kind {
        Kind::Indirect(head) => Some(head),
        _ => None,
    }
}

// The bank that serves what is listed as a provider.
pub fn bank_in(f: Option<Listed>) -> Option<u64>
    ensures { result ≡ bank_in f }
{
    match f?.participant.kind {
        Kind::Provider(bank) => Some(bank),
        _ => None,
    }
}

fn is_bank(kind: Kind) -> bool
    ensures { result ≡ is_bank kind }
{
    matches!(kind, Kind::Owner | Kind::Direct(_))
}

// Whether it is listed as an owner or a direct branch.
pub fn is_bank_found(f: Option<Listed>) -> bool
    ensures { result ≡ bank_found f }
{
    f.is_some_and(|l| is_bank(l.participant.kind))
}

// The place of what was found.
pub fn place_in(f: Option<Listed>) -> Option<u64>
    ensures { result ≡ place_in f }
{
    f.map(|l| l.place as u64)
}

// The code whose accounts are used by what was found; its record is then looked up in turn.
pub fn account_in(f: Option<Listed>) -> Option<u64>
    ensures { result ≡ account_in f }
{
    f.and_then(|l| account_code(l.participant))
}
