// The list of banks, which lines name one after the other.
ghost use Rattle.std.specs.Prelude.{◌≡◌};
ghost use Rattle.directory.specs.Gathering.{none_gathered};
ghost use Rattle.class.specs.Banks.{bank_of, with_bank, with_line};

use directory::{Gathered, Kind, Participant, RECORDS_MOST, no_records};
use script::{Line, Word};

// The list with no bank: directory's. The function is public, so it stays.
pub fn no_banks() -> Gathered
    ensures { result ≡ none_gathered }
{
    no_records()
}

// One bank more, at the end. A 17th is counted, so that the list is seen to be too long; after it nothing changes any more.
// It is no method of directory's, whose `with` promises `added`: that counts every record.
#[tactic(auto, unfolding(crate::specs::Banks::with_bank))]
fn with_bank(g: Gathered, p: Participant) -> Gathered
    ensures { result ≡ with_bank g p }
{
    if RECORDS_MOST < g.count {
        return g;
    }
    g.with(p)
}

#[tactic(auto, unfolding(crate::specs::Banks::bank_of))]
fn bank(code: u64, instant: u64, kind: Kind) -> Participant
    ensures { result ≡ bank_of code instant kind }
{
    Participant {
        code,
        instant: instant == 1,
        kind,
    }
}

// The list of banks after a line.
#[tactic(auto, unfolding(crate::specs::Banks::with_line, crate::specs::Banks::with_word))]
pub fn with_line(g: Gathered, line: Line) -> Gathered
    ensures { result ≡ with_line g line }
{
    if !line.good {
        return g;
    }
    // An owner's line names no other bank, so what it says of instant payments stands second.
    let [code, named, instant, ..] = line.values;
    match line.word {
        Word::Nobody => no_banks(),
        Word::Owner => with_bank(g, bank(code, line.values[1], Kind::Owner)),
        Word::Direct => with_bank(g, bank(code, instant, Kind::Direct(named))),
        Word::Indirect => with_bank(g, bank(code, instant, Kind::Indirect(named))),
        Word::Provider => with_bank(g, bank(code, instant, Kind::Provider(named))),
        _ => g,
    }
}
