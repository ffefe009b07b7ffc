// The directory that C lends, four numbers a record, gathered as `directory` gathers a lent slice of records. The form stands in
// `specs/Flat.antt`.
ghost use Rattle.std.specs.Prelude.{◌≡◌};
ghost use Rattle.directory.specs.Gathering.{gathered};
ghost use Rattle.damvurit.specs.Flat.{record_in, flat_directory};

use directory::{Gathered, Kind, Participant, no_records};

// How many numbers a record has.
const RECORD_LONG: usize = 4;

// The record that a row of numbers is, or none.
#[tactic(auto, unfolding(crate::specs::Flat::record_in, crate::specs::Flat::record_good, crate::specs::Flat::record_of, crate::specs::Flat::kind_of))]
fn record_in(row: &[u64]) -> Option<Participant>
    ensures { result ≡ record_in row.now }
{
    let [code, instant, kind, named] = *row else {
        return None;
    };
    let instant = match instant {
        0 => false,
        1 => true,
        _ => return None,
    };
    let kind = match kind {
        0 if named == 0 => Kind::Owner,
        1 => Kind::Direct(named),
        2 => Kind::Indirect(named),
        3 => Kind::Provider(named),
        _ => return None,
    };
    Some(Participant {
        code,
        instant,
        kind,
    })
}

// The records of the directory, or none where the numbers are no directory.
pub fn gather_flat(dir: &[u64]) -> Gathered
    ensures { result ≡ gathered (flat_directory dir.now) }
{
    let mut out = no_records();
    for row in dir.chunks(RECORD_LONG) {
        let Some(record) = record_in(row) else {
            return no_records();
        };
        out.add(record);
    }
    out
}
