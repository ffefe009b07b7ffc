// The directory of a script: `forget` empties it, `record CODE INSTANT KIND NAMED` adds a record at its end.
use crate::line::Line;
use directory::{Gathered, Kind, Participant, RECORDS_MOST, no_records};

// A kind by its number, as the lines of a script give it: 0 owner, 1 direct branch, 2 indirect branch, 3 provider.
fn kind_of(number: u64, named: u64) -> Kind {
    match number {
        1 => Kind::Direct(named),
        2 => Kind::Indirect(named),
        3 => Kind::Provider(named),
        _ => Kind::Owner,
    }
}

fn record_in(line: &Line) -> Participant {
    let [code, instant, kind, named, ..] = line.values;
    Participant {
        code,
        instant: instant == 1,
        kind: kind_of(kind, named),
    }
}

// The directory after a line. A 17th record is counted, so that it is seen to be too long; after that it stays as it is.
pub fn directory_after(g: Gathered, line: &Line) -> Gathered {
    match line.word {
        b"forget" => no_records(),
        b"record" => {
            if RECORDS_MOST < g.count {
                return g;
            }
            g.with(record_in(line))
        }
        _ => g,
    }
}
