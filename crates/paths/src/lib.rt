// A survey of a sheet: of each path that a message may ask for, how often it stands in the sheet and where.
// The sheet's elements are gone through once; a node of the tree of paths stands for each open element. It knows nothing of kinds and
// shapes. The tree stands in `specs/Tree.antt`, the survey in `specs/Survey.antt`.
#![tactic(auto)]

mod tree;

ghost use Rattle.std.specs.Prelude.{◌≡◌, [], ◌≤◌, take};
ghost use Rattle.sheet.specs.Grammar.{element_most};
ghost use Rattle.paths.specs.Survey.{unseen, seen_from, survey_of};

use outline::{name_at, names_around};
use sheet::{ELEMENT_MOST, Refused, Sheet, read};
pub use tree::NODES;
use tree::{ABOVE, child};

// How many names are in the path of an element right below the outer one.
const BODY_LEVEL: usize = 2;

// What was seen of a sheet: the number of elements right below the outer one, and for each node how often it stands and where it starts the
// last time. Two lists and no pairs: `unseen` and `noted` have them so.
#[derive(Clone, Copy)]
pub struct Standing {
    pub bodies: usize,
    pub counts: [usize; NODES],
    pub starts: [usize; NODES],
}

// The elements of a read sheet. The stack has the node of each open element, that of the top first.
fn walk(s: &[u8], sheet: &Sheet) -> Standing
    requires { sheet.now.count ≤ element_most }
    ensures { result ≡ seen_from s.now [] (take sheet.now.count sheet.now.starts) (take sheet.now.count sheet.now.depths) unseen }
{
    let mut stack = [ABOVE; ELEMENT_MOST + 1];
    let mut level = 0;
    let mut bodies = 0;
    let mut counts = [0usize; NODES];
    let mut starts = [0usize; NODES];
    // By number: the two lists have more places than the sheet has elements.
    for k in 0..sheet.count {
        let start = sheet.starts[k];
        level = names_around(sheet.depths[k], level);
        let node = child(stack[level], name_at(s, start));
        level += 1;
        stack[level] = node;
        bodies += usize::from(level == BODY_LEVEL);
        counts[node] += 1;
        starts[node] = start;
    }
    Standing {
        bodies,
        counts,
        starts,
    }
}

// Reads a sheet and goes through its elements once.
pub fn survey(s: &[u8]) -> Result<Standing, Refused>
    ensures { result ≡ survey_of s.now }
{
    let sheet = read(s)?;
    Ok(walk(s, &sheet))
}
