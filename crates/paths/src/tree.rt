// The paths of all fields as one tree of names. A node is an element's name below another node, so a path is a walk from the top.
// The nodes stand breadth first: those below a node stand side by side, from the node's first one up to the next node's first one.
// Node 0 is nowhere: no path of the tree. Node 1 stands above the outer element.
// `tests/tree.py` writes the numbers and the two tables from the paths in `message/specs/Fields.antt`.
ghost use Rattle.std.specs.Prelude.{◌≡◌, ◌<◌};
ghost use Rattle.outline.specs.Paths.{same_name};
ghost use Rattle.paths.specs.Tree.{nodes, name_of, child_of};

// A node like the others, which is counted too: `child_of` gives it for a name that no path has.
pub const NOWHERE: usize = 0;

pub const ABOVE: usize = 1;

// How many nodes there are, these two among them.
pub const NODES: usize = 82;

// The bytes of a name with the blanks after it, of which there is one at least.
const NAME_WIDE: usize = 18;

// The name of each node, with blanks after it; no slices, since the definition `names` has it so and `tests/tree.py` writes both.
static NAMES: [[u8; NAME_WIDE]; NODES] = [
    *b"                  ",
    *b"                  ",
    *b"Document          ",
    *b"FIToFICstmrCdtTrf ",
    *b"LqdyCdtTrf        ",
    *b"FIToFIPmtStsReq   ",
    *b"FIToFIPmtStsRpt   ",
    *b"GrpHdr            ",
    *b"CdtTrfTxInf       ",
    *b"MsgHdr            ",
    *b"LqdyCdtTrf        ",
    *b"GrpHdr            ",
    *b"TxInf             ",
    *b"GrpHdr            ",
    *b"OrgnlGrpInfAndSts ",
    *b"TxInfAndSts       ",
    *b"MsgId             ",
    *b"CreDtTm           ",
    *b"InstgAgt          ",
    *b"InstdAgt          ",
    *b"PmtId             ",
    *b"IntrBkSttlmAmt    ",
    *b"PrvsInstgAgt1     ",
    *b"DbtrAgt           ",
    *b"DbtrAcct          ",
    *b"CdtrAgt           ",
    *b"CdtrAcct          ",
    *b"MsgId             ",
    *b"CreDtTm           ",
    *b"LqdyTrfId         ",
    *b"MsgId             ",
    *b"CreDtTm           ",
    *b"InstgAgt          ",
    *b"OrgnlGrpInf       ",
    *b"OrgnlUETR         ",
    *b"OrgnlEndToEndId   ",
    *b"MsgId             ",
    *b"CreDtTm           ",
    *b"OrgnlMsgId        ",
    *b"GrpSts            ",
    *b"TxSts             ",
    *b"FinInstnId        ",
    *b"FinInstnId        ",
    *b"EndToEndId        ",
    *b"UETR              ",
    *b"FinInstnId        ",
    *b"FinInstnId        ",
    *b"Id                ",
    *b"FinInstnId        ",
    *b"Id                ",
    *b"UETR              ",
    *b"TrfdAmt           ",
    *b"DbtrAcct          ",
    *b"CdtrAcct          ",
    *b"FinInstnId        ",
    *b"OrgnlMsgId        ",
    *b"OrgnlMsgNmId      ",
    *b"OrgnlCreDtTm      ",
    *b"ClrSysMmbId       ",
    *b"ClrSysMmbId       ",
    *b"ClrSysMmbId       ",
    *b"ClrSysMmbId       ",
    *b"IBAN              ",
    *b"ClrSysMmbId       ",
    *b"IBAN              ",
    *b"Id                ",
    *b"Id                ",
    *b"ClrSysMmbId       ",
    *b"MmbId             ",
    *b"MmbId             ",
    *b"MmbId             ",
    *b"ClrSysId          ",
    *b"MmbId             ",
    *b"ClrSysId          ",
    *b"MmbId             ",
    *b"Othr              ",
    *b"Othr              ",
    *b"MmbId             ",
    *b"Prtry             ",
    *b"Prtry             ",
    *b"Id                ",
    *b"Id                ",
];

// The first node below each node; one entry more, where the last one's end.
static FIRSTS: [usize; NODES + 1] = [
    2, 2, 3, 7, 9, 11, 13, 16, 20, 27, 29, 30, 33, 36, 38, 40, 41, 41, 41, 42, 43, 45, 45, 46, 47,
    48, 49, 50, 50, 50, 54, 54, 54, 55, 58, 58, 58, 58, 58, 58, 58, 58, 59, 60, 60, 60, 61, 62, 63,
    64, 65, 65, 65, 66, 67, 68, 68, 68, 68, 69, 70, 71, 73, 73, 75, 75, 76, 77, 78, 78, 78, 78, 79,
    79, 80, 80, 81, 82, 82, 82, 82, 82, 82,
];

// Whether a name is the node's. A blank ends the node's name and is in no other.
fn is_named(node: usize, name: &[u8]) -> bool
    requires { node < nodes }
    ensures { result ≡ same_name (name_of node) name.now }
{
    if NAME_WIDE <= name.len() {
        return false;
    }
    let line = &NAMES[node];
    for (i, b) in name.iter().enumerate() {
        if line[i] != *b || *b == b' ' {
            return false;
        }
    }
    line[name.len()] == b' '
}

// The node of a name below a node, or nowhere.
pub fn child(node: usize, name: &[u8]) -> usize
    requires { node < nodes }
    ensures value { result ≡ child_of node name.now }
    ensures upper_bound { result < nodes }
{
    for below in FIRSTS[node]..FIRSTS[node + 1] {
        if is_named(below, name) {
            return below;
        }
    }
    NOWHERE
}
