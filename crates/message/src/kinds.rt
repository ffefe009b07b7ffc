// The fields of each kind of message: document 01, "Fields", and request 9 of document 02. A field's number is its place in the kind's table, from 1 on.
// `tests/tree.py` writes each node, of a body and of a field, from the paths in `specs/Fields.antt`.
ghost use Rattle.std.specs.Prelude.{◌≡◌, map};
ghost use Rattle.message.specs.Fields.{fields_of, numbers_of};
ghost use Rattle.message.specs.Seen.{entry_of, kind_seen};

use paths::NODES;
use table::Kind;

// What a field's text has to be.
#[derive(Clone, Copy)]
pub enum Shape {
    Identifier,
    Time,
    Code,
    System,
    Uetr,
    Amount,
    Iban,
    Account,
    Original,
    GroupStatus,
    TransactionStatus,
}

// Whether a field has a Ccy: none, any, or that of the hryvnia.
#[derive(Clone, Copy)]
pub enum Ccy {
    Absent,
    Any,
    Hryvnia,
}

// A field: the node of its path, and what is asked of it.
#[derive(Clone, Copy)]
pub struct Entry {
    pub node: usize,
    pub optional: bool,
    pub shape: Shape,
    pub ccy: Ccy,
}

// The numbers of an agent's two fields: which system lists it, and its code.
#[derive(Clone, Copy)]
pub struct AgentNumbers {
    pub system: usize,
    pub code: usize,
}

// The numbers of a kind's fields by what they say; 0 for a field that the kind lacks, as the definition `numbers_of` has it.
#[derive(Clone, Copy)]
pub struct Numbers {
    pub id: usize,
    pub created: usize,
    pub instructing: usize,
    pub instructed: usize,
    pub reference: usize,
    pub uetr: usize,
    pub amount: usize,
    pub previous: usize,
    pub debtor: AgentNumbers,
    pub creditor: AgentNumbers,
    pub iban: usize,
    pub debit: usize,
    pub credit: usize,
    pub original: usize,
    pub originated: usize,
    pub group: usize,
    pub transaction: usize,
}

// How many fields each kind has, and the most that one has.
const PACS_008_FIELDS: usize = 14;

const CAMT_050_FIELDS: usize = 6;

const PACS_028_FIELDS: usize = 8;

const PACS_002_FIELDS: usize = 5;

pub const FIELDS_MOST: usize = PACS_008_FIELDS;

// The node of the path that names each kind.
const PACS_008_BODY: usize = 3;

const CAMT_050_BODY: usize = 4;

const PACS_028_BODY: usize = 5;

const PACS_002_BODY: usize = 6;

// A field of a shape; one that may be missing; an amount, which has a Ccy.
macro_rules! field {
    (node: $node:literal, shape: $shape:ident) => {
        Entry {
            node: $node,
            optional: false,
            shape: Shape::$shape,
            ccy: Ccy::Absent,
        }
    };
}

macro_rules! optional {
    (node: $node:literal, shape: $shape:ident) => {
        Entry {
            node: $node,
            optional: true,
            shape: Shape::$shape,
            ccy: Ccy::Absent,
        }
    };
}

macro_rules! amount {
    (node: $node:literal, ccy: $ccy:ident) => {
        Entry {
            node: $node,
            optional: false,
            shape: Shape::Amount,
            ccy: Ccy::$ccy,
        }
    };
}

const PACS_008: [Entry; PACS_008_FIELDS] = [
    field!(node: 16, shape: Identifier),
    field!(node: 17, shape: Time),
    field!(node: 68, shape: Code),
    field!(node: 69, shape: Code),
    field!(node: 43, shape: Identifier),
    field!(node: 44, shape: Uetr),
    amount!(node: 21, ccy: Hryvnia),
    optional!(node: 70, shape: Code),
    field!(node: 78, shape: System),
    field!(node: 72, shape: Code),
    field!(node: 62, shape: Iban),
    field!(node: 79, shape: System),
    field!(node: 74, shape: Code),
    field!(node: 64, shape: Iban),
];

const CAMT_050: [Entry; CAMT_050_FIELDS] = [
    field!(node: 27, shape: Identifier),
    field!(node: 28, shape: Time),
    field!(node: 50, shape: Uetr),
    amount!(node: 51, ccy: Any),
    field!(node: 80, shape: Account),
    field!(node: 81, shape: Account),
];

const PACS_028: [Entry; PACS_028_FIELDS] = [
    field!(node: 30, shape: Identifier),
    field!(node: 31, shape: Time),
    field!(node: 77, shape: Code),
    field!(node: 55, shape: Identifier),
    field!(node: 56, shape: Original),
    field!(node: 57, shape: Time),
    field!(node: 34, shape: Uetr),
    field!(node: 35, shape: Identifier),
];

const PACS_002: [Entry; PACS_002_FIELDS] = [
    field!(node: 36, shape: Identifier),
    field!(node: 37, shape: Time),
    field!(node: 38, shape: Identifier),
    field!(node: 39, shape: GroupStatus),
    optional!(node: 40, shape: TransactionStatus),
];

const NO_AGENT: AgentNumbers = AgentNumbers { system: 0, code: 0 };

const NO_NUMBERS: Numbers = Numbers {
    id: 0,
    created: 0,
    instructing: 0,
    instructed: 0,
    reference: 0,
    uetr: 0,
    amount: 0,
    previous: 0,
    debtor: NO_AGENT,
    creditor: NO_AGENT,
    iban: 0,
    debit: 0,
    credit: 0,
    original: 0,
    originated: 0,
    group: 0,
    transaction: 0,
};

// No part of a message is made of field 11 of pacs.008, the IBAN of DbtrAcct, which only has to have its shape.
const PACS_008_NUMBERS: Numbers = Numbers {
    id: 1,
    created: 2,
    instructing: 3,
    instructed: 4,
    reference: 5,
    uetr: 6,
    amount: 7,
    previous: 8,
    debtor: AgentNumbers {
        system: 9,
        code: 10,
    },
    creditor: AgentNumbers {
        system: 12,
        code: 13,
    },
    iban: 14,
    ..NO_NUMBERS
};

const CAMT_050_NUMBERS: Numbers = Numbers {
    id: 1,
    created: 2,
    uetr: 3,
    amount: 4,
    debit: 5,
    credit: 6,
    ..NO_NUMBERS
};

const PACS_028_NUMBERS: Numbers = Numbers {
    id: 1,
    created: 2,
    instructing: 3,
    original: 4,
    originated: 6,
    uetr: 7,
    reference: 8,
    ..NO_NUMBERS
};

const PACS_002_NUMBERS: Numbers = Numbers {
    id: 1,
    created: 2,
    original: 3,
    group: 4,
    transaction: 5,
    ..NO_NUMBERS
};

// The fields of a kind.
pub fn fields_of(kind: Kind) -> &'static [Entry]
    ensures { result.now ≡ map entry_of (fields_of kind) }
{
    match kind {
        Kind::Pacs008 => &PACS_008,
        Kind::Camt050 => &CAMT_050,
        Kind::Pacs028 => &PACS_028,
        Kind::Pacs002 => &PACS_002,
    }
}

// The numbers of a kind's fields.
#[tactic(auto, unfolding(crate::specs::Fields::numbers_of))]
pub fn numbers_of(kind: Kind) -> Numbers
    ensures { result ≡ numbers_of kind }
{
    match kind {
        Kind::Pacs008 => PACS_008_NUMBERS,
        Kind::Camt050 => CAMT_050_NUMBERS,
        Kind::Pacs028 => PACS_028_NUMBERS,
        Kind::Pacs002 => PACS_002_NUMBERS,
    }
}

// The kind, by the number of elements below the outer one and by how often each kind's own stands. A loop over four pairs is no plainer than four tests.
#[tactic(auto, unfolding(crate::specs::Seen::kind_seen, crate::specs::Fields::body_of, outline::specs::Paths::same_name, paths::specs::Tree::names, paths::specs::Tree::firsts, paths::specs::Tree::name_of, paths::specs::Tree::child_of, paths::specs::Tree::node_of))]
pub fn kind_of(bodies: usize, counts: &[usize; NODES]) -> Option<Kind>
    ensures { result ≡ kind_seen bodies counts.now }
{
    if bodies != 1 {
        None
    } else if counts[PACS_008_BODY] == 1 {
        Some(Kind::Pacs008)
    } else if counts[CAMT_050_BODY] == 1 {
        Some(Kind::Camt050)
    } else if counts[PACS_028_BODY] == 1 {
        Some(Kind::Pacs028)
    } else if counts[PACS_002_BODY] == 1 {
        Some(Kind::Pacs002)
    } else {
        None
    }
}
