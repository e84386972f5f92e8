// What the packing rules ask of each table's layout, as data.
ghost use Rattle.std.specs.Prelude.{◌≡◌};
ghost use Rattle.packing.specs.Shape.{shape_of};

use schema::lent::TABLES;

// The largest value of each byte of a record, word by word.
pub type Limits = [[u8; 4]; 16];

// Where the fields end, how many identities there are, and the limits for each value of bits 0 and 1 of byte 1, which say what fields there are.
#[derive(Clone, Copy)]
pub struct Shape {
    pub used: u8,
    pub identities: u8,
    pub limits: [Limits; 4],
}

// The word before the fields: any table, the largest of bytes 1 and 2 (the bits and the kinds), and a zero.
const B0: [u8; 4] = [255, 0, 0, 0];

const B1: [u8; 4] = [255, 1, 0, 0];

const B3: [u8; 4] = [255, 3, 0, 0];

const B7: [u8; 4] = [255, 7, 0, 0];

const B1_K3: [u8; 4] = [255, 1, 3, 0];

const B3_K1: [u8; 4] = [255, 3, 1, 0];

const B3_K3: [u8; 4] = [255, 3, 3, 0];

// A word that a field has, and one that none has.
const W: [u8; 4] = [255; 4];

const Z: [u8; 4] = [0; 4];

// A record of its table number alone.
static NO_FIELDS: Shape = Shape {
    used: 4,
    identities: 0,
    limits: [[B0, Z, Z, Z, Z, Z, Z, Z, Z, Z, Z, Z, Z, Z, Z, Z]; 4],
};

const FEDERATE: Shape = Shape {
    used: 44,
    identities: 3,
    limits: [[B7, W, W, W, W, W, W, W, W, W, W, Z, Z, Z, Z, Z]; 4],
};

const ENCLAVE: Shape = Shape {
    used: 48,
    identities: 1,
    limits: [[B1, W, W, W, W, W, W, W, W, W, W, W, Z, Z, Z, Z]; 4],
};

const REACTORS: Shape = Shape {
    used: 44,
    identities: 0,
    limits: [
        [B3, W, W, W, W, W, W, W, Z, Z, Z, Z, Z, Z, Z, Z],
        [B3, W, W, W, W, W, W, W, W, Z, Z, Z, Z, Z, Z, Z],
        [B3, W, W, W, W, W, W, W, Z, W, W, Z, Z, Z, Z, Z],
        [B3, W, W, W, W, W, W, W, W, W, W, Z, Z, Z, Z, Z],
    ],
};

const ACTIONS: Shape = Shape {
    used: 32,
    identities: 0,
    limits: [
        [B3_K3, W, W, Z, W, W, W, W, Z, Z, Z, Z, Z, Z, Z, Z],
        [B3_K3, W, W, W, W, W, W, W, Z, Z, Z, Z, Z, Z, Z, Z],
        [B3_K3, W, W, Z, W, W, W, W, Z, Z, Z, Z, Z, Z, Z, Z],
        [B3_K3, W, W, W, W, W, W, W, Z, Z, Z, Z, Z, Z, Z, Z],
    ],
};

const PORTS: Shape = Shape {
    used: 20,
    identities: 0,
    limits: [[B0, W, W, W, W, Z, Z, Z, Z, Z, Z, Z, Z, Z, Z, Z]; 4],
};

const REACTIONS: Shape = Shape {
    used: 56,
    identities: 0,
    limits: [
        [B3_K1, W, W, W, W, W, W, W, W, W, W, W, W, Z, Z, Z],
        [B3_K1, W, W, W, W, W, W, W, W, W, W, W, W, Z, Z, Z],
        [B3_K1, W, W, W, W, W, W, W, W, W, W, W, W, W, Z, Z],
        [B3_K1, W, W, W, W, W, W, W, W, W, W, W, W, W, Z, Z],
    ],
};

// Modes have a constant of their own beside levels' equal one, and deadlines and startups beside lifecycles': the papers have a layout for each table.
const MODES: Shape = Shape {
    used: 12,
    identities: 0,
    limits: [[B0, W, W, Z, Z, Z, Z, Z, Z, Z, Z, Z, Z, Z, Z, Z]; 4],
};

const SCOPES: Shape = Shape {
    used: 64,
    identities: 0,
    limits: [
        [B3, Z, W, Z, W, W, W, W, W, W, W, W, W, W, W, W],
        [B3, W, W, Z, W, W, W, W, W, W, W, W, W, W, W, W],
        [B3, Z, W, W, W, W, W, W, W, W, W, W, W, W, W, W],
        [B3, W, W, W, W, W, W, W, W, W, W, W, W, W, W, W],
    ],
};

const LEVELS: Shape = Shape {
    used: 12,
    identities: 0,
    limits: [[B0, W, W, Z, Z, Z, Z, Z, Z, Z, Z, Z, Z, Z, Z, Z]; 4],
};

const INDEXES: Shape = Shape {
    used: 8,
    identities: 0,
    limits: [[B0, W, Z, Z, Z, Z, Z, Z, Z, Z, Z, Z, Z, Z, Z, Z]; 4],
};

const STARTUPS: Shape = Shape {
    used: 16,
    identities: 0,
    limits: [[B0, W, W, W, Z, Z, Z, Z, Z, Z, Z, Z, Z, Z, Z, Z]; 4],
};

const LIFECYCLES: Shape = Shape {
    used: 16,
    identities: 0,
    limits: [[B0, W, W, W, Z, Z, Z, Z, Z, Z, Z, Z, Z, Z, Z, Z]; 4],
};

const ROUTES: Shape = Shape {
    used: 24,
    identities: 1,
    limits: [[B1_K3, W, W, W, W, W, Z, Z, Z, Z, Z, Z, Z, Z, Z, Z]; 4],
};

const BINDINGS: Shape = Shape {
    used: 12,
    identities: 1,
    limits: [[B1_K3, W, W, Z, Z, Z, Z, Z, Z, Z, Z, Z, Z, Z, Z, Z]; 4],
};

const DEADLINES: Shape = Shape {
    used: 16,
    identities: 0,
    limits: [[B0, W, W, W, Z, Z, Z, Z, Z, Z, Z, Z, Z, Z, Z, Z]; 4],
};

// Table by table, from 0 on: data in an array, since a table is a number.
static SHAPES: [Shape; TABLES] = [
    FEDERATE, ENCLAVE, REACTORS, ACTIONS, PORTS, REACTIONS, MODES, SCOPES, LEVELS, INDEXES,
    INDEXES, INDEXES, INDEXES, INDEXES, INDEXES, STARTUPS, LEVELS, LIFECYCLES, LIFECYCLES,
    STARTUPS, STARTUPS, LIFECYCLES, INDEXES, ROUTES, BINDINGS, DEADLINES,
];

// The shape of a table; past the last table no field is used.
pub fn shape_of(table: u8) -> &'static Shape
    ensures { result.now ≡ shape_of table }
{
    let t = usize::from(table);
    if t < TABLES {
        return &SHAPES[t];
    }
    &NO_FIELDS
}
