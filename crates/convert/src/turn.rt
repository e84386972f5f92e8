// Writes a pack with every number turned round, record by record.
ghost use Rattle.std.specs.Prelude.{◌≡◌, ◌≤◌, ◌++◌, length, drop};
ghost use Rattle.packing.specs.Shape.{layout_of};
ghost use Rattle.convert.specs.Turned.{turned};
ghost use Rattle.convert.specs.Steps.{longs_in, Turns, IsTurnedRecord};

use packing::shape::shape_of;
use schema::lent::{Pack, TABLES};
use schema::record::Record;

// Which words of a record begin a D: a bit for each word from byte 4 on, the lowest first; every other number is a W. Table by table, from 0 on.
static LONGS: [u32; TABLES] = [
    0x140, // federate
    0x2A0, // enclave
    0x28, // reactors
    0x8, // actions
    0, // ports
    0, // reactions
    0, // modes
    0, // scopes
    0, // reaction_triggers
    0, // reaction_use_ports
    0, // reaction_effect_ports
    0, // reaction_actions
    0, // reaction_modes
    0, // scope_descendants
    0, // scope_logical_actions
    0x2, // scope_timer_startups
    0, // scope_reset_reactions
    0, // scope_startup_reactions
    0, // scope_shutdown_reactions
    0x2, // startup_actions
    0x2, // timer_startup_actions
    0, // shutdown_reactions
    0, // shutdown_actions
    0x8, // routes
    0, // required bindings
    0x2, // deadlines
];

// That of a table; past the last table there is no number.
fn longs_of(table: u8) -> u32
    ensures { result ≡ longs_in (layout_of table).fields }
{
    let t = usize::from(table);
    if t < TABLES {
        return LONGS[t];
    }
    0
}

// Writes the W from byte j of a record there, its bytes in the other order.
fn turn_word(item: Record, j: usize, out: &mut [u8])
    requires inside { j ≤ 60 }
    requires room { length out.old ≡ 64 }
    ensures { Turns 4 item.entry.bytes.now item.entry.number j out.old out.new }
{
    out[j..j + 4].copy_from_slice(&[
        item.byte(j + 3),
        item.byte(j + 2),
        item.byte(j + 1),
        item.byte(j),
    ]);
}

// Writes the D from byte j of a record there, its bytes in the other order.
fn turn_long(item: Record, j: usize, out: &mut [u8])
    requires inside { j ≤ 56 }
    requires room { length out.old ≡ 64 }
    ensures { Turns 8 item.entry.bytes.now item.entry.number j out.old out.new }
{
    out[j..j + 8].copy_from_slice(&[
        item.byte(j + 7),
        item.byte(j + 6),
        item.byte(j + 5),
        item.byte(j + 4),
        item.byte(j + 3),
        item.byte(j + 2),
        item.byte(j + 1),
        item.byte(j),
    ]);
}

// Writes a record turned round: its bytes as they stand, and its numbers over them.
fn turn_record(item: Record, out: &mut [u8])
    requires { length out.old ≡ 64 }
    ensures { IsTurnedRecord item.entry.bytes.now item.entry.number out.new }
{
    let table = item.table();
    let used = usize::from(shape_of(table).used);
    let mut longs = longs_of(table);
    let start = item.number * 64;
    out.copy_from_slice(&item.bytes[start..start + 64]);
    let mut j = 4;
    while j < used {
        if longs % 2 == 1 {
            turn_long(item, j, out);
            longs /= 4;
            j += 8;
        } else {
            turn_word(item, j, out);
            longs /= 2;
            j += 4;
        }
    }
}

// Writes the pack turned round into the first bytes of the output.
pub fn turn_pack(pack: Pack, out: &mut [u8])
    requires { length pack.bytes.now ≤ length out.old }
    ensures { let p = pack.entry.bytes.now in out.new ≡ turned p ++ drop (length p) out.old }
{
    for n in 0..pack.records() {
        let start = n * 64;
        let item = Record {
            bytes: pack.bytes,
            number: n,
        };
        turn_record(item, &mut out[start..start + 64]);
    }
}
