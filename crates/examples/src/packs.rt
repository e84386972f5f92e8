// Packs by hand for each packing refusal, a line for each: what is set in it, and the library's answer.
ghost use Rattle.std.specs.Prelude.{◌≤◌};

use packing::PackKind;
use packing::rules::{TEXT_LIMIT, check_packing};
use packing::shape::shape_of;
use packing::starts::table_starts;
use schema::lent::{PACK_LIMIT, TABLES};
use std::io;
use std::io::Write;

// A record more than a pack may have.
const MOST: usize = PACK_LIMIT + 64;

// `ab`, and e with an acute accent.
const BATCH: &[u8] = b"ab\xC3\xA9";

// `h`, and a byte that no UTF-8 has.
const HOUSE: &[u8] = b"h\xFF";

// The answer for a pack of a kind over two texts, which go side by side, as `check_packing` takes them.
fn write_answer<W: Write>(
    out: &mut W,
    kind: PackKind,
    pack: &[u8],
    batch: &[u8],
    house: &[u8],
) -> io::Result<()> {
    match check_packing(kind, pack, batch, house) {
        Ok(()) => writeln!(out, " packed"),
        Err(refusal) => writeln!(out, " refused {refusal}"),
    }
}

// Four digits in hexadecimal: a byte's place in its record, and its value.
fn set_byte(record: &mut [u8], item: &str) {
    if let Ok(set) = u16::from_str_radix(item, 16) {
        let [at, value] = set.to_be_bytes();
        if let Some(byte) = record.get_mut(usize::from(at)) {
            *byte = value;
        }
    }
}

// Room for a record of each table: nothing here asks for memory.
type Room = [u8; TABLES * 64];

// The pack that a text names, at the start of the room: records with slashes between them, bytes with blanks between them.
fn build<'a>(room: &'a mut Room, text: &str) -> &'a [u8] {
    for (record, items) in room.chunks_exact_mut(64).zip(text.split('/')) {
        record.fill(0);
        for item in items.split(' ') {
            set_byte(record, item);
        }
    }
    &room[..text.split('/').count().min(TABLES) * 64]
}

// A heading, and each pack of a list that has bars between them.
fn show_packs<W: Write>(out: &mut W, kind: PackKind, heading: &str, packs: &str) -> io::Result<()> {
    writeln!(out, "{heading}")?;
    let mut room: Room = [0; TABLES * 64];
    for text in packs.split('|') {
        write!(out, "{text}")?;
        write_answer(out, kind, build(&mut room, text), BATCH, HOUSE)?;
    }
    Ok(())
}

// A record of a table with one byte set: alone where it is the first of its pack, else after an enclave's.
fn show_byte<W: Write>(out: &mut W, table: u8, at: u8, value: u8) -> io::Result<()> {
    let kind = if table == 0 {
        PackKind::Federate
    } else {
        PackKind::Enclave
    };
    let start = if table < 2 { 0 } else { 64 };
    let mut pack = [0u8; 128];
    pack[0] = 1;
    pack[start] = table;
    pack[start + usize::from(at % 64)] = value;
    write!(out, "table {table} byte {at} is {value}")?;
    write_answer(out, kind, &pack[..start + 64], BATCH, HOUSE)
}

// Each bit of bytes 1 to 3, the last used byte, the first unused one and the last one.
fn show_table<W: Write>(out: &mut W, table: u8, used: u8) -> io::Result<()> {
    for at in 1..4 {
        for bit in [1, 2, 4, 8, 16, 32, 64, 128] {
            show_byte(out, table, at, bit)?;
        }
    }
    show_byte(out, table, used.saturating_sub(1), 1)?;
    if used < 64 {
        show_byte(out, table, used, 1)?;
    }
    show_byte(out, table, 63, 128)
}

fn tables<W: Write>(out: &mut W) -> io::Result<()> {
    writeln!(out, "one byte of a record")?;
    for table in 0..TABLES as u8 {
        show_table(out, table, shape_of(table).used)?;
    }
    Ok(())
}

fn order<W: Write>(out: &mut W) -> io::Result<()> {
    show_packs(
        out,
        PackKind::Enclave,
        "tables of an enclave pack",
        "0000|0001|0002|0018|0019|001A|00FF|0001/0000|0001/0001|0001/0002|0001/0018|0001/0019|0001/001A|0001/00FF\
        |0001/0002/0002|0001/0003/0002|0001/0002/0003/0003/0018|0001/0018/0002|0001/0019/0018|0001/0002/0001\
        |0001/0002/0019 0101|0001/0002/001A 0101|0001/0002/0003/0004/0005/0006/0007/0008/0009/000A/000B/000C/000D/000E\
        /000F/0010/0011/0012/0013/0014/0015/0016/0017/0018/0019",
    )?;
    show_packs(
        out,
        PackKind::Federate,
        "tables of a federate pack",
        "0000|0001|0002|0019|001A|0000/0000|0000/0001|0000/0002|0000/0018|0000/0019|0000/001A|0000/0001/0000\
        |0000/0001/0001|0000/0001/0002/0001/0002|0000/0001/0003/0002|0000/0001/0018/0001/0002\
        |0000/0001/0019/0001/0002|0000/0001/0002/0000|0000/0001/0019|0000/0001/001A",
    )
}

fn fields<W: Write>(out: &mut W) -> io::Result<()> {
    show_packs(
        out,
        PackKind::Enclave,
        "fields with and without their presence bit",
        "0001/0002 2001|0001/0002 2301|0001/0002 0101 2301|0001/0002 0102 2301|0001/0002 2401\
        |0001/0002 2701|0001/0002 0102 2701|0001/0002 2801|0001/0002 2B01|0001/0002 0102 2B01\
        |0001/0002 0101 2B01|0001/0002 0103 2301 2B01|0001/0003 0C01|0001/0003 0F01|0001/0003 0101 0F01\
        |0001/0005 3401|0001/0005 3701|0001/0005 0102 3701|0001/0005 0101 3701|0001/0007 0401|0001/0007 0701\
        |0001/0007 0101 0701|0001/0007 0102 0701|0001/0007 0C01|0001/0007 0F01|0001/0007 0102 0F01\
        |0001/0007 0101 0F01",
    )?;
    show_packs(
        out,
        PackKind::Enclave,
        "kinds of actions and reactions",
        "0001/0003 0200|0001/0003 0201|0001/0003 0202|0001/0003 0203|0001/0003 0204\
        |0001/0003 0102 0200|0001/0003 0102 0201|0001/0003 0102 0202|0001/0003 0102 0203\
        |0001/0003 0200 1001|0001/0003 0201 1701|0001/0003 0202 1001|0001/0003 0202 1701\
        |0001/0003 0102 0202 1001|0001/0003 0102 0202 1701|0001/0003 0203 1001|0001/0003 0203 1701\
        |0001/0005 0201|0001/0005 0101 0201|0001/0005 0102 0201|0001/0005 0102 0202|0001/0018 0203|0001/0018 0204\
        |0001/0017 0203|0001/0017 0204",
    )
}

fn identities<W: Write>(out: &mut W) -> io::Result<()> {
    show_packs(
        out,
        PackKind::Enclave,
        "identities in the batch text and in the house text",
        "0001 0B02|0001 0B04|0001 0B05|0001 0704|0001 0705|0001 0704 0B01|0001 0703 0B02|0001 0702 0B02\
        |0001 0B03|0001 0703 0B01|0001 0702 0B01|0001 0101 0B01|0001 0101 0B02|0001 0101 0B03|0001 0101 0702\
        |0001 0101 0703|0001 0101 0701 0B01|0001 04FF 05FF 06FF 07FF 08FF 09FF 0AFF 0BFF|0001 0801|0001 0401\
        |0001 04FF 05FF 06FF 07FC 0B04|0001/0017 0B04|0001/0017 0B05|0001/0017 0B03|0001/0017 0101 0B02\
        |0001/0018 0B04|0001/0018 0B05|0001/0018 0B03|0001/0018 0101 0B01",
    )?;
    show_packs(
        out,
        PackKind::Federate,
        "the three identities of a federate",
        "0000 0B05|0000 1305|0000 1B05|0000 0B03|0000 1303|0000 1B03|0000 0B03 1305|0000 0B05 1303\
        |0000 1303 1B05|0000 0B02 1302 1B02|0000 0101 0B02|0000 0102 0B02|0000 0102 1302|0000 0104 1302\
        |0000 0104 1B02|0000 0107 0B01 1301 1B01|0000 0107 0B01 1301 1B03",
    )?;
    show_packs(
        out,
        PackKind::Enclave,
        "the first check that fails",
        "0001 0703 0B01/0001|0001 0B05/0001|0001/0001 3F01|0001 3F01 0B05|0001/0003 0102/0002|0001/0002 3F01/001A",
    )
}

// An enclave whose identity has 65,536 bytes.
fn show_texts<W: Write>(out: &mut W, batch: &[u8], house: &[u8]) -> io::Result<()> {
    let mut pack = [0u8; 64];
    pack[0] = 1;
    pack[9] = 1;
    write!(out, "{} {}", batch.len(), house.len())?;
    write_answer(out, PackKind::Enclave, &pack, batch, house)
}

fn texts<W: Write>(out: &mut W) -> io::Result<()> {
    writeln!(
        out,
        "lengths of the texts, the batch text first; the identity has 65,536 bytes"
    )?;
    let long = [0u8; TEXT_LIMIT + 1];
    let most = &long[..TEXT_LIMIT];
    let fewer = &long[..TEXT_LIMIT - 1];
    show_texts(out, b"", b"")?;
    show_texts(out, fewer, b"")?;
    show_texts(out, most, most)?;
    show_texts(out, &long, most)?;
    show_texts(out, most, &long)?;
    show_texts(out, &long, &long)
}

// An enclave and rows of table 9, in room for one record more than a pack may have.
fn lengths<W: Write>(out: &mut W, pack: &mut [u8]) -> io::Result<()> {
    writeln!(out, "lengths of the pack")?;
    for record in pack.chunks_exact_mut(64) {
        record[0] = 9;
    }
    if let Some(first) = pack.first_mut() {
        *first = 1;
    }
    for len in [
        0,
        63,
        64,
        65,
        128,
        PACK_LIMIT - 1,
        PACK_LIMIT,
        PACK_LIMIT + 1,
        PACK_LIMIT + 64,
    ] {
        if let Some(part) = pack.get(..len) {
            write!(out, "{len}")?;
            write_answer(out, PackKind::Enclave, part, BATCH, HOUSE)?;
        }
    }
    Ok(())
}

fn lengths_within<const ROOM: usize>(rt: &HostRuntime) -> io::Result<()>
    requires { ROOM ≤ 8388608 }
{
    lengths(&mut io::writer(rt), &mut [0u8; ROOM])
}

// Where the tables of the enclave begin whose rows start at record `rows`.
fn show_starts<W: Write>(out: &mut W, text: &str, rows: u32) -> io::Result<()> {
    let mut room: Room = [0; TABLES * 64];
    write!(out, "{text} from {rows}:")?;
    for start in &table_starts(build(&mut room, text), rows).firsts {
        write!(out, " {start}")?;
    }
    writeln!(out)
}

fn starts<W: Write>(out: &mut W) -> io::Result<()> {
    writeln!(out, "where the tables begin")?;
    show_starts(out, "0001", 1)?;
    show_starts(out, "0001", 9)?;
    show_starts(out, "0001/0002/0007/0007/0018", 1)?;
    show_starts(out, "0001/0003/0003/0018/0018", 1)?;
    show_starts(out, "0001/0018/0019/0019", 1)?;
    let line = "0000/0001/0002/0002/0005/0001/0003/0016";
    show_starts(out, line, 2)?;
    show_starts(out, line, 6)?;
    show_starts(out, "0000/0001/0001/0002", 2)
}

pub fn cases(rt: &HostRuntime) -> io::Result<()> {
    lengths_within::<MOST>(rt)?;
    let mut out = io::writer(rt);
    texts(&mut out)?;
    order(&mut out)?;
    fields(&mut out)?;
    identities(&mut out)?;
    tables(&mut out)?;
    starts(&mut out)
}
