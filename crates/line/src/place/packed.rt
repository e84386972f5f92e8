// Refusals of the packing rules in words: the record, and the byte or the identity that does not fit.
ghost use Rattle.std.specs.Prelude.{◌<◌, IfSome};

use crate::image::Image;
use crate::show::fields::{Value, fields};
use crate::show::names::{Named, table_name};
use crate::show::rows::{RowText, Rows};
use crate::show::words::PlaceText;
use identity::IdentityPlace;
use identity::texts::Texts;
use packing::shape::{Limits, shape_of};
use schema::lent::TABLES;
use schema::record::Record;
use schema::row::Row;
use schema::rows::ActionImage;
use std::io::Write;
use std::{io, str};

// The record of that number, with where it stands, and the table of the one before it.
fn numbered<'a>(image: &Image<'a>, number: u64) -> Option<(Option<u8>, RowText<'a>)> {
    let mut before = None;
    for row in Rows::of(*image) {
        if row.record.number as u64 == number {
            return Some((before, row));
        }
        before = Some(row.record.table());
    }
    None
}

// A table that is out of place after the one before it.
fn write_place<W: Write>(out: &mut W, before: Option<u8>, table: u8) -> io::Result<()> {
    let name = table_name(table);
    match before {
        _ if TABLES <= usize::from(table) => {
            writeln!(out, "byte 0 is {table}, which is no table")
        }
        Some(before) => writeln!(out, "`{name}` cannot stand after `{}`", table_name(before)),
        None => writeln!(out, "`{name}` cannot stand first"),
    }
}

// The first byte that is over its limit: a bit or a kind that its table has not, a byte that it does not use, or one of an absent field.
fn stray_byte(record: Record, limits: &Limits) -> Option<usize>
    ensures { IfSome result (λ j. j < 64) }
{
    let limits = limits.as_flattened();
    for j in 0..64usize {
        if limits[j] < record.byte(j) {
            return Some(j);
        }
    }
    None
}

// A kind that does not go with the fields of its action or reaction.
fn write_kind<W: Write>(out: &mut W, record: Record) -> io::Result<()> {
    match (record.table(), record.byte(2)) {
        (ActionImage::TABLE, 2) => writeln!(
            out,
            "a timer without a period has a period that is not zero"
        ),
        (ActionImage::TABLE, _) if record.has(1) => {
            writeln!(
                out,
                "byte 1 says that there is a period, and byte 2 that it is no timer"
            )
        }
        (ActionImage::TABLE, _) => writeln!(out, "a shutdown action has a delay that is not zero"),
        _ => writeln!(
            out,
            "byte 2 says history, and byte 1 that there is no mode effect"
        ),
    }
}

// A stray byte, bit or kind.
fn write_stray<W: Write>(out: &mut W, record: Record) -> io::Result<()> {
    let shape = shape_of(record.table());
    let limits = &shape.limits[usize::from(record.byte(1) % 4)];
    let Some(at) = stray_byte(record, limits) else {
        return write_kind(out, record);
    };
    let byte = record.byte(at);
    match at {
        1 => writeln!(
            out,
            "byte 1 is {byte}, and all bits of its table together are {}",
            limits[0][1]
        ),
        2 => writeln!(
            out,
            "byte 2 is {byte}, and the last kind of its table is {}",
            limits[0][2]
        ),
        3 => writeln!(out, "byte 3 is {byte}, and no table uses it"),
        _ if usize::from(shape.used) <= at => {
            writeln!(out, "byte {at} is {byte}, and its table does not use it")
        }
        _ => writeln!(out, "byte {at} is {byte}, and its field is marked absent"),
    }
}

// What is wrong with an identity by the packing rules, if anything is.
fn write_identity<W: Write>(
    out: &mut W,
    texts: Texts,
    name: &str,
    place: IdentityPlace,
) -> io::Result<bool> {
    let text = if place.house {
        texts.house
    } else {
        texts.batch
    };
    if !texts.holds(place) {
        let len = text.len();
        writeln!(
            out,
            "field `{name}`: {} is named, and the text has {len} bytes",
            PlaceText(place)
        )?;
        return Ok(true);
    }
    if let Err(error) = str::from_utf8(texts.identity_text(place)) {
        let at = error.valid_up_to();
        writeln!(out, "field `{name}`: from its byte {at} on it is not UTF-8")?;
        return Ok(true);
    }
    Ok(false)
}

// The first identity of a record that does not fit.
fn write_identities<W: Write>(out: &mut W, row: RowText) -> io::Result<()> {
    let list = fields(row.record);
    for field in list.as_slice() {
        if let Value::Identity(place) = field.value {
            if write_identity(out, row.texts, field.name, place)? {
                break;
            }
        }
    }
    Ok(())
}

// A refusal of a record: its station, the record, and what does not fit.
fn record_fault<W: Write>(out: &mut W, image: &Image, number: u64, record: u64) -> io::Result<()> {
    let Some((before, row)) = numbered(image, record) else {
        return Ok(());
    };
    if let Some(station) = row.station {
        writeln!(out, "{station}")?;
    }
    writeln!(out, "{row}")?;
    match number {
        3 => write_place(out, before, row.record.table()),
        4 => write_stray(out, row.record),
        _ => write_identities(out, row),
    }
}

// A refusal of the packing rules.
pub(crate) fn packing_fault<W: Write>(
    out: &mut W,
    image: &Image,
    refusal: &[u64],
) -> io::Result<()> {
    let Image { pack, batch, house } = *image;
    match refusal {
        [1] => {
            let (records, left) = (pack.len() / 64, pack.len() % 64);
            writeln!(out, "the pack has {records} records and {left} bytes more")
        }
        [2, text] => {
            let name = Named::Text.name_or_unknown(*text);
            let len = if *text == 1 { house.len() } else { batch.len() };
            writeln!(out, "{name} has {len} bytes")
        }
        [number, record] => record_fault(out, image, *number, *record),
        _ => Ok(()),
    }
}
