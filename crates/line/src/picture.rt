// A station as a Graphviz text: its reactors, scopes and modes as nested boxes, its reactions by level, who triggers whom, and the row of a refusal.
mod arrows;
mod boxes;
mod frames;
mod legend;
mod levels;
mod lists;
mod missing;
mod modes;
mod nodes;
mod ports;
mod refused;
mod station;
mod text;

use crate::image::{Image, station_in};
use answers::Refusal;
use boxes::{Boxes, draw_boxes};
use federate::records::enclave_pack_to;
use identity::texts::Texts;
use legend::HEAD;
use packing::PackKind;
use packing::rules::checked_pack;
use packing::starts::{enclave, table_starts};
use ports::Ports;
use refused::Refused;
use schema::lent::Pack;
use schema::row::Row;
use schema::rows::FederateImage;
use station::{LIMIT, Station};
use std::io;
use std::io::Write;

// By its first record; what is neither a line nor a station is refused as either.
fn kind_of(pack: &[u8]) -> PackKind {
    match pack.first().copied() {
        Some(FederateImage::TABLE) => PackKind::Federate,
        _ => PackKind::Enclave,
    }
}

// In the place of a picture, where the packing rules refuse the pack: nothing of it is read.
fn draw_unreadable<W: Write>(out: &mut W, refusal: Refusal) -> io::Result<()> {
    out.write_all(HEAD.as_bytes())?;
    write!(
        out,
        "unreadable [shape=box color=\"#d00000\" label=\"refused {refusal}"
    )?;
    match refusal {
        Refusal::TableOutOfPlace { record }
        | Refusal::StrayByte { record }
        | Refusal::IdentityOutside { record }
        | Refusal::NotUtf8 { record } => write!(out, "\\nthe first fault is in record {record}")?,
        _ => (),
    }
    writeln!(out, "\\nthis pack's records cannot be read\"];\n}}")
}

// In the place of a picture in which nobody would find anything.
fn draw_too_large<W: Write>(out: &mut W, station: u32, records: usize) -> io::Result<()> {
    out.write_all(HEAD.as_bytes())?;
    write!(
        out,
        "large [shape=box label=\"station {station} has {records} records\\n"
    )?;
    writeln!(out, "a picture is drawn of {LIMIT} at most\"];\n}}")
}

// The boxes and what stands in them, then the levels and the arrows.
fn draw_station<W: Write>(out: &mut W, s: &Station) -> io::Result<()> {
    out.write_all(HEAD.as_bytes())?;
    frames::open_station(out, s)?;
    draw_boxes(out, s)?;
    lists::draw_routes(out, s)?;
    writeln!(out, "}}")?;
    levels::draw_levels(out, &s.e)?;
    arrows::draw_arrows(out, s)?;
    lists::draw_lists(out, s)?;
    missing::draw_missing(out, s)?;
    writeln!(out, "}}")
}

// The picture of a station of a pack that is packed, and whether it has one of that number.
fn draw_packed<W: Write>(
    out: &mut W,
    pack: Pack,
    texts: Texts,
    refused: Refused,
) -> io::Result<bool> {
    let Some(found) = station_in(pack, refused.station) else {
        return Ok(false);
    };
    let own = enclave_pack_to(found.pack, found.number, found.end);
    if own.bytes.is_empty() {
        return Ok(false);
    }
    if LIMIT < own.records() {
        draw_too_large(out, refused.station, own.records())?;
        return Ok(true);
    }
    let starts = table_starts(own.bytes, 1);
    let e = enclave(own, &starts, texts);
    let boxes = Boxes::of(&e);
    let ports = Ports::of(&e);
    let station = Station {
        e,
        refused,
        boxes: &boxes,
        ports: &ports,
    };
    draw_station(out, &station)?;
    Ok(true)
}

// Writes the picture of a station, with the row of the refusal of these numbers marked, and answers whether there is a station of that number.
pub(crate) fn picture<W: Write>(
    out: &mut W,
    image: &Image,
    station: u32,
    refusal: Option<&[u64]>,
) -> io::Result<bool> {
    let texts = Texts {
        batch: image.batch,
        house: image.house,
    };
    let numbers = refusal.unwrap_or(&[]);
    match checked_pack(kind_of(image.pack), image.pack, texts) {
        Ok(pack) => draw_packed(out, pack, texts, Refused { numbers, station }),
        Err(refusal) => {
            draw_unreadable(out, refusal)?;
            Ok(true)
        }
    }
}
