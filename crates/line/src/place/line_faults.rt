// Refusals of a line as a whole in words: its own record, and the order of its stations; and those of a question about a station that is accepted.
use crate::image::{Image, Kind};
use crate::place::identities::write_identity;
use crate::place::station::station_at;
use crate::show::rows::Rows;
use crate::show::words::{Are, RowName, SpanText};
use federate::records::count_enclaves;
use identity::texts::Texts;
use packing::rules::whole_pack;
use range::IndexSpan;
use schema::index::KEYS;
use schema::record::Record;
use schema::row::Stored;
use schema::rows::FederateImage;
use std::io;
use std::io::Write;

// How many stations the pack has.
fn stations_of(image: &Image) -> u32 {
    match whole_pack(image.pack) {
        Ok(pack) => count_enclaves(pack),
        Err(_) => 0,
    }
}

// A refusal of the line's own record.
fn write_own<W: Write>(out: &mut W, image: &Image, refusal: &[u64]) -> io::Result<()> {
    if let Some(row) = Rows::of(*image).next() {
        writeln!(out, "{row}")?;
    }
    match refusal {
        [13, _, _, _, table, start, len] => {
            let (table, start, len) = (*table, *start, *len);
            let span = IndexSpan { start, len };
            let part = SpanText { table, span };
            writeln!(
                out,
                "field `enclaves`: {part} is named, and a station's number is below {KEYS}"
            )
        }
        [17, ..] => {
            let are = Are(u64::from(stations_of(image)));
            writeln!(out, "field `enclaves`: in the pack there {are}")
        }
        _ => {
            let Image { batch, house, .. } = *image;
            write_identity(out, Texts { batch, house }, refusal)
        }
    }
}

// The place in the line of a station whose number in the federate's span is given.
fn place_in_line(image: &Image, index: u64) -> Option<u64> {
    let own = FederateImage::of(Record::nth(image.pack, 0)?);
    let first = own.enclaves.0.start % KEYS;
    Some(index.wrapping_sub(first) % KEYS)
}

// A station whose identity does not come after that of the station before it.
fn write_station_order<W: Write>(
    out: &mut W,
    image: &Image,
    index: u64,
    refusal: &[u64],
) -> io::Result<()> {
    let Some(place) = place_in_line(image, index) else {
        return Ok(());
    };
    let before = place.checked_sub(1);
    if let Some(station) = before.and_then(|place| station_at(image, Kind::Line, place)) {
        writeln!(out, "{}", station.text)?;
    }
    if let Some(station) = station_at(image, Kind::Line, place) {
        writeln!(out, "{}", station.text)?;
    }
    let Image { batch, house, .. } = *image;
    write_identity(out, Texts { batch, house }, refusal)
}

// A refusal that no station of the image has by itself.
pub(crate) fn line_fault<W: Write>(
    out: &mut W,
    image: &Image,
    kind: Kind,
    refusal: &[u64],
) -> io::Result<()> {
    match (kind, refusal) {
        (Kind::Line, [13 | 17, 0, ..] | [19, 1..=3, ..]) => write_own(out, image, refusal),
        (Kind::Line, [20 | 21, 4, index, ..]) => write_station_order(out, image, *index, refusal),
        (Kind::Station, [12, _, _, _, table, index, rows]) => {
            let (table, index) = (*table, *index);
            let row = RowName { table, index };
            writeln!(out, "{row} is asked for, and there {}", Are(*rows))
        }
        _ => Ok(()),
    }
}
