// Where a refusal is: its station, the rows that it is about, and what does not fit there.
mod boundary;
mod faults;
mod identities;
mod levels;
mod line_faults;
mod packed;
mod station;

use crate::image::{Image, Kind};
use crate::place::boundary::boundary_fault;
use crate::place::faults::{named_row, write_fault};
use crate::place::levels::port_between;
use crate::place::line_faults::line_fault;
use crate::place::packed::packing_fault;
use crate::place::station::{Station, own_station, refused_station, station_at};
use crate::refusal_rows::{row_named, target_named};
use crate::show::rows::RowText;
use crate::show::words::RowName;
use std::io;
use std::io::Write;

// The row before the one that is named, where the refusal comes of a comparison with that.
fn row_before<'a>(station: &Station<'a>, named: RowName, refusal: &[u64]) -> Option<RowText<'a>> {
    match refusal {
        [14..=16, ..] | [20 | 21, 5 | 6, ..] => {
            station.row(named.table, named.index.checked_sub(1)?)
        }
        _ => None,
    }
}

// The other row that the refusal is about: the one that its field names, or the station's own for its slots.
fn other_row<'a>(station: &Station<'a>, row: RowText, refusal: &[u64]) -> Option<RowText<'a>> {
    match refusal {
        [17 | 24, _, _, field] => named_row(station, row, *field),
        [23, ..] => Some(station.own_row()),
        _ => None,
    }
}

fn write_row<W: Write>(out: &mut W, row: Option<RowText>) -> io::Result<()> {
    if let Some(row) = row {
        writeln!(out, "{row}")?;
    }
    Ok(())
}

// The reaction that one triggers, after the port by which it does.
fn write_target<W: Write>(
    out: &mut W,
    station: &Station,
    row: RowText,
    target: RowName,
) -> io::Result<()> {
    write_row(out, port_between(station, row, target.index))?;
    write_row(out, station.row(target.table, target.index))
}

// The rows of a refusal of a station, the one that it names after the one before it.
fn write_rows<W: Write>(out: &mut W, station: &Station, refusal: &[u64]) -> io::Result<()> {
    let Some(named) = row_named(refusal) else {
        return Ok(());
    };
    write_row(out, row_before(station, named, refusal))?;
    let Some(row) = station.row(named.table, named.index) else {
        return Ok(());
    };
    writeln!(out, "{row}")?;
    match target_named(refusal) {
        Some(target) => write_target(out, station, row, target),
        None => write_row(out, other_row(station, row, refusal)),
    }
}

// A refusal of a station: its place and its identity, the rows, and what does not fit.
fn station_fault<W: Write>(
    out: &mut W,
    station: Option<Station>,
    refusal: &[u64],
) -> io::Result<()> {
    let Some(station) = station else {
        return Ok(());
    };
    writeln!(out, "{}", station.text)?;
    write_rows(out, &station, refusal)?;
    write_fault(out, &station, refusal)
}

// A refusal that a station of the image has by itself, else one of the line as a whole.
fn check_fault<W: Write>(
    out: &mut W,
    image: &Image,
    kind: Kind,
    refusal: &[u64],
) -> io::Result<()> {
    let station = refused_station(image, kind, refusal);
    if station.is_none() {
        return line_fault(out, image, kind, refusal);
    }
    station_fault(out, station, refusal)
}

// Where a refusal of an image is, in lines: its numbers are the refusal's own first, as a check of the image answered them. Of numbers that no check gives, and
// of refusals that are about what a host lends, there is nothing to say.
pub(crate) fn place<W: Write>(
    out: &mut W,
    image: &Image,
    kind: Kind,
    refusal: &[u64],
) -> io::Result<()> {
    match refusal {
        [1..=6, ..] => packing_fault(out, image, refusal),
        [12..=25, ..] | [39, ..] => check_fault(out, image, kind, refusal),
        [26..=28, ..] => boundary_fault(out, image, kind, refusal),
        [29..=31, station, ..] => station_fault(out, station_at(image, kind, *station), refusal),
        [32, ..] => station_fault(out, own_station(image), refusal),
        [35] => writeln!(
            out,
            "the pack has {} records, from 0 on",
            image.pack.len() / 64
        ),
        _ => Ok(()),
    }
}
