// Refusals of routes that a line has on both ends, or has not, in words: the halves of the boundary.
use crate::image::{Image, Kind};
use crate::place::identities::place_of;
use crate::place::station::refused_station;
use crate::show::names::Named;
use crate::show::rows::{RowText, Rows};
use crate::show::words::IdentityText;
use identity::IdentityPlace;
use identity::texts::Texts;
use schema::row::{Row, Stored};
use schema::rows::RouteImage;
use std::cmp::Ordering;
use std::io;
use std::io::Write;

// The halves that a refusal is about: of a boundary, where one station alone has them of that station, and where they are of one direction of that.
#[derive(Clone, Copy)]
struct Halves {
    boundary: IdentityPlace,
    station: Option<u32>,
    direction: Option<u64>,
}

impl Halves {
    fn has(self, row: RowText) -> bool {
        if row.record.table() != RouteImage::TABLE {
            return false;
        }
        let route = RouteImage::of(row.record);
        let direction = u64::from(u8::from(route.direction));
        self.direction.is_none_or(|wanted| wanted == direction)
            && (self.station.is_none() || self.station == row.place())
            && row.texts.compare(route.boundary, self.boundary) == Ordering::Equal
    }
}

// A half, after its station where that is another than the one before.
fn write_half<W: Write>(out: &mut W, row: RowText, said: Option<u32>) -> io::Result<()> {
    if let Some(station) = row.station
        && Some(station.place) != said
    {
        writeln!(out, "{station}")?;
    }
    writeln!(out, "{row}")
}

// The first two of the halves, after the station of each, or of both.
fn write_halves<W: Write>(out: &mut W, image: &Image, halves: Halves) -> io::Result<()> {
    let mut left = 2u8;
    let mut said = None;
    for row in Rows::of(*image) {
        if halves.has(row) {
            write_half(out, row, said)?;
            said = row.place();
            left = left.saturating_sub(1);
        }
        if left == 0 {
            break;
        }
    }
    Ok(())
}

// What is wrong with the halves: `last` is their direction, or the field in which they differ.
fn write_words<W: Write>(
    out: &mut W,
    name: IdentityText,
    number: u64,
    last: u64,
) -> io::Result<()> {
    let direction = Named::Direction.name_or_unknown(last);
    let field = Named::Field.name_or_unknown(last);
    match number {
        26 => writeln!(
            out,
            "boundary {name}: its {direction} half has no other half in the line"
        ),
        27 => writeln!(
            out,
            "boundary {name}: it has more than one {direction} half"
        ),
        _ => writeln!(
            out,
            "boundary {name}: its halves differ in the field `{field}`"
        ),
    }
}

// The station that has more than one half of a direction by itself.
fn station_of(image: &Image, kind: Kind, refusal: &[u64]) -> Option<u32> {
    match refusal {
        [27, ..] => Some(refused_station(image, kind, refusal)?.text.place),
        _ => None,
    }
}

// A refusal of a boundary: its halves, and what is wrong with them.
pub(crate) fn boundary_fault<W: Write>(
    out: &mut W,
    image: &Image,
    kind: Kind,
    refusal: &[u64],
) -> io::Result<()> {
    let [number, house, start, len, last] = refusal else {
        return Ok(());
    };
    let Some(boundary) = place_of(*house, *start, *len) else {
        return Ok(());
    };
    let halves = Halves {
        boundary,
        station: station_of(image, kind, refusal),
        direction: (*number != 28).then_some(*last),
    };
    write_halves(out, image, halves)?;
    let Image { batch, house, .. } = *image;
    let texts = Texts { batch, house };
    let place = boundary;
    write_words(out, IdentityText { texts, place }, *number, *last)
}
