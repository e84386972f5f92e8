// The records of a pack in words: each with its station, its row there, and its fields; of any bytes, since a pack that is refused is looked at as well.
ghost use Rattle.std.specs.Prelude.{◌-◌, ◌/◌, length};
ghost use Rattle.std.specs.Iterator.{at_most};

use crate::image::Image;
use crate::show::fields::fields;
use crate::show::words::{IdentityText, RowName, ValueText};
use identity::texts::Texts;
use packing::clean::clean;
use schema::lent::TABLES;
use schema::record::Record;
use schema::row::{Row, Stored};
use schema::rows::EnclaveImage;
use std::fmt;

// A station: its place in the pack, from 0, and its own record.
#[derive(Clone, Copy)]
pub(crate) struct StationText<'a> {
    pub(crate) place: u32,
    pub(crate) own: Record<'a>,
    pub(crate) texts: Texts<'a>,
}

impl fmt::Display for StationText<'_> {
    fn fmt<W: fmt::Write>(&self, f: &mut fmt::Formatter<W>) -> fmt::Result {
        let StationText {
            place: station,
            own,
            texts,
        } = *self;
        let place = EnclaveImage::of(own).enclave_id;
        write!(f, "station {station}, {}", IdentityText { texts, place })
    }
}

// The 64 bytes of a record, in hexadecimal digits.
#[derive(Clone, Copy)]
struct Bytes<'a>(Record<'a>);

impl fmt::Display for Bytes<'_> {
    fn fmt<W: fmt::Write>(&self, f: &mut fmt::Formatter<W>) -> fmt::Result {
        let record = self.0;
        for j in 0..64 {
            let byte = record.byte(j);
            write!(f, " {byte:02x}")?;
        }
        Ok(())
    }
}

// A record with where it stands: its station, if one begins before it, and its row in its table there.
#[derive(Clone, Copy)]
pub(crate) struct RowText<'a> {
    pub(crate) record: Record<'a>,
    pub(crate) station: Option<StationText<'a>>,
    pub(crate) index: u32,
    pub(crate) texts: Texts<'a>,
}

impl<'a> RowText<'a> {
    pub(crate) fn name(self) -> RowName {
        RowName {
            table: u64::from(self.record.table()),
            index: u64::from(self.index),
        }
    }

    // The place of its station.
    pub(crate) fn place(self) -> Option<u32> {
        self.station.map(|station| station.place)
    }

    // Whether the record is one of a table, without a stray byte.
    fn is_clean(self) -> bool {
        let table = self.record.table();
        usize::from(table) < TABLES && clean(self.record)
    }

    // Its fields, the first after a colon.
    fn write_fields<W: fmt::Write>(self, f: &mut fmt::Formatter<W>) -> fmt::Result {
        let texts = self.texts;
        let list = fields(self.record);
        let mut before = ": ";
        for field in list.as_slice() {
            let (name, value) = (field.name, field.value);
            write!(f, "{before}{name} {}", ValueText { texts, value })?;
            before = ", ";
        }
        Ok(())
    }
}

// Where the fields do not say all of the record, its bytes as well.
impl fmt::Display for RowText<'_> {
    fn fmt<W: fmt::Write>(&self, f: &mut fmt::Formatter<W>) -> fmt::Result {
        let row = *self;
        let number = row.record.number;
        write!(f, "record {number}, ")?;
        if let Some(place) = row.place() {
            write!(f, "station {place}, ")?;
        }
        write!(f, "{}", row.name())?;
        row.write_fields(f)?;
        if !row.is_clean() {
            write!(f, "; its bytes:{}", Bytes(row.record))?;
        }
        Ok(())
    }
}

// The last station so far, and how many records of each table number it has so far.
#[derive(Drop)]
struct Seen<'a> {
    station: Option<StationText<'a>>,
    counts: [u32; 256],
}

impl<'a> Seen<'a> {
    // A station begins with its own record.
    fn enter(&mut self, own: Record<'a>, texts: Texts<'a>) {
        let place = match self.station {
            Some(before) => before.place.saturating_add(1),
            None => 0,
        };
        self.station = Some(StationText { place, own, texts });
        self.counts = [0; 256];
    }

    // The next record, with where it stands.
    fn row(&mut self, record: Record<'a>, texts: Texts<'a>) -> RowText<'a> {
        let table = record.table();
        if table == EnclaveImage::TABLE {
            self.enter(record, texts);
        }
        let t = usize::from(table);
        let index = self.counts[t];
        self.counts[t] = index.saturating_add(1);
        RowText {
            record,
            station: self.station,
            index,
            texts,
        }
    }
}

// A walk over the whole records of a pack: the number of the next one, and what it has seen.
#[derive(Drop)]
pub(crate) struct Rows<'a> {
    image: Image<'a>,
    next: usize,
    seen: Seen<'a>,
}

impl<'a> Rows<'a> {
    pub(crate) fn of(image: Image<'a>) -> Rows<'a> {
        let seen = Seen {
            station: None,
            counts: [0; 256],
        };
        Rows {
            image,
            next: 0,
            seen,
        }
    }
}

impl<'a> Iterator for Rows<'a> {
    type Item = RowText<'a>;

    ghost remaining = { λ w. at_most (length w.image.pack.now / 64 - w.next) };

    fn next(&mut self) -> Option<RowText<'a>> {
        let Image { pack, batch, house } = self.image;
        let record = Record::nth(pack, self.next)?;
        self.next += 1;
        Some(self.seen.row(record, Texts { batch, house }))
    }
}
