// Which rows of a station a refusal is about, by its numbers.
use crate::picture::text::RowAt;
use crate::refusal_rows::{row_named, target_named};
use crate::show::words::RowName;
use identity::IdentityPlace;
use identity::texts::Texts;
use range::{IndexSpan, SliceRange};
use schema::row::Row;
use schema::rows::EnclaveImage;
use std::cmp::Ordering;
use std::fmt;

// A refusal's number and the numbers after it, or none at all, and the place of the station in its line.
#[derive(Clone, Copy)]
pub(crate) struct Refused<'a> {
    pub(crate) numbers: &'a [u64],
    pub(crate) station: u32,
}

// The enclave's own record, as the row that it is.
const OWN: RowAt = RowAt {
    table: EnclaveImage::TABLE,
    index: 0,
};

// A row that is named, where its numbers are such as rows have.
fn row_at(named: RowName) -> Option<RowAt> {
    Some(RowAt {
        table: u8::try_from(named.table).ok()?,
        index: u32::try_from(named.index).ok()?,
    })
}

impl<'a> Refused<'a> {
    fn at(self, k: usize) -> Option<u64> {
        self.numbers.get(k).copied()
    }

    // The refusal's own number.
    pub(crate) fn number(self) -> u64 {
        self.at(0).unwrap_or(0)
    }

    // The row that it names, where that is one of this station: what the night refuses names its station first, and too many reactors no row of it.
    pub(crate) fn row(self) -> Option<RowAt> {
        match self.numbers {
            [29..=31, station, ..] if *station != u64::from(self.station) => None,
            [31, ..] => Some(OWN),
            numbers => row_at(row_named(numbers)?),
        }
    }

    // The reaction whose level does not rise over the first one's.
    fn target(self) -> Option<RowAt> {
        row_at(target_named(self.numbers)?)
    }

    pub(crate) fn marks(self, row: RowAt) -> bool {
        self.row() == Some(row) || self.target() == Some(row)
    }

    // Whether the row is one of a table that lies in a range.
    pub(crate) fn is_in(self, table: u8, range: SliceRange) -> bool {
        self.row().is_some_and(|row| row.table == table
            && IndexSpan::from(range).contains(row.index))
    }

    // Whether it names a boundary by its place, as 26 to 28 do, which is that of a route, and where it names a direction (26 and 27) the route's.
    fn names_half(self, texts: Texts, boundary: IdentityPlace, direction: u8) -> Option<bool> {
        let number = self.number();
        let named = IdentityPlace {
            house: self.at(1)? == 1,
            start: u32::try_from(self.at(2)?).ok()?,
            len: u32::try_from(self.at(3)?).ok()?,
        };
        let same = texts.compare(named, boundary) == Ordering::Equal;
        match number {
            26 | 27 => Some(same && self.at(4)? == u64::from(direction)),
            28 => Some(same),
            _ => None,
        }
    }

    pub(crate) fn marks_half(self, texts: Texts, boundary: IdentityPlace, direction: u8) -> bool {
        self.names_half(texts, boundary, direction).unwrap_or(false)
    }
}

impl<'a> fmt::Display for Refused<'a> {
    fn fmt<W: fmt::Write>(&self, f: &mut fmt::Formatter<W>) -> fmt::Result {
        write!(f, "refused")?;
        for n in self.numbers {
            write!(f, " {n}")?;
        }
        Ok(())
    }
}
