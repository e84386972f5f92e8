// The stations of an image as the checks take them: which one a refusal is about, and its rows by table and number.
use crate::image::{Image, Kind, station_in};
use crate::show::rows::{RowText, StationText};
use enclave::check::check_enclave;
use federate::records::{Enclaves, FederateEnclave, enclave_pack_to};
use identity::texts::Texts;
use packing::rules::whole_pack;
use packing::starts::table_starts;
use schema::lent::{Pack, TABLES, TableStarts};
use schema::record::Record;
use schema::row::Row;
use schema::rows::{
    ActionImage, DeadlineImage, EnclaveImage, ModeImage, PortImage, ReactorImage, ScopeImage,
};

// Tables by their numbers, as refusals carry them.
pub(crate) const REACTORS: u64 = ReactorImage::TABLE as u64;

pub(crate) const ACTIONS: u64 = ActionImage::TABLE as u64;

pub(crate) const PORTS: u64 = PortImage::TABLE as u64;

pub(crate) const MODES: u64 = ModeImage::TABLE as u64;

pub(crate) const SCOPES: u64 = ScopeImage::TABLE as u64;

// Its type has the number as a parameter.
pub(crate) const REACTION_MODES: u64 = 12;

pub(crate) const DEADLINES: u64 = DeadlineImage::TABLE as u64;

// A station, where its tables begin in its own pack, and the image that this is a part of.
#[derive(Clone, Copy)]
pub(crate) struct Station<'a> {
    pub(crate) text: StationText<'a>,
    starts: TableStarts,
    image: Image<'a>,
}

impl<'a> Station<'a> {
    // The station whose own record has that number.
    fn of(image: Image<'a>, place: u32, number: usize, pack: Pack) -> Option<Station<'a>> {
        let Image { batch, house, .. } = image;
        Some(Station {
            text: StationText {
                place,
                own: Record::nth(image.pack, number)?,
                texts: Texts { batch, house },
            },
            starts: table_starts(pack.bytes, 1),
            image,
        })
    }

    // How many rows a table has; none for a number that is no table's.
    pub(crate) fn rows(&self, table: u64) -> Option<u32> {
        let table = u8::try_from(table).ok()?;
        if usize::from(table) < TABLES {
            Some(self.starts.rows(table))
        } else {
            None
        }
    }

    // Its own record.
    pub(crate) fn own_row(&self) -> RowText<'a> {
        RowText {
            record: self.text.own,
            station: Some(self.text),
            index: 0,
            texts: self.text.texts,
        }
    }

    // A row by its table and its number there, where the table has it. Its own record is the only row of table 1.
    pub(crate) fn row(&self, table: u64, index: u64) -> Option<RowText<'a>> {
        let table = u8::try_from(table).ok()?;
        if table == EnclaveImage::TABLE {
            return Some(self.own_row());
        }
        let index = u32::try_from(index).ok()?;
        if TABLES <= usize::from(table) || self.starts.rows(table) <= index {
            return None;
        }
        let within = self.starts.record(table, index as usize);
        let number = within.checked_add(self.text.own.number)?;
        Some(RowText {
            record: Record::nth(self.image.pack, number)?,
            station: Some(self.text),
            index,
            texts: self.text.texts,
        })
    }
}

// Whether the check of a station by its own pack refuses with these numbers.
fn refuses(image: &Image, pack: Pack, refusal: &[u64]) -> bool {
    match check_enclave(pack.bytes, image.batch, image.house) {
        Ok(_) => false,
        Err(found) => found.numbers().as_slice() == refusal,
    }
}

// An enclave of a line, where its check refuses with these numbers.
fn refused_enclave<'a>(
    image: &Image<'a>,
    own: FederateEnclave<'a>,
    refusal: &[u64],
) -> Option<Station<'a>> {
    let pack = enclave_pack_to(own.pack, own.number, own.end);
    if !refuses(image, pack, refusal) {
        return None;
    }
    Station::of(*image, own.place, own.number, pack)
}

// The station that is an image by itself.
pub(crate) fn own_station<'a>(image: &Image<'a>) -> Option<Station<'a>> {
    let pack = whole_pack(image.pack).ok()?;
    Station::of(*image, 0, 0, pack)
}

// The first station of a line that refuses with these numbers.
fn refused_in_line<'a>(image: &Image<'a>, refusal: &[u64]) -> Option<Station<'a>> {
    let pack = whole_pack(image.pack).ok()?;
    for own in Enclaves::of(pack) {
        let station = refused_enclave(image, own, refusal);
        if station.is_some() {
            return station;
        }
    }
    None
}

// The station of a line by its place.
fn station_in_line<'a>(image: &Image<'a>, place: u32) -> Option<Station<'a>> {
    let own = station_in(whole_pack(image.pack).ok()?, place)?;
    let pack = enclave_pack_to(own.pack, own.number, own.end);
    Station::of(*image, place, own.number, pack)
}

// The first station of an image that refuses with these numbers.
pub(crate) fn refused_station<'a>(
    image: &Image<'a>,
    kind: Kind,
    refusal: &[u64],
) -> Option<Station<'a>> {
    match kind {
        Kind::Line => refused_in_line(image, refusal),
        Kind::Station => {
            let pack = whole_pack(image.pack).ok()?;
            if refuses(image, pack, refusal) {
                Station::of(*image, 0, 0, pack)
            } else {
                None
            }
        }
    }
}

// The station of an image by its place.
pub(crate) fn station_at<'a>(image: &Image<'a>, kind: Kind, place: u64) -> Option<Station<'a>> {
    let place = u32::try_from(place).ok()?;
    match kind {
        Kind::Line => station_in_line(image, place),
        Kind::Station if place == 0 => own_station(image),
        Kind::Station => None,
    }
}
