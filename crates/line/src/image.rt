// An image as it was read, what it is of, and its stations.
use federate::records::{Enclaves, FederateEnclave};
use schema::lent::Pack;

// The bytes of a pack and of its two texts.
#[derive(Clone, Copy)]
pub(crate) struct Image<'a> {
    pub(crate) pack: &'a [u8],
    pub(crate) batch: &'a [u8],
    pub(crate) house: &'a [u8],
}

#[derive(Clone, Copy, Debug, PartialEq, Eq)]
pub(crate) enum Kind {
    Station,
    Line,
}

// The station of a pack by its place in the line.
pub(crate) fn station_in<'a>(pack: Pack<'a>, place: u32) -> Option<FederateEnclave<'a>> {
    for station in Enclaves::of(pack) {
        if station.place == place {
            return Some(station);
        }
    }
    None
}
