// The drawing of a station, with the row marked that the station's check finds at fault.
use crate::answer::{About, Ended};
use crate::image::{Image, Kind};
use crate::picture;
use answers::Refusal;
use anyhow::{Result, ensure};
use enclave::check::check_enclave;
use federate::records::{Enclaves, FederateEnclave, enclave_pack_to};
use identity::texts::Texts;
use packing::PackKind;
use packing::rules::checked_pack;
use schema::lent::Pack;
use std::io::Write;

// What the check of a station of a line says against it, by its own part of the pack.
fn fault_in(image: &Image, station: FederateEnclave) -> Option<Refusal> {
    let own = enclave_pack_to(station.pack, station.number, station.end);
    check_enclave(own.bytes, image.batch, image.house).err()
}

// The station with that number, or else the first with a fault, or else the first; with its fault.
fn station_of(image: &Image, pack: Pack, asked: Option<u32>) -> (u32, Option<Refusal>) {
    for station in Enclaves::of(pack) {
        if asked.unwrap_or(station.place) != station.place {
            continue;
        }
        let fault = fault_in(image, station);
        if asked.is_some() || fault.is_some() {
            return (station.place, fault);
        }
    }
    (asked.unwrap_or(0), None)
}

// Which station is drawn, and what is against it.
fn drawn(about: &About, asked: Option<u32>) -> (u32, Option<Refusal>) {
    let image = &about.image;
    let (batch, house) = (image.batch, image.house);
    if about.kind == Kind::Station {
        let fault = check_enclave(image.pack, batch, house).err();
        return (asked.unwrap_or(0), fault);
    }
    match checked_pack(PackKind::Federate, image.pack, Texts { batch, house }) {
        Ok(pack) => station_of(image, pack, asked),
        Err(refusal) => (asked.unwrap_or(0), Some(refusal)),
    }
}

pub(crate) fn draw<W: Write>(out: &mut W, about: &About, asked: Option<u32>) -> Result<Ended> {
    let (station, fault) = drawn(about, asked);
    let there = match fault {
        Some(refusal) => {
            let numbers = refusal.numbers();
            picture::picture(out, &about.image, station, Some(numbers.as_slice()))?
        }
        None => picture::picture(out, &about.image, station, None)?,
    };
    ensure!(there, "there is no such station");
    Ok(Ended::Yes)
}
