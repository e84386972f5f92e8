// A line for each case: its name, and the answer of the check for its pack. The runtime goes beside a name, as it goes to all that prints.
use answers::Refusal;
use anyhow::Result;
use cases::records::{Pack, RecordBytes, Recorded, append};
use change::{change_record, preview_record};
use enclave::check::check_enclave;
use federate::FederateAccepted;
use federate::check::check_federate;
use mode_owner::mode_owner;
use night::check_federate_night;
use rising::marks::Marks;
use rising::rising::{check_rising, count_reached};
use schema::rows::FederateImage;
use std::io;
use std::io::Write;

pub fn show_name(rt: &HostRuntime, name: &[u8]) -> io::Result<()> {
    io::writer(rt).write_all(name)?;
    print!(rt; ": ")
}

// The answer for the bytes of a station.
pub fn show_enclave_bytes(rt: &HostRuntime, name: &[u8], pack: &[u8], batch: &[u8]) -> Result<()> {
    show_name(rt, name)?;
    match check_enclave(pack, batch, b"") {
        Ok(links) => println!(rt; "accepted {links}")?,
        Err(refusal) => println!(rt; "refused {refusal}")?,
    }
    Ok(())
}

// The answer for the records of a station.
pub fn show_enclave(
    rt: &HostRuntime,
    name: &[u8],
    records: &[RecordBytes],
    batch: &[u8],
) -> Result<()> {
    show_enclave_bytes(rt, name, records.as_flattened(), batch)
}

// The owner of a mode of a station.
pub fn show_owner(
    rt: &HostRuntime,
    name: &[u8],
    records: &[RecordBytes],
    batch: &[u8],
    mode: u32,
) -> Result<()> {
    show_name(rt, name)?;
    match mode_owner(records.as_flattened(), batch, b"", mode) {
        Ok(reactor) => println!(rt; "owner {}", reactor.0)?,
        Err(refusal) => println!(rt; "refused {refusal}")?,
    }
    Ok(())
}

// The second check of a station, whose batch text is `abcd`.
pub fn show_rising(rt: &HostRuntime, name: &[u8], records: &[RecordBytes]) -> Result<()> {
    show_name(rt, name)?;
    match check_rising(records.as_flattened(), b"abcd", b"") {
        Ok(links) => println!(rt; "accepted {links}")?,
        Err(refusal) => println!(rt; "refused {refusal}")?,
    }
    Ok(())
}

// What a reaction of a station reaches, whose batch text is `abcd`, and the lent bytes after it.
pub fn show_reached(
    rt: &HostRuntime,
    name: &[u8],
    records: &[RecordBytes],
    reaction: u32,
    kind: Marks,
    lent: &mut [u8],
) -> Result<()> {
    show_name(rt, name)?;
    match count_reached(records.as_flattened(), b"abcd", b"", reaction, kind, lent) {
        Ok(count) => print!(rt; "reached {count}")?,
        Err(refusal) => print!(rt; "refused {refusal}")?,
    }
    print!(rt; " |")?;
    for byte in lent {
        print!(rt; " {byte}")?;
    }
    println!(rt; "")?;
    Ok(())
}

// The pack of a line: its own record, and the records of each station.
fn line_pack(federate: FederateImage, stations: &[&[RecordBytes]]) -> Result<Pack> {
    let mut pack = Pack::new();
    append(&mut pack, &[federate.record()])?;
    for station in stations {
        append(&mut pack, station)?;
    }
    Ok(pack)
}

fn show_line(
    rt: &HostRuntime,
    name: &[u8],
    answer: Result<FederateAccepted, Refusal>,
) -> Result<()> {
    show_name(rt, name)?;
    match answer {
        Ok(FederateAccepted { enclaves, links }) => println!(rt; "accepted {enclaves} {links}")?,
        Err(refusal) => println!(rt; "refused {refusal}")?,
    }
    Ok(())
}

// The answer for a line.
pub fn show_federate(
    rt: &HostRuntime,
    name: &[u8],
    federate: FederateImage,
    stations: &[&[RecordBytes]],
    batch: &[u8],
) -> Result<()> {
    let pack = line_pack(federate, stations)?;
    show_line(rt, name, check_federate(pack.as_slice(), batch, b""))
}

// The answer at night for the bytes of a line, and for its records.
pub fn show_night_bytes(rt: &HostRuntime, name: &[u8], pack: &[u8], batch: &[u8]) -> Result<()> {
    show_line(rt, name, check_federate_night(pack, batch, b""))
}

pub fn show_night(
    rt: &HostRuntime,
    name: &[u8],
    federate: FederateImage,
    stations: &[&[RecordBytes]],
    batch: &[u8],
) -> Result<()> {
    let pack = line_pack(federate, stations)?;
    show_night_bytes(rt, name, pack.as_slice(), batch)
}

fn show_answer(rt: &HostRuntime, answer: Result<FederateAccepted, Refusal>) -> io::Result<()> {
    match answer {
        Ok(FederateAccepted { enclaves, links }) => print!(rt; "accepted {enclaves} {links}"),
        Err(refusal) => print!(rt; "refused {refusal}"),
    }
}

// What trying a record answers and what changing it answers, and how many of the pack's bytes are others after that.
pub fn show_change(
    rt: &HostRuntime,
    name: &[u8],
    pack: &[u8],
    batch: &[u8],
    number: u32,
    row: &[u8],
) -> Result<()> {
    let mut after = Pack::new();
    after.try_extend_from_slice(pack)?;
    show_name(rt, name)?;
    show_answer(rt, preview_record(pack, batch, b"", number, row))?;
    print!(rt; " ; ")?;
    show_answer(
        rt,
        change_record(after.as_mut_slice(), batch, b"", number, row),
    )?;
    let bytes = pack.iter().zip(after.as_slice());
    let others = bytes.filter(|(before, after)| before != after).count();
    println!(rt; " | {others} bytes")?;
    Ok(())
}
