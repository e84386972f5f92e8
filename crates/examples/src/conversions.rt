// Packs that are converted, each into an output whose bytes are all FF.
use crate::rows;
use crate::show::show_name;
use anyhow::Result;
use cases::records::Recorded;
use convert::convert;
use packing::PackKind;
use schema::rows::EnclaveImage;

// The answer, and the output after it.
fn show(
    rt: &HostRuntime,
    name: &[u8],
    kind: PackKind,
    pack: &[u8],
    output: &mut [u8],
) -> Result<()> {
    show_name(rt, name)?;
    match convert(kind, pack, output) {
        Ok(()) => print!(rt; "converted | ")?,
        Err(refusal) => print!(rt; "refused {refusal} | ")?,
    }
    if output.is_empty() {
        print!(rt; "-")?;
    }
    for byte in output.iter() {
        print!(rt; "{byte:02x}")?;
    }
    println!(rt; "")?;
    Ok(())
}

// An enclave's own record.
fn show_one(rt: &HostRuntime, name: &[u8], enclave: EnclaveImage) -> Result<()> {
    let pack = enclave.record();
    show(rt, name, PackKind::Enclave, &pack, &mut [0xFF; 64])
}

// What was converted, converted again.
fn show_twice(rt: &HostRuntime, name: &[u8]) -> Result<()> {
    let mut there = [0; 64];
    let _ = convert(PackKind::Enclave, &rows::enclave_s().record(), &mut there);
    show(rt, name, PackKind::Enclave, &there, &mut [0xFF; 64])
}

// 1 and 34 before what is asked of the records.
fn lengths(rt: &HostRuntime) -> Result<()> {
    let pack = rows::enclave_s().record();
    let (station, line) = (PackKind::Enclave, PackKind::Federate);
    show(rt, b"63 bytes, into none", station, &[0; 63], &mut [])?;
    let name = b"a station's own record, into 63 bytes";
    show(rt, name, station, &pack, &mut [0xFF; 63])?;
    let name = b"the same for a line, into 63 bytes";
    show(rt, name, line, &pack, &mut [0xFF; 63])?;
    let name = b"the same for a line, into 64 bytes";
    show(rt, name, line, &pack, &mut [0xFF; 64])
}

// Record by record: the first record's stray byte before the second one's table.
fn records(rt: &HostRuntime) -> Result<()> {
    let mut stray = rows::enclave_s().record();
    let mut unknown = [0; 64];
    stray[3] = 1;
    unknown[0] = 26;
    let name = b"a stray byte, then table 26";
    let pack = [stray, unknown];
    let output = &mut [0xFF; 128];
    show(rt, name, PackKind::Enclave, pack.as_flattened(), output)?;
    let name = b"table 26 after a station's own record";
    let pack = [rows::enclave_s().record(), unknown];
    let output = &mut [0xFF; 128];
    show(rt, name, PackKind::Enclave, pack.as_flattened(), output)
}

pub fn cases(rt: &HostRuntime) -> Result<()> {
    show_one(rt, b"a station's own record", rows::enclave_s())?;
    show_twice(rt, b"the same, converted twice")?;
    let name = b"an identity outside its text, which is not asked";
    show_one(rt, name, rows::enclave(9, 9, 1, 0))?;
    let name = b"with a deadline of 1,000 ns, into 130 bytes";
    let pack = [rows::enclave_s().record(), rows::deadline(2, 1000).record()];
    let output = &mut [0xFF; 130];
    show(rt, name, PackKind::Enclave, pack.as_flattened(), output)?;
    lengths(rt)?;
    records(rt)
}
