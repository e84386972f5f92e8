// Records of a line that are tried and then changed: S in a line `f`.
use crate::parts::s_of;
use crate::rows;
use crate::show::show_change;
use anyhow::Result;
use cases::records::{Pack, Recorded, append};
use schema::index::BindingKind;
use schema::row::Stored;
use schema::rows::{EnclaveImage, ReactorImage};

// A record is tried in the line with this enclave, and then changed in it.
fn show(
    rt: &HostRuntime,
    name: &[u8],
    enclave: EnclaveImage,
    number: u32,
    row: &[u8],
) -> Result<()> {
    let mut pack = Pack::new();
    append(&mut pack, &[rows::federate(2, 0, 1).record()])?;
    append(&mut pack, &s_of(enclave))?;
    show_change(rt, name, pack.as_slice(), b"abf", number, row)
}

fn accepted(rt: &HostRuntime) -> Result<()> {
    let (s, more) = (rows::enclave_s(), rows::enclave(0, 1, 258, 0));
    show(
        rt,
        b"state slots 258 in the place of 1",
        s,
        1,
        &more.record(),
    )?;
    show(rt, b"the record as it is", s, 1, &s.record())
}

// Rows of another length than a record's, and records that are not there or of another table.
fn misplaced(rt: &HostRuntime) -> Result<()> {
    let s = rows::enclave_s();
    let record = s.record();
    show(rt, b"a row of 63 bytes", s, 1, &[1; 63])?;
    show(rt, b"a row of 65 bytes", s, 1, &[1; 65])?;
    show(rt, b"a row of no bytes", s, 1, &[])?;
    show(rt, b"the record after the last", s, 5, &record)?;
    let last = 4_294_967_295;
    show(rt, b"the last record of 32 bits", s, last, &record)?;
    let name = b"a reactor in the place of a scope";
    show(rt, name, s, 3, &ReactorImage::empty().record())
}

// The line's own refusal comes after that of the row's length, and before all others.
fn refused_before(rt: &HostRuntime) -> Result<()> {
    let (none, row) = (rows::enclave(0, 1, 0, 0), rows::enclave_s().record());
    let name = b"a row of 63 bytes, in a line with state slots 0";
    show(rt, name, none, 1, &[1; 63])?;
    let name = b"the record after the last, in a line with state slots 0";
    show(rt, name, none, 5, &row)?;
    let name = b"an enclave in the place of a scope, in a line with state slots 0";
    show(rt, name, none, 3, &row)?;
    let name = b"state slots 1 in the place of 0";
    show(rt, name, none, 1, &row)
}

// The new line's own refusals.
fn refused(rt: &HostRuntime) -> Result<()> {
    let (s, none) = (rows::enclave_s(), rows::enclave(0, 1, 0, 0));
    show(rt, b"state slots 0 in the place of 1", s, 1, &none.record())?;
    let action = rows::binding(1, BindingKind::Action);
    show(rt, b"a binding of an action", s, 4, &action.record())?;
    let mut stray = s.record();
    stray[63] = 1;
    show(rt, b"a stray byte", s, 1, &stray)
}

pub fn cases(rt: &HostRuntime) -> Result<()> {
    accepted(rt)?;
    misplaced(rt)?;
    refused_before(rt)?;
    refused(rt)
}
