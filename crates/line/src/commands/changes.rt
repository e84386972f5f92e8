// One record of a line tried, or changed in its file.
ghost use Rattle.std.specs.Prelude.{◌≤◌, IfOk};

use crate::answer::{About, Ended, write_accepted, write_no_answer, write_refused};
use crate::arguments::Change;
use crate::commands::directory::Parts;
use crate::files::{Version, put_in_place, say};
use crate::image::{Image, Kind};
use answers::Refusal;
use anyhow::Result;
use change::{change_record, preview_record};
use federate::FederateAccepted;
use federate::check::check_federate;
use line_check::{FileError, read_within};
use std::io;
use std::io::Write;

// The file of a pack, and which it was before it was read.
#[derive(Clone, Copy)]
pub(crate) struct PackFile<'a> {
    pub(crate) name: &'a str,
    pub(crate) version: Option<Version>,
}

// Room for a row, and for a byte more, by which a longer file is told: that one is no record for the check.
const ROOM: usize = 65;

// How many bytes of the row's file stand in the room.
fn read_row(rt: &HostRuntime, name: &str, room: &mut [u8; ROOM]) -> Result<usize, FileError>
    ensures { IfOk result (λ n. n ≤ 65) }
{
    match read_within(rt, name.as_bytes(), room) {
        Err(FileError::TooLong) => Ok(ROOM),
        Err(error) => {
            say(rt, name, error);
            Err(error)
        }
        Ok(len) => Ok(len),
    }
}

// Writes the row over the record, if the pack has it and the row is one.
fn put(pack: &mut [u8], record: u32, row: &[u8]) {
    let at = record as usize * 64;
    if at + 64 <= pack.len() && row.len() == 64 {
        pack[at..at + 64].copy_from_slice(row);
    }
}

// The words that say where the fault is: in the line as it would be, where the line as it stands is accepted.
fn write_place<W: Write>(
    out: &mut W,
    parts: Parts,
    record: u32,
    row: &[u8],
    refusal: Refusal,
) -> io::Result<()> {
    let Parts { pack, batch, house } = parts;
    if check_federate(pack, batch, house).is_ok() {
        put(pack, record, row);
    }
    let about = About {
        image: Image {
            pack: &*pack,
            batch,
            house,
        },
        kind: Kind::Line,
        explain: true,
    };
    about.write_place(out, refusal)
}

// Tries the record, or changes it in the lent pack.
fn changed(parts: &mut Parts, change: Change, row: &[u8]) -> Result<FederateAccepted, Refusal> {
    let pack = &mut *parts.pack;
    if change.writes {
        return change_record(pack, parts.batch, parts.house, change.record, row);
    }
    preview_record(pack, parts.batch, parts.house, change.record, row)
}

// Tries a record of the line whose pack was read from that file, or changes it there.
pub(crate) fn answer<W: Write>(
    rt: &HostRuntime,
    out: &mut W,
    file: PackFile,
    parts: Parts,
    change: Change,
    explain: bool,
) -> Result<Ended> {
    let mut parts = parts;
    let mut room = [0u8; ROOM];
    let row = match read_row(rt, change.file, &mut room) {
        Ok(len) => &room[..len],
        Err(error) => return Ok(write_no_answer(out, error)?),
    };
    match changed(&mut parts, change, row) {
        Ok(accepted) => {
            if change.writes {
                put_in_place(rt, file.name, file.version, &*parts.pack)?;
            }
            Ok(write_accepted(out, accepted)?)
        }
        Err(refusal) => {
            let ended = write_refused(out, refusal)?;
            if explain {
                write_place(out, parts, change.record, row, refusal)?;
            }
            Ok(ended)
        }
    }
}
