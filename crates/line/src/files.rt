// Files by name: reading one into a lent room, and putting a new one in the place of an old one.
ghost use Rattle.std.specs.Prelude.{◌≤◌, length, IfOk};

use anyhow::{Context, Result, ensure};
use line_check::{FileError, read_within};
use std::fs::{File, Permissions};
use std::io::Write;
use std::os::unix::fs::MetadataExt;
use std::path::PathBuf;
use std::{fs, io};

// Says on standard error which file is not looked at.
pub(crate) fn say(rt: &HostRuntime, name: &str, error: FileError) {
    let _ = eprintln!(rt; "line: {name}: {error}");
}

// How many bytes of a file stand in the room, which has a byte more than the longest file that fits.
pub(crate) fn read_file(rt: &HostRuntime, name: &str, room: &mut [u8]) -> Result<usize, FileError>
    ensures { IfOk result (λ n. n ≤ length room.new) }
{
    let read = read_within(rt, name.as_bytes(), room);
    if let Err(error) = read {
        say(rt, name, error);
    }
    read
}

// Where a file of that name stands, links followed, or where it would stand.
fn real_place(rt: &HostRuntime, name: &str) -> io::Result<PathBuf> {
    match fs::canonicalize(rt, name) {
        Ok(place) => Ok(place),
        Err(_) => Ok(PathBuf::from_str(rt.alloc(), name)?),
    }
}

// The permissions of the file in that place, if there is one. A directory or a device in its place is not written over.
fn permissions_of(rt: &HostRuntime, place: &str) -> Result<Option<Permissions>> {
    let Ok(metadata) = fs::metadata(rt, place) else {
        return Ok(None);
    };
    ensure!(metadata.is_file(), "not a file: {place}");
    Ok(Some(metadata.permissions()))
}

// Writes the bytes, and returns when the disk has them.
fn write_whole(file: &mut File, permissions: Option<Permissions>, bytes: &[u8]) -> io::Result<()> {
    if let Some(permissions) = permissions {
        file.set_permissions(permissions)?;
    }
    file.write_all(bytes)?;
    file.sync_all()
}

// Which file stands in a place, and since when: what a change puts there is another.
#[derive(Clone, Copy, PartialEq, Eq)]
pub(crate) struct Version {
    inode: u64,
    seconds: i64,
    nanos: i64,
}

pub(crate) fn version_of(rt: &HostRuntime, name: &str) -> Option<Version> {
    let metadata = fs::metadata(rt, name).ok()?;
    Some(Version {
        inode: metadata.ino(),
        seconds: metadata.mtime(),
        nanos: metadata.mtime_nsec(),
    })
}

// Writes the bytes to the file beside a place, and puts it there. Where the bytes were made from what stood there before, that must still stand there.
fn fill_and_rename(
    rt: &HostRuntime,
    file: &mut File,
    beside: &str,
    place: &str,
    made_from: Option<Version>,
    bytes: &[u8],
) -> Result<()> {
    let permissions = permissions_of(rt, place)?;
    ensure!(
        made_from.is_none() || version_of(rt, place) == made_from,
        "changed by someone else meanwhile: {place}"
    );
    write_whole(file, permissions, bytes).context(format_args!(
        "could not write {place}, which is as it was"
    ))?;
    fs::rename(rt, beside, place).context(format_args!(
        "could not rename to {place}, which is as it was"
    ))
}

// Puts a file with these bytes in the place of the file of that name, if there is one. They are written beside it, to a file that was not there before, and
// only the whole file takes its place: whatever happens, the old one or the new one is there, whole.
pub(crate) fn put_in_place(
    rt: &HostRuntime,
    name: &str,
    made_from: Option<Version>,
    bytes: &[u8],
) -> Result<()> {
    let place = real_place(rt, name)?;
    let place = place.as_str();
    let beside = format!(in rt.alloc(); "{place}.new")?;
    let beside = beside.as_str();
    let mut file = File::create_new(rt, beside).context(format_args!("could not make {beside}"))?;
    let placed = fill_and_rename(rt, &mut file, beside, place, made_from, bytes);
    if placed.is_err() {
        let _ = fs::remove_file(rt, beside);
    }
    placed
}
