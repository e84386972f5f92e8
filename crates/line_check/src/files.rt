// Reading the files of a line image, and what three such reads come to.
ghost use Rattle.std.specs.Prelude.{◌≡◌, ◌<◌, ◌≤◌, length, Some, IfOk, IfSome};
ghost use Rattle.line_check.specs.Files.{error_text, length_within, file_of, together};

use crate::image::{File, LIMIT, LineImage};
use FileError::{NoFile, TooLong};
use std::error::Error;
use std::io::Read;
use std::{fmt, fs, io, rt, str};

// Why a file is not checked.
#[derive(Clone, Copy, Debug, PartialEq, Eq)]
pub enum FileError {
    NoFile,
    TooLong,
}

impl FileError {
    pub fn text(self) -> &'static str
        ensures { result.now ≡ error_text self }
    {
        match self {
            NoFile => "no file",
            TooLong => "too long",
        }
    }
}

impl fmt::Display for FileError {
    ghost output = { λ e. Some (error_text e) };

    fn fmt<W: fmt::Write>(&self, f: &mut fmt::Formatter<W>) -> fmt::Result {
        f.write_str(self.text())
    }
}

impl Error for FileError {}

// Reads until the file ends or the room is full, and answers how many bytes stand in the room. By a loop: std's longer reads do not say how many
// bytes came before the end, and ask for memory.
fn fill<R: Read>(reader: &mut R, room: &mut [u8]) -> io::Result<usize>
    ensures { IfOk result (λ n. n ≤ length room.new) }
{
    let mut at = 0;
    while at < room.len() {
        let n = reader.read(&mut room[at..])?;
        if n == 0 {
            break;
        }
        at += n;
    }
    Ok(at)
}

// How many bytes of the file of that name stand in the room. None where it cannot be read, as a directory or a file whose name is not text.
fn read_room<R: rt::Files>(rt: &R, path: &[u8], room: &mut [u8]) -> Option<usize>
    ensures { IfSome result (λ n. n ≤ length room.new) }
{
    let path = str::from_utf8(path).ok()?;
    let mut file = fs::open(rt, path).ok()?;
    fill(&mut file, room).ok()
}

// How long a file is of which so many bytes stand in a room of this length: one that fills it may go on.
fn length_within(read: Option<usize>, room: usize) -> Result<usize, FileError>
    ensures value { result ≡ length_within read room }
    ensures within { IfOk result (λ n. n < room) }
{
    match read {
        Some(n) if room <= n => Err(TooLong),
        Some(n) => Ok(n),
        None => Err(NoFile),
    }
}

// How many bytes of the file of that name stand in the room, which has a byte more than the longest file that fits.
pub fn read_within<R: rt::Files>(rt: &R, path: &[u8], room: &mut [u8]) -> Result<usize, FileError>
    ensures { IfOk result (λ n. n < length room.new) }
{
    let read = read_room(rt, path, room);
    length_within(read, room.len())
}

// The same of a file of a line image, which has no more bytes than the limit either.
fn file_of(read: Option<usize>, room: usize) -> Result<usize, FileError>
    ensures value { result ≡ file_of read room }
    ensures fits { IfOk result (λ n. n ≤ 65536) }
    ensures within { IfOk result (λ n. n < room) }
{
    match read {
        Some(n) if LIMIT < n || room <= n => Err(TooLong),
        Some(n) => Ok(n),
        None => Err(NoFile),
    }
}

// Reads the file of that name into the room, which has a byte more than the longest file that fits.
pub fn read_file<'a, R: rt::Files>(
    rt: &R,
    path: &[u8],
    room: &'a mut [u8],
) -> Result<File<'a>, FileError>
    ensures within { IfOk result (λ file. file.len ≤ length room.old) }
    ensures place { IfOk result (λ file. file.room.ref_ptr ≡ room.entry.ref_ptr) }
{
    let read = read_room(rt, path, room);
    let len = file_of(read, room.len())?;
    Ok(File { room, len })
}

// A file that is missing decides before one that is too long. Three results, since each file is read on its own.
pub fn together<'a>(
    pack: Result<File<'a>, FileError>,
    batch: Result<File<'a>, FileError>,
    house: Result<File<'a>, FileError>,
) -> Result<LineImage<'a>, FileError>
    ensures { result ≡ together pack.entry batch.entry house.entry }
{
    match (pack, batch, house) {
        (Ok(pack), Ok(batch), Ok(house)) => Ok(LineImage { pack, batch, house }),
        (Err(NoFile), _, _) | (_, Err(NoFile), _) | (_, _, Err(NoFile)) => Err(NoFile),
        _ => Err(TooLong),
    }
}
