// Reading a corpus, case by case. Its numbers go high byte first.
ghost use Rattle.std.specs.Prelude.{◌≡◌, ◌≤◌, length, IfOk};
ghost use Rattle.replay.specs.Within.{Within};

use std::io;
use std::io::{BufRead, ErrorKind, Read};

// What is asked of a pack and its texts, where nothing is lent to be written: a check, by day, at night or with rising levels, or the owner of a mode.
#[derive(Clone, Copy)]
pub enum Question {
    Enclave,
    Federate,
    FederateNight,
    Rising,
    ModeOwner { mode: u32 },
}

// A question with what was kept of each part.
#[derive(Clone, Copy)]
pub struct Case<'a> {
    pub question: Question,
    pub pack: &'a [u8],
    pub batch: &'a [u8],
    pub house: &'a [u8],
}

// The corpus's numbers for the kinds of question.
const ENCLAVE: u8 = 0;

const FEDERATE: u8 = 1;

const FEDERATE_NIGHT: u8 = 2;

const RISING: u8 = 3;

pub const REACHED_BYTES: u8 = 4;

pub const REACHED_BITS: u8 = 5;

const MODE_OWNER: u8 = 6;

pub const CONVERT: u8 = 7;

pub const CHANGE: u8 = 8;

pub const PREVIEW: u8 = 9;

pub const FIRST_TREE: u8 = 10;

pub const NEXT_TREE: u8 = 11;

pub const TALLY: u8 = 12;

// Why a case is not read: it is cut off, its first byte is no kind of question or one of its steps is none, or its reading failed.
#[derive(Debug, Drop)]
pub enum ReadError {
    CutOff,
    UnknownKind,
    Failed(io::Error),
}

impl From<io::Error> for ReadError {
    fn from(error: io::Error) -> ReadError {
        match error.kind() {
            ErrorKind::UnexpectedEof => ReadError::CutOff,
            _ => ReadError::Failed(error),
        }
    }
}

pub fn read_u64<R: Read>(input: &mut R) -> Result<u64, ReadError> {
    let mut bytes = [0u8; 8];
    input.read_exact(&mut bytes)?;
    Ok(u64::from_be_bytes(bytes))
}

pub fn read_u32<R: Read>(input: &mut R) -> Result<u32, ReadError> {
    let mut bytes = [0u8; 4];
    input.read_exact(&mut bytes)?;
    Ok(u32::from_be_bytes(bytes))
}

// Takes bytes that are not kept: none of most parts, for which no block is cleared.
pub fn pass_over<R: Read>(input: &mut R, len: usize) -> Result<(), ReadError> {
    if len == 0 {
        return Ok(());
    }
    let passed = io::copy(&mut input.by_ref().take(len as u64), &mut io::sink())?;
    if passed < len as u64 {
        return Err(ReadError::CutOff);
    }
    Ok(())
}

// Takes `len` bytes, keeps as many as `room` has room for, and answers how many.
pub fn keep<R: Read>(input: &mut R, room: &mut [u8], len: u32) -> Result<usize, ReadError>
    ensures { IfOk result (λ n. n ≤ length room.new) }
{
    let len = len as usize;
    let kept = len.min(room.len());
    input.read_exact(&mut room[..kept])?;
    pass_over(input, len - kept)?;
    Ok(kept)
}

// Takes bytes with their length before them, into the room, and answers how many. A case with more of them than the room holds is of no known kind.
pub fn read_lent<R: Read>(input: &mut R, room: &mut [u8]) -> Result<usize, ReadError>
    ensures { IfOk result (λ n. n ≤ length room.new) }
{
    let len = read_u32(input)? as usize;
    if room.len() < len {
        return Err(ReadError::UnknownKind);
    }
    input.read_exact(&mut room[..len])?;
    Ok(len)
}

// Takes a pack and two texts that a question has no use for.
pub fn pass_over_parts<R: Read>(input: &mut R) -> Result<(), ReadError> {
    let pack_len = read_u32(input)?;
    let batch_len = read_u32(input)?;
    let house_len = read_u32(input)?;
    pass_over(input, pack_len as usize)?;
    pass_over(input, batch_len as usize)?;
    pass_over(input, house_len as usize)
}

// Takes `len` bytes, and lends those that are kept.
pub fn take<'a, R: Read>(input: &mut R, room: &'a mut [u8], len: u32) -> Result<&'a [u8], ReadError>
    ensures within { IfOk result (λ s. length s.now ≤ length room.old) }
    ensures place { IfOk result (λ s. s.ref_ptr ≡ room.entry.ref_ptr) }
{
    let kept = keep(input, room, len)?;
    Ok(&room[..kept])
}

// Room for the parts of a case and for the bytes that it lends: nothing here asks for memory.
#[derive(Drop)]
pub struct Room<'a> {
    pub pack: &'a mut [u8],
    pub batch: &'a mut [u8],
    pub house: &'a mut [u8],
    pub lent: &'a mut [u8],
}

// Takes what follows the parts of a question of that kind.
fn read_question<R: Read>(kind: u8, input: &mut R) -> Result<Question, ReadError> {
    match kind {
        ENCLAVE => Ok(Question::Enclave),
        FEDERATE => Ok(Question::Federate),
        FEDERATE_NIGHT => Ok(Question::FederateNight),
        RISING => Ok(Question::Rising),
        MODE_OWNER => Ok(Question::ModeOwner {
            mode: read_u32(input)?,
        }),
        _ => Err(ReadError::UnknownKind),
    }
}

// Takes the parts of a case of that kind, and its question.
pub fn read_parts<'a, R: Read>(
    kind: u8,
    input: &mut R,
    room: &'a mut Room,
) -> Result<Case<'a>, ReadError>
    ensures { IfOk result (λ c. Within c (length room.old.pack.now) (length room.old.batch.now) (length room.old.house.now)) }
{
    let pack_len = read_u32(input)?;
    let batch_len = read_u32(input)?;
    let house_len = read_u32(input)?;
    let Room {
        pack,
        batch,
        house,
        ..
    } = room;
    let pack = take(input, pack, pack_len)?;
    let batch = take(input, batch, batch_len)?;
    let house = take(input, house, house_len)?;
    let question = read_question(kind, input)?;
    Ok(Case {
        question,
        pack,
        batch,
        house,
    })
}

// Takes the first byte of the next case, its kind, if there is one.
pub fn read_kind<R: BufRead>(input: &mut R) -> io::Result<Option<u8>> {
    if input.fill_buf()?.is_empty() {
        return Ok(None);
    }
    let mut kind = [0u8; 1];
    input.read_exact(&mut kind)?;
    Ok(Some(kind[0]))
}
