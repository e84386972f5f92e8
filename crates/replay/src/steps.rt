// The case of a tally: its steps are read to their end, since a line says nothing of a case that is cut off, and then answered one by one.
ghost use Rattle.std.specs.Prelude.{◌≤◌, length, IfOk};

use crate::input::{ReadError, pass_over_parts, read_u32, read_u64};
use answers::Refusal;
use std::fmt;
use std::io::Read;
use tally::{Fraction, LineResult, Tally, add, mean, share};

// A tally, how many steps are taken from it, and the bytes of the steps.
#[derive(Clone, Copy)]
pub struct TallyCase<'a> {
    pub tally: Tally,
    pub count: u32,
    pub steps: &'a [u8],
}

// An answer comes in, or one of the two fractions is asked.
#[derive(Clone, Copy)]
pub enum Step {
    Add(LineResult),
    Share,
    Mean,
}

#[derive(Clone, Copy)]
pub enum StepAnswer {
    Added(Result<(), Refusal>),
    Asked(Result<Fraction, Refusal>),
}

// The bytes of the longest step.
const LONGEST: usize = 9;

// Takes a step, and keeps it at the start of the room. Where the room may not hold one more, none is known.
fn keep_step<R: Read>(input: &mut R, room: &mut [u8]) -> Result<usize, ReadError>
    ensures { IfOk result (λ n. n ≤ length room.old) }
{
    if room.len() < LONGEST {
        return Err(ReadError::UnknownKind);
    }
    input.read_exact(&mut room[..1])?;
    if room[0] == 1 {
        input.read_exact(&mut room[1..LONGEST])?;
        return Ok(LONGEST);
    }
    if room[0] > 3 {
        return Err(ReadError::UnknownKind);
    }
    Ok(1)
}

// Takes so many steps, and answers their bytes.
fn keep_steps<'a, R: Read>(
    input: &mut R,
    room: &'a mut [u8],
    count: u32,
) -> Result<&'a [u8], ReadError> {
    let mut len = 0usize;
    for _ in 0..count {
        len += keep_step(input, &mut room[len..])?;
    }
    Ok(&room[..len])
}

// Takes what follows the first byte of a tally's case; its three strings of bytes are passed over.
pub fn read_tally<'a, R: Read>(
    input: &mut R,
    room: &'a mut [u8],
) -> Result<TallyCase<'a>, ReadError> {
    pass_over_parts(input)?;
    let tally = Tally {
        answers: read_u64(input)?,
        accepted: read_u64(input)?,
        links: read_u64(input)?,
    };
    let count = read_u32(input)?;
    let steps = keep_steps(input, room, count)?;
    Ok(TallyCase {
        tally,
        count,
        steps,
    })
}

// The next of the steps that were kept.
pub fn read_step<R: Read>(steps: &mut R) -> Result<Step, ReadError> {
    let mut kind = [0u8; 1];
    steps.read_exact(&mut kind)?;
    match kind[0] {
        0 => Ok(Step::Add(LineResult::Refused)),
        1 => Ok(Step::Add(LineResult::Accepted {
            links: read_u64(steps)?,
        })),
        2 => Ok(Step::Share),
        3 => Ok(Step::Mean),
        _ => Err(ReadError::UnknownKind),
    }
}

pub fn step_answer(tally: &mut Tally, step: Step) -> StepAnswer {
    match step {
        Step::Add(line) => StepAnswer::Added(add(tally, line)),
        Step::Share => StepAnswer::Asked(share(*tally)),
        Step::Mean => StepAnswer::Asked(mean(*tally)),
    }
}

impl fmt::Display for StepAnswer {
    fn fmt<W: fmt::Write>(&self, f: &mut fmt::Formatter<W>) -> fmt::Result {
        match *self {
            StepAnswer::Added(Ok(())) => write!(f, "added"),
            StepAnswer::Asked(
                Ok(
                    Fraction {
                        numerator,
                        denominator,
                    },
                ),
            ) => { write!(f, "{numerator}/{denominator}") }
            StepAnswer::Added(Err(refusal)) | StepAnswer::Asked(Err(refusal)) => {
                write!(f, "refused {refusal}")
            }
        }
    }
}
