// One answer line for each case of a corpus.
use crate::answer::answer_of;
use crate::changes::{ChangeCase, change_answer, read_change};
use crate::conversion::{Conversion, conversion_answer, read_conversion};
use crate::input::{
    CHANGE, CONVERT, FIRST_TREE, NEXT_TREE, PREVIEW, REACHED_BITS, REACHED_BYTES, ReadError, Room,
    TALLY, read_kind, read_parts,
};
use crate::reached::{ReachedCase, reached_answer, read_reached};
use crate::scope_trees::{TreeCase, Wanted, read_tree, tree_answer};
use crate::steps::{TallyCase, read_step, read_tally, step_answer};
use arrayvec::ArrayVec;
use rising::marks::Marks;
use std::io;
use std::io::{BufRead, Write};

// Lines that are not written yet.
type Lines = ArrayVec<u8, 8192>;

// Room for any line of an image's case, the longest of which has 176 bytes, for the digits of a record, for any step's answer, and for the end of a line.
const LINE: usize = 192;

fn flush<W: Write>(output: &mut W, lines: &mut Lines) -> io::Result<()> {
    output.write_all(lines.as_slice())?;
    lines.clear();
    Ok(())
}

// Writes the lines where they leave no room for one more.
fn make_room<W: Write>(output: &mut W, lines: &mut Lines) -> io::Result<()> {
    if lines.remaining_capacity() < LINE {
        flush(output, lines)?;
    }
    Ok(())
}

// Adds the line of a tally's case. It may be longer than the lines have room for, so that they are written between steps.
fn add_tally<W: Write>(output: &mut W, lines: &mut Lines, case: TallyCase) -> io::Result<()> {
    let mut tally = case.tally;
    let mut left = case.steps;
    let mut before = "";
    for _ in 0..case.count {
        let Ok(step) = read_step(&mut left) else {
            break;
        };
        write!(lines, "{before}{}", step_answer(&mut tally, step))?;
        before = " ; ";
        make_room(output, lines)?;
    }
    let blank = if case.count == 0 { "" } else { " " };
    writeln!(
        lines,
        "{blank}| {} {} {}",
        tally.answers, tally.accepted, tally.links
    )
}

// Adds bytes as they are after a call, in hexadecimal digits. They may be longer than the lines have room for, so that these are written between records.
fn add_bytes<W: Write>(output: &mut W, lines: &mut Lines, bytes: &[u8]) -> io::Result<()> {
    let before = if bytes.is_empty() { " | -" } else { " | " };
    write!(lines, "{before}")?;
    for record in bytes.chunks(64) {
        make_room(output, lines)?;
        for byte in record {
            write!(lines, "{byte:02x}")?;
        }
    }
    make_room(output, lines)
}

// Adds the line of a record that is changed or tried: the answer, and the pack as it then is.
fn add_change<W: Write>(output: &mut W, lines: &mut Lines, case: ChangeCase) -> io::Result<()> {
    let mut case = case;
    let answer = change_answer(&mut case);
    write!(lines, "{answer}")?;
    add_bytes(output, lines, case.pack)?;
    writeln!(lines)
}

// Adds the line of a conversion: the answer, and the output as it then is.
fn add_conversion<W: Write>(output: &mut W, lines: &mut Lines, case: Conversion) -> io::Result<()> {
    let mut case = case;
    match conversion_answer(&mut case) {
        Ok(()) => write!(lines, "converted")?,
        Err(refusal) => write!(lines, "refused {refusal}")?,
    }
    add_bytes(output, lines, case.output)?;
    writeln!(lines)
}

// Adds the line of a tree's case: the answer, and the table as it then is.
fn add_tree<W: Write>(output: &mut W, lines: &mut Lines, case: TreeCase) -> io::Result<()> {
    let mut case = case;
    let answer = tree_answer(&mut case);
    write!(lines, "{answer}")?;
    add_bytes(output, lines, case.table)?;
    writeln!(lines)
}

// Adds the line of what a reaction reaches: the answer, and the marks.
fn add_reached<W: Write>(output: &mut W, lines: &mut Lines, case: ReachedCase) -> io::Result<()> {
    let mut case = case;
    let answer = reached_answer(&mut case);
    write!(lines, "{answer}")?;
    add_bytes(output, lines, case.scratch)?;
    writeln!(lines)
}

// Takes what follows the first byte of a case of that kind, and adds its line.
fn answer_case<R: BufRead, W: Write>(
    kind: u8,
    input: &mut R,
    room: &mut Room,
    output: &mut W,
    lines: &mut Lines,
) -> Result<(), ReadError> {
    let added = match kind {
        REACHED_BYTES => {
            let case = read_reached(Marks::Bytes, input, room)?;
            add_reached(output, lines, case)
        }
        REACHED_BITS => {
            let case = read_reached(Marks::Bits, input, room)?;
            add_reached(output, lines, case)
        }
        CHANGE | PREVIEW => {
            let case = read_change(kind == CHANGE, input, room)?;
            add_change(output, lines, case)
        }
        CONVERT => {
            let case = read_conversion(input, room)?;
            add_conversion(output, lines, case)
        }
        FIRST_TREE => {
            let case = read_tree(Wanted::First, input, room)?;
            add_tree(output, lines, case)
        }
        NEXT_TREE => {
            let case = read_tree(Wanted::Next, input, room)?;
            add_tree(output, lines, case)
        }
        TALLY => {
            let case = read_tally(input, room.pack)?;
            add_tally(output, lines, case)
        }
        _ => {
            let case = read_parts(kind, input, room)?;
            writeln!(lines, "{}", answer_of(case))
        }
    };
    added.map_err(ReadError::Failed)
}

// Adds the line of the next case, and says whether one may follow.
fn answer_next<R: BufRead, W: Write>(
    input: &mut R,
    room: &mut Room,
    output: &mut W,
    lines: &mut Lines,
) -> io::Result<bool> {
    let Some(kind) = read_kind(input)? else {
        return Ok(false);
    };
    match answer_case(kind, input, room, output, lines) {
        Ok(()) => Ok(true),
        Err(ReadError::CutOff) => {
            writeln!(lines, "cut off")?;
            Ok(false)
        }
        Err(ReadError::UnknownKind) => {
            writeln!(lines, "unknown kind")?;
            Ok(false)
        }
        Err(ReadError::Failed(error)) => Err(error),
    }
}

// Answers each case, to the end of the corpus or to a case that is cut off or of no known kind. Nothing says that the input ends, so the turns are counted.
pub fn answer_all<R: BufRead, W: Write>(
    input: &mut R,
    room: &mut Room,
    output: &mut W,
) -> io::Result<()> {
    let mut lines = Lines::new();
    for _ in 0..u64::MAX {
        let next = answer_next(input, room, output, &mut lines);
        if next.is_err() || lines.remaining_capacity() < LINE {
            flush(output, &mut lines)?;
        }
        if !next? {
            break;
        }
    }
    flush(output, &mut lines)
}
