// The share accepted and the mean links of a file of line answers.
use crate::answer::{Ended, write_no_answer, write_refused};
use crate::files::say;
use answers::Refusal;
use anyhow::{Context, Result};
use line_check::FileError;
use std::io::{BufRead, BufReader, Write};
use std::{fs, io, str};
use tally::{Fraction, LineResult, Tally, add, empty, mean, share};

// A number in digits alone.
fn number(word: &str) -> Option<u64> {
    if word.starts_with('+') {
        return None;
    }
    word.parse::<u64>().ok()
}

// What an answer of `check` says of a line; none where the text is no such answer.
fn line_result(text: &str) -> Option<LineResult> {
    if let Some(numbers) = text.strip_prefix("refused ") {
        let all = numbers.split(' ').all(|word| number(word).is_some());
        return all.then_some(LineResult::Refused);
    }
    let (stations, links) = text.strip_prefix("accepted ")?.split_once(' ')?;
    number(stations)?;
    Some(LineResult::Accepted {
        links: number(links)?,
    })
}

// Writes a fraction under its name, or why there is none, and says whether there is one.
fn write_fraction<W: Write>(
    out: &mut W,
    name: &str,
    asked: Result<Fraction, Refusal>,
) -> io::Result<bool> {
    match asked {
        Ok(
            Fraction {
                numerator,
                denominator,
            },
        ) => {
            writeln!(out, "{name} {numerator}/{denominator}")?;
            Ok(true)
        }
        Err(refusal) => {
            writeln!(out, "{name} refused {refusal}")?;
            Ok(false)
        }
    }
}

// Writes the share and the mean. Where lines were not understood, those are of the other lines, and no answer for the file.
fn write_fractions<W: Write>(out: &mut W, tally: Tally, understood: bool) -> io::Result<Ended> {
    let shared = write_fraction(out, "share", share(tally))?;
    let meant = write_fraction(out, "mean", mean(tally))?;
    if !understood {
        return Ok(Ended::NoAnswer);
    }
    if shared && meant {
        return Ok(Ended::Yes);
    }
    Ok(Ended::Refused)
}

// Adds each line of a reader, and writes which lines are no answers.
fn tally_lines<R: BufRead, W: Write>(
    rt: &HostRuntime,
    out: &mut W,
    input: &mut R,
) -> Result<Ended> {
    let mut tally = empty();
    let mut understood = true;
    let mut line = Vec::new(rt.alloc());
    for number in 1..u64::MAX {
        line.clear();
        if input
            .read_until(b'\n', &mut line)
            .context("the file could not be read to its end")?
            == 0
        {
            break;
        }
        let bytes = line.as_slice();
        let text = str::from_utf8(bytes.strip_suffix(b"\n").unwrap_or(bytes)).unwrap_or("");
        let Some(result) = line_result(text) else {
            writeln!(out, "not understood {number}")?;
            understood = false;
            continue;
        };
        if let Err(refusal) = add(&mut tally, result) {
            let _ = eprintln!(rt; "line: line {number} was not added");
            return Ok(write_refused(out, refusal)?);
        }
    }
    Ok(write_fractions(out, tally, understood)?)
}

pub(crate) fn tally_file<W: Write>(rt: &HostRuntime, out: &mut W, name: &str) -> Result<Ended> {
    let Ok(file) = fs::open(rt, name) else {
        say(rt, name, FileError::NoFile);
        return Ok(write_no_answer(out, FileError::NoFile)?);
    };
    let mut input = BufReader::new(rt.alloc(), file)?;
    tally_lines(rt, out, &mut input)
}
