// Tallies of line answers.
use crate::show::show_name;
use anyhow::Result;
use tally::{LineResult, Tally, add, mean, share};

const LAST: u64 = 18_446_744_073_709_551_615;

fn of(answers: u64, accepted: u64, links: u64) -> Tally {
    Tally {
        answers,
        accepted,
        links,
    }
}

// Adds an answer, and shows the tally after it.
fn show_add(rt: &HostRuntime, name: &[u8], before: Tally, line: LineResult) -> Result<()> {
    let mut tally = before;
    show_name(rt, name)?;
    match add(&mut tally, line) {
        Ok(()) => print!(rt; "added")?,
        Err(refusal) => print!(rt; "refused {refusal}")?,
    }
    println!(rt; " | {} {} {}", tally.answers, tally.accepted, tally.links)?;
    Ok(())
}

fn show_fractions(rt: &HostRuntime, name: &[u8], tally: Tally) -> Result<()> {
    show_name(rt, name)?;
    match share(tally) {
        Ok(part) => print!(rt; "{}/{}", part.numerator, part.denominator)?,
        Err(refusal) => print!(rt; "refused {refusal}")?,
    }
    match mean(tally) {
        Ok(part) => println!(rt; " ; {}/{}", part.numerator, part.denominator)?,
        Err(refusal) => println!(rt; " ; refused {refusal}")?,
    }
    Ok(())
}

pub fn cases(rt: &HostRuntime) -> Result<()> {
    let accepted = LineResult::Accepted { links: 6 };
    show_add(
        rt,
        b"an accepted answer with 6 links",
        of(0, 0, 0),
        accepted,
    )?;
    show_add(rt, b"a refused answer", of(1, 1, 6), LineResult::Refused)?;
    show_add(
        rt,
        b"full, and the links too many",
        of(1_000_000, 1, LAST),
        accepted,
    )?;
    show_add(rt, b"the links too many", of(999_999, 1, LAST), accepted)?;
    show_add(
        rt,
        b"full, of links and no accepted answer",
        of(1_000_000, 0, 1),
        accepted,
    )?;
    show_fractions(rt, b"share and mean of 4 of 6, 10 links", of(6, 4, 10))?;
    show_fractions(rt, b"of no answer", of(0, 0, 0))?;
    show_fractions(rt, b"of refused answers alone", of(3, 0, 0))?;
    show_fractions(rt, b"of more accepted answers than answers", of(0, 1, 0))
}
