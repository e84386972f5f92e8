// Answers one question about stations and lines: the command and its words come in, a line of answer goes out.
#![tactic(auto)]

mod answer;
mod arguments;
mod commands;
mod files;
mod image;
mod picture;
mod place;
mod refusal_rows;
mod show;

use answer::Ended;
use anyhow::{Context, Result};
use std::io;
use std::io::{BufWriter, Write};
use std::process::ExitCode;

// What is written goes through one buffer, so that a long answer takes few calls of the system.
fn run(rt: &HostRuntime) -> Result<Ended> {
    let words = arguments::words(rt)?;
    let request = arguments::understand(rt, words.as_slice())?;
    let mut out = BufWriter::new(rt.alloc(), io::writer(rt))?;
    let ended = commands::answer(rt, &mut out, request)?;
    out.flush().context("the answer could not be written")?;
    Ok(ended)
}

fn main(rt: HostRuntime) -> ExitCode {
    match run(&rt) {
        Ok(ended) => ExitCode::from(ended.status()),
        Err(error) => {
            let _ = eprintln!(rt; "line: {error:#}");
            ExitCode::from(Ended::NoAnswer.status())
        }
    }
}
