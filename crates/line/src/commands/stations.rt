// The answers about a station.
use crate::answer::{About, Ended};
use answers::Refusal;
use mode_owner::mode_owner;
use rising::marks::Marks;
use rising::rising::count_reached;
use std::io;
use std::io::Write;

// A mark for each reaction: a pack has fewer than so many.
const REACTIONS: usize = 65_536;

// Writes the answer of a station's check.
pub(crate) fn write_station<W: Write>(
    out: &mut W,
    about: &About,
    answer: Result<u64, Refusal>,
) -> io::Result<Ended> {
    match answer {
        Ok(links) => {
            writeln!(out, "accepted {links}")?;
            Ok(Ended::Yes)
        }
        Err(refusal) => about.write_refused(out, refusal),
    }
}

// Writes the reactor that a mode belongs to.
pub(crate) fn owner<W: Write>(out: &mut W, about: &About, mode: u32) -> io::Result<Ended> {
    let image = about.image;
    match mode_owner(image.pack, image.batch, image.house, mode) {
        Ok(reactor) => {
            writeln!(out, "owner {}", reactor.0)?;
            Ok(Ended::Yes)
        }
        Err(refusal) => about.write_refused(out, refusal),
    }
}

// Writes the number of each reaction that is marked.
fn write_marked<W: Write>(out: &mut W, marks: &[u8; REACTIONS]) -> io::Result<()> {
    for i in 0..REACTIONS as u32 {
        if Marks::Bytes.is_marked(marks, i) {
            write!(out, " {i}")?;
        }
    }
    Ok(())
}

// Writes how many other reactions one reaches, and which.
#[inline(never)]
pub(crate) fn reach<W: Write>(out: &mut W, about: &About, reaction: u32) -> io::Result<Ended> {
    let mut marks = [0u8; REACTIONS];
    let image = about.image;
    let (pack, batch, house) = (image.pack, image.batch, image.house);
    match count_reached(pack, batch, house, reaction, Marks::Bytes, &mut marks) {
        Ok(count) => {
            write!(out, "reached {count}")?;
            write_marked(out, &marks)?;
            writeln!(out)?;
            Ok(Ended::Yes)
        }
        Err(refusal) => about.write_refused(out, refusal),
    }
}
