// The operator's program: checks a line image that stands in three files, and prints one line.
#![tactic(auto)]

mod files;
mod image;
mod line;

pub use files::{FileError, read_within};
use files::{read_file, together};
use image::ROOM;
pub use line::Profile;
use line::file_line;
use std::io::Write;
use std::{io, rt};

// Reads the files of these names, and writes the line of their answer by that check to standard output.
pub fn check_files<R: rt::Files + Print>(
    rt: &R,
    profile: Profile,
    pack_name: &[u8],
    batch_name: &[u8],
    house_name: &[u8],
) -> io::Result<()> {
    let mut pack_room = [0u8; ROOM];
    let mut batch_room = [0u8; ROOM];
    let mut house_room = [0u8; ROOM];
    let pack = read_file(rt, pack_name, &mut pack_room);
    let batch = read_file(rt, batch_name, &mut batch_room);
    let house = read_file(rt, house_name, &mut house_room);
    let line = file_line(profile, together(pack, batch, house));
    io::writer(rt).write_all(line.as_bytes())
}

// The line image in the current directory.
pub fn run<R: rt::Files + Print>(rt: &R, profile: Profile) -> io::Result<()> {
    check_files(rt, profile, b"line.pack", b"batch.txt", b"house.txt")
}
