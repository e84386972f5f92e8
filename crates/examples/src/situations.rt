// The situations of the operator's three files, each by its own: a line for each with what is tried, and the program's line.
use line_check::{Profile, check_files};
use std::io;

// What is tried, and the names of the pack, the batch text and the house text.
const SITUATIONS: [[&str; 4]; 16] = [
    ["accepted", "line.pack", "batch.txt", "empty.txt"],
    ["refused", "no_slots.pack", "batch.txt", "empty.txt"],
    [
        "empty batch text",
        "in_house.pack",
        "empty.txt",
        "batch.txt",
    ],
    ["empty pack", "empty.txt", "batch.txt", "empty.txt"],
    [
        "65,536 bytes each, whose last bytes count",
        "full.pack",
        "full_batch.txt",
        "full_house.txt",
    ],
    ["no pack", "nothing", "batch.txt", "empty.txt"],
    ["no batch text", "line.pack", "nothing", "empty.txt"],
    ["no house text", "line.pack", "batch.txt", "nothing"],
    [
        "a directory for the pack",
        "directory",
        "batch.txt",
        "empty.txt",
    ],
    [
        "a directory for the batch text",
        "line.pack",
        "directory",
        "empty.txt",
    ],
    [
        "a directory for the house text",
        "line.pack",
        "batch.txt",
        "directory",
    ],
    ["pack a byte too long", "long", "batch.txt", "empty.txt"],
    [
        "batch text a byte too long",
        "line.pack",
        "long",
        "empty.txt",
    ],
    [
        "house text a byte too long",
        "line.pack",
        "batch.txt",
        "long",
    ],
    [
        "pack too long, no house text",
        "long",
        "batch.txt",
        "nothing",
    ],
    [
        "no pack, house text too long",
        "nothing",
        "batch.txt",
        "long",
    ],
];

pub fn cases(rt: &HostRuntime) -> io::Result<()> {
    for [name, pack, batch, house] in SITUATIONS {
        print!(rt; "{name}: ")?;
        let (pack, batch, house) = (pack.as_bytes(), batch.as_bytes(), house.as_bytes());
        check_files(rt, Profile::Day, pack, batch, house)?;
    }
    Ok(())
}
