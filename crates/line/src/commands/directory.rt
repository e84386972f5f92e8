// What is asked of the files in a directory: a pack and its two texts.
ghost use Rattle.std.specs.Prelude.{◌≤◌};

use crate::answer::{About, Ended, write_accepted, write_no_answer};
use crate::arguments::{Asked, Question};
use crate::commands::changes::PackFile;
use crate::commands::{changes, pictures, stations};
use crate::files::{read_file, version_of};
use crate::image::{Image, Kind};
use crate::show;
use answers::Refusal;
use anyhow::{Result, ensure};
use enclave::check::check_enclave;
use federate::FederateAccepted;
use federate::check::check_federate;
use line_check::FileError;
use night::check_federate_night;
use rising::rising::check_rising;
use std::io::Write;
use std::path::{Path, PathBuf};
use std::{fs, io};

// Room for the three files: nothing here asks for memory for them.
#[derive(Drop)]
struct Rooms<'a> {
    pack: &'a mut [u8],
    batch: &'a mut [u8],
    house: &'a mut [u8],
}

// The names of the three files.
#[derive(Drop)]
struct Names {
    pack: PathBuf,
    batch: PathBuf,
    house: PathBuf,
}

// What was read of the three files. The pack is lent to be written, since a change writes there first.
#[derive(Drop)]
pub(crate) struct Parts<'a> {
    pub(crate) pack: &'a mut [u8],
    pub(crate) batch: &'a [u8],
    pub(crate) house: &'a [u8],
}

impl<'a> Parts<'a> {
    fn image(self) -> Image<'a> {
        let Parts { pack, batch, house } = self;
        Image {
            pack: &*pack,
            batch,
            house,
        }
    }
}

fn name_in(rt: &HostRuntime, dir: &str, name: &str) -> io::Result<PathBuf> {
    Ok(Path::new(dir).join(rt.alloc(), name)?)
}

// What the question is asked of; where of either, of the directory's line, if it has one.
fn kind_asked(rt: &HostRuntime, dir: &str, asked: Asked) -> io::Result<Kind> {
    match asked {
        Asked::Change(_) | Asked::Image(Question::Check | Question::Night) => Ok(Kind::Line),
        Asked::Image(Question::Show { .. } | Question::Picture { .. }) => {
            if fs::exists(rt, name_in(rt, dir, "line.pack")?)? {
                return Ok(Kind::Line);
            }
            Ok(Kind::Station)
        }
        Asked::Image(_) => Ok(Kind::Station),
    }
}

fn names_in(rt: &HostRuntime, dir: &str, kind: Kind) -> io::Result<Names> {
    let pack = match kind {
        Kind::Line => "line.pack",
        Kind::Station => "station.pack",
    };
    Ok(Names {
        pack: name_in(rt, dir, pack)?,
        batch: name_in(rt, dir, "batch.txt")?,
        house: name_in(rt, dir, "house.txt")?,
    })
}

// Why three files are not looked at: one that is missing decides before one that is too long.
fn first_error(files: [Result<usize, FileError>; 3]) -> Option<FileError> {
    let mut found = None;
    for file in files {
        match file {
            Err(FileError::NoFile) => return Some(FileError::NoFile),
            Err(error) => found = Some(error),
            Ok(_) => {}
        }
    }
    found
}

fn read_parts<'a>(
    rt: &HostRuntime,
    names: &Names,
    rooms: &'a mut Rooms,
) -> Result<Parts<'a>, FileError> {
    let Rooms { pack, batch, house } = rooms;
    let pack_len = read_file(rt, names.pack.as_str(), pack);
    let batch_len = read_file(rt, names.batch.as_str(), batch);
    let house_len = read_file(rt, names.house.as_str(), house);
    if let Some(error) = first_error([pack_len, batch_len, house_len]) {
        return Err(error);
    }
    let (pack_len, batch_len, house_len) = (pack_len?, batch_len?, house_len?);
    Ok(Parts {
        pack: &mut pack[..pack_len],
        batch: &batch[..batch_len],
        house: &house[..house_len],
    })
}

// Writes the answer of a line.
fn write_line<W: Write>(
    out: &mut W,
    about: &About,
    answer: Result<FederateAccepted, Refusal>,
) -> io::Result<Ended> {
    match answer {
        Ok(accepted) => write_accepted(out, accepted),
        Err(refusal) => about.write_refused(out, refusal),
    }
}

// Writes an image in words, or the part that is asked for.
fn show_image<W: Write>(
    out: &mut W,
    image: &Image,
    station: Option<u32>,
    table: Option<u8>,
    row: Option<u32>,
) -> Result<Ended> {
    let there = show::show(out, image, station, table, row)?;
    ensure!(there, "there is no such station, table or row");
    Ok(Ended::Yes)
}

// Answers a question about an image.
fn answer_image<W: Write>(out: &mut W, about: &About, question: Question) -> Result<Ended> {
    let Image { pack, batch, house } = about.image;
    let ended = match question {
        Question::Check => write_line(out, about, check_federate(pack, batch, house))?,
        Question::Night => write_line(out, about, check_federate_night(pack, batch, house))?,
        Question::Station => {
            stations::write_station(out, about, check_enclave(pack, batch, house))?
        }
        Question::Rising => stations::write_station(out, about, check_rising(pack, batch, house))?,
        Question::Reach { reaction } => stations::reach(out, about, reaction)?,
        Question::Owner { mode } => stations::owner(out, about, mode)?,
        Question::Show {
            station,
            table,
            row,
        } => show_image(out, &about.image, station, table, row)?,
        Question::Picture { station } => pictures::draw(out, about, station)?,
    };
    Ok(ended)
}

// In a frame of its own, with room for so many bytes of a pack and of each text.
#[inline(never)]
pub(crate) fn answer<W: Write, const PACK: usize, const TEXT: usize>(
    rt: &HostRuntime,
    out: &mut W,
    dir: &str,
    asked: Asked,
    explain: bool,
) -> Result<Ended>
    requires pack { PACK ≤ 8388608 }
    requires text { TEXT ≤ 8388608 }
{
    let kind = kind_asked(rt, dir, asked)?;
    let names = names_in(rt, dir, kind)?;
    let file = PackFile {
        name: names.pack.as_str(),
        version: version_of(rt, names.pack.as_str()),
    };
    let mut rooms = Rooms {
        pack: &mut [0u8; PACK],
        batch: &mut [0u8; TEXT],
        house: &mut [0u8; TEXT],
    };
    let parts = match read_parts(rt, &names, &mut rooms) {
        Ok(parts) => parts,
        Err(error) => return Ok(write_no_answer(out, error)?),
    };
    match asked {
        Asked::Change(change) => changes::answer(rt, out, file, parts, change, explain),
        Asked::Image(question) => {
            let about = About {
                image: parts.image(),
                kind,
                explain,
            };
            answer_image(out, &about, question)
        }
    }
}
