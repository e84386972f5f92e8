// The words of the command line, and what they ask.
use crate::show::names::table_of;
use anyhow::{Context, Result, bail};
use packing::PackKind;
use std::{env, io};

// What is asked of an image.
#[derive(Clone, Copy)]
pub(crate) enum Question {
    Check,
    Night,
    Station,
    Rising,
    Reach {
        reaction: u32,
    },
    Owner {
        mode: u32,
    },
    Show {
        station: Option<u32>,
        table: Option<u8>,
        row: Option<u32>,
    },
    Picture {
        station: Option<u32>,
    },
}

// A record of a line, and the file with the row to be put in its place; whether it is written there or only tried.
#[derive(Clone, Copy)]
pub(crate) struct Change<'a> {
    pub(crate) writes: bool,
    pub(crate) record: u32,
    pub(crate) file: &'a str,
}

// What is asked of the files in a directory.
#[derive(Clone, Copy)]
pub(crate) enum Asked<'a> {
    Image(Question),
    Change(Change<'a>),
}

#[derive(Clone, Copy)]
pub(crate) enum Command<'a> {
    InDirectory {
        dir: &'a str,
        asked: Asked<'a>,
    },
    Convert {
        kind: PackKind,
        from: &'a str,
        to: &'a str,
    },
    Trees {
        scopes: u32,
    },
    Tally {
        file: &'a str,
    },
    Names,
}

// A command, and whether words are to say where a refusal finds its fault.
#[derive(Clone, Copy)]
pub(crate) struct Request<'a> {
    pub(crate) explain: bool,
    pub(crate) command: Command<'a>,
}

// The words after the program's name.
pub(crate) fn words(rt: &HostRuntime) -> io::Result<Vec<String>> {
    let mut words = Vec::new(rt.alloc());
    for word in env::args(rt)?.skip(1) {
        words.push(word)?;
    }
    Ok(words)
}

// The words that a command takes.
fn usage_of(command: &str) -> Option<&'static str> {
    match command {
        "check" | "night" | "station" | "rising" => Some("DIR"),
        "reach" => Some("DIR REACTION"),
        "owner" => Some("DIR MODE"),
        "convert" => Some("station|line IN OUT"),
        "try" | "change" => Some("DIR RECORD FILE"),
        "trees" => Some("N"),
        "tally" => Some("FILE"),
        "show" => Some("DIR [STATION [TABLE [ROW]]]"),
        "picture" => Some("DIR [STATION]"),
        "names" => Some("without more words"),
        _ => None,
    }
}

// The error for words that are no command with what it takes.
fn no_command<T>(words: &[&str]) -> Result<T> {
    let Some(command) = words.first() else {
        bail!("no command; ./line help lists them");
    };
    match usage_of(command) {
        Some(usage) => bail!("usage: ./line {command} {usage} (./line help {command})"),
        None => bail!("no command {command}; ./line help lists them"),
    }
}

fn number(word: &str) -> Result<u32> {
    word.parse::<u32>()
        .context(format_args!("{word} is no number from 0 to 4294967295"))
}

// The number at a place of the words, where there are so many.
fn number_at(words: &[&str], at: usize) -> Result<Option<u32>> {
    match words.get(at) {
        Some(word) => Ok(Some(number(word)?)),
        None => Ok(None),
    }
}

// A table by its name or by its number.
fn table_at(words: &[&str], at: usize) -> Result<Option<u8>> {
    if let Some(table) = words.get(at).and_then(|word| table_of(word)) {
        return Ok(Some(table));
    }
    let Some(table) = number_at(words, at)? else {
        return Ok(None);
    };
    let table = u8::try_from(table).context("no table has such a number")?;
    Ok(Some(table))
}

fn pack_kind(word: &str) -> Result<PackKind> {
    match word {
        "station" => Ok(PackKind::Enclave),
        "line" => Ok(PackKind::Federate),
        _ => bail!("convert takes station or line first, and not {word}"),
    }
}

// The question by its command's name and the words after the directory.
fn read_question(name: &str, rest: &[&str]) -> Result<Option<Question>> {
    let asked = match (name, rest) {
        ("check", []) => Question::Check,
        ("night", []) => Question::Night,
        ("station", []) => Question::Station,
        ("rising", []) => Question::Rising,
        ("reach", [reaction]) => Question::Reach {
            reaction: number(reaction)?,
        },
        ("owner", [mode]) => Question::Owner {
            mode: number(mode)?,
        },
        ("picture", [] | [_]) => Question::Picture {
            station: number_at(rest, 0)?,
        },
        ("show", [] | [_] | [_, _] | [_, _, _]) => Question::Show {
            station: number_at(rest, 0)?,
            table: table_at(rest, 1)?,
            row: number_at(rest, 2)?,
        },
        _ => return Ok(None),
    };
    Ok(Some(asked))
}

// A change that is made or tried, by the words after the directory.
fn read_change<'a>(writes: bool, record: &str, file: &'a str) -> Result<Asked<'a>> {
    Ok(Asked::Change(Change {
        writes,
        record: number(record)?,
        file,
    }))
}

// What is asked of a directory's files.
fn read_asked<'a>(name: &str, rest: &[&'a str]) -> Result<Option<Asked<'a>>> {
    match (name, rest) {
        ("try", [record, file]) => Ok(Some(read_change(false, record, *file)?)),
        ("change", [record, file]) => Ok(Some(read_change(true, record, *file)?)),
        _ => match read_question(name, rest)? {
            Some(question) => Ok(Some(Asked::Image(question))),
            None => Ok(None),
        },
    }
}

// The command by all of its words.
fn read_command<'a>(words: &[&'a str]) -> Result<Command<'a>> {
    match words {
        ["convert", kind, from, to] => Ok(Command::Convert {
            kind: pack_kind(kind)?,
            from: *from,
            to: *to,
        }),
        ["trees", scopes] => Ok(Command::Trees {
            scopes: number(scopes)?,
        }),
        ["tally", file] => Ok(Command::Tally { file: *file }),
        ["names"] => Ok(Command::Names),
        [name, dir, rest @ ..] => match read_asked(name, rest)? {
            Some(asked) => Ok(Command::InDirectory { dir: *dir, asked }),
            None => no_command(words),
        },
        _ => no_command(words),
    }
}

// What the words ask. An option may stand anywhere; after `--` no word is one.
pub(crate) fn understand<'a>(rt: &HostRuntime, texts: &'a [String]) -> Result<Request<'a>> {
    let mut words = Vec::new(rt.alloc());
    let mut explain = false;
    let mut options = true;
    for text in texts {
        match text.as_str() {
            "--explain" if options => explain = true,
            "--" if options => options = false,
            word if options && word.starts_with('-') => bail!("no option {word}; ./line help"),
            word => words.push(word)?,
        }
    }
    Ok(Request {
        explain,
        command: read_command(words.as_slice())?,
    })
}
