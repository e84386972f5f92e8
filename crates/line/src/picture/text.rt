// What labels are made of: any bytes as text, times, and rows by the names of their tables.
use crate::show::names::table_name;
use identity::decode::unicode_control;
use schema::row::{Key, Row};
use std::{fmt, str};

// So many characters of a name are shown.
const SHOWN: usize = 40;

// Bytes as a part of a label in quotes.
#[derive(Clone, Copy)]
pub(crate) struct Quoted<'a>(pub(crate) &'a [u8]);

// Whether a character is shown by its number: a control, what SVG may not hold, and what is not seen or turns the text round.
fn by_number(code: u32) -> bool {
    let unseen = matches!(code, 0x200B..=0x200F | 0x2028..=0x202E | 0x2060..=0x206F | 0xFEFF);
    unseen || unicode_control(code) || matches!(code, 0xFFFE..=0xFFFF)
}

// A character, so that neither Graphviz nor SVG takes it for one of their own marks.
fn write_character<W: fmt::Write>(f: &mut fmt::Formatter<W>, c: char) -> fmt::Result {
    let code = c as u32;
    if by_number(code) {
        return write!(f, "\\\\u{code:04x}");
    }
    match c {
        '"' | '\\' => write!(f, "\\{c}"),
        '&' => write!(f, "&amp;"),
        _ => write!(f, "{c}"),
    }
}

impl<'a> fmt::Display for Quoted<'a> {
    fn fmt<W: fmt::Write>(&self, f: &mut fmt::Formatter<W>) -> fmt::Result {
        let Ok(text) = str::from_utf8(self.0) else {
            return write!(f, "(not UTF-8)");
        };
        for (shown, c) in text.chars().enumerate() {
            if shown == SHOWN {
                return write!(f, "..");
            }
            write_character(f, c)?;
        }
        Ok(())
    }
}

// A time, by the largest unit of which it is a whole number.
#[derive(Clone, Copy)]
pub(crate) struct Time(pub(crate) u64);

impl fmt::Display for Time {
    fn fmt<W: fmt::Write>(&self, f: &mut fmt::Formatter<W>) -> fmt::Result {
        let nanos = self.0;
        if nanos == 0 || nanos % 1_000 != 0 {
            write!(f, "{nanos} ns")
        } else if nanos % 1_000_000 != 0 {
            write!(f, "{} us", nanos / 1_000)
        } else if nanos % 1_000_000_000 != 0 {
            write!(f, "{} ms", nanos / 1_000_000)
        } else {
            write!(f, "{} s", nanos / 1_000_000_000)
        }
    }
}

// A row by its table and its place there.
#[derive(Clone, Copy, PartialEq, Eq)]
pub(crate) struct RowAt {
    pub(crate) table: u8,
    pub(crate) index: u32,
}

impl RowAt {
    // The row of a key.
    pub(crate) fn of<K: Key>(key: K) -> RowAt {
        RowAt {
            table: K::Row::TABLE,
            index: key.number(),
        }
    }
}

// The name of its node.
impl fmt::Display for RowAt {
    fn fmt<W: fmt::Write>(&self, f: &mut fmt::Formatter<W>) -> fmt::Result {
        write!(f, "{}_{}", table_name(self.table), self.index)
    }
}
