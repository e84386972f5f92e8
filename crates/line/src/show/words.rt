// What stands in a pack, in words: identities, rows, spans, and the values of fields.
use crate::show::fields::Value;
use crate::show::names::Named;
use identity::IdentityPlace;
use identity::decode::follows;
use identity::scan::is_utf8;
use identity::texts::Texts;
use range::IndexSpan;
use std::{fmt, str};

// At most so many bytes of a text are shown.
const SHOWN: usize = 256;

// A text's beginning that is shown, without a part of a scalar at its end where the text is UTF-8.
fn beginning(text: &[u8]) -> &[u8] {
    if text.len() <= SHOWN {
        return text;
    }
    let end = (SHOWN - 3..SHOWN + 1)
        .rev()
        .find(|k| text.get(*k).is_some_and(|b| !follows(*b)))
        .unwrap_or(SHOWN);
    &text[..end.min(text.len())]
}

// A text in quotes. What is no printable character of UTF-8 is written as a number after a backslash.
#[derive(Clone, Copy)]
pub(crate) struct Quoted<'a>(pub(crate) &'a [u8]);

impl fmt::Display for Quoted<'_> {
    fn fmt<W: fmt::Write>(&self, f: &mut fmt::Formatter<W>) -> fmt::Result {
        let text = self.0;
        let part = beginning(text);
        match str::from_utf8(part) {
            Ok(part) => write!(f, "{part:?}")?,
            Err(_) => write!(f, "\"{}\"", part.escape_ascii())?,
        }
        if part.len() < text.len() {
            let len = text.len();
            write!(f, ".. ({len} bytes)")?;
        }
        Ok(())
    }
}

// The place of an identity, as a part of its text.
#[derive(Clone, Copy)]
pub(crate) struct PlaceText(pub(crate) IdentityPlace);

impl fmt::Display for PlaceText {
    fn fmt<W: fmt::Write>(&self, f: &mut fmt::Formatter<W>) -> fmt::Result {
        let IdentityPlace { house, start, len } = self.0;
        let text = Named::Text.name_or_unknown(u64::from(house));
        let end = u64::from(start) + u64::from(len);
        write!(f, "{text}[{start}..{end}]")
    }
}

// An identity by its text; one that is not to be read by its place, with why it is not.
#[derive(Clone, Copy)]
pub(crate) struct IdentityText<'a> {
    pub(crate) texts: Texts<'a>,
    pub(crate) place: IdentityPlace,
}

impl fmt::Display for IdentityText<'_> {
    fn fmt<W: fmt::Write>(&self, f: &mut fmt::Formatter<W>) -> fmt::Result {
        let IdentityText { texts, place } = *self;
        if !texts.holds(place) {
            return write!(f, "{} (outside the text)", PlaceText(place));
        }
        let text = texts.identity_text(place);
        if !is_utf8(text) {
            return write!(f, "{} (not UTF-8: {})", PlaceText(place), Quoted(text));
        }
        write!(f, "{}", Quoted(text))
    }
}

// A row by its table's name and its number there. The federate and each enclave have one row, and the key domain, which has a name, is no table.
#[derive(Clone, Copy)]
pub(crate) struct RowName {
    pub(crate) table: u64,
    pub(crate) index: u64,
}

impl fmt::Display for RowName {
    fn fmt<W: fmt::Write>(&self, f: &mut fmt::Formatter<W>) -> fmt::Result {
        let RowName { table, index } = *self;
        match Named::Table.name(table) {
            Some(name) if table < 2 => write!(f, "{name}"),
            Some(name) if table < 26 => write!(f, "{name}[{index}]"),
            _ => write!(f, "unknown table {table}"),
        }
    }
}

// A span of rows, with the number after its last where it ends within 64 bits.
#[derive(Clone, Copy)]
pub(crate) struct SpanText {
    pub(crate) table: u64,
    pub(crate) span: IndexSpan,
}

impl fmt::Display for SpanText {
    fn fmt<W: fmt::Write>(&self, f: &mut fmt::Formatter<W>) -> fmt::Result {
        let IndexSpan { start, len } = self.span;
        let name = match self.table {
            255 => "stations",
            table => Named::Table.name_or_unknown(table),
        };
        match self.span.checked_end() {
            Some(end) => write!(f, "{name}[{start}..{end}]"),
            None => write!(f, "{name}[{start}..{start}+{len}]"),
        }
    }
}

// What stands in a field.
#[derive(Clone, Copy)]
pub(crate) struct ValueText<'a> {
    pub(crate) texts: Texts<'a>,
    pub(crate) value: Value,
}

impl fmt::Display for ValueText<'_> {
    fn fmt<W: fmt::Write>(&self, f: &mut fmt::Formatter<W>) -> fmt::Result {
        let texts = self.texts;
        match self.value {
            Value::Absent => write!(f, "absent"),
            Value::Word(word) => write!(f, "{word}"),
            Value::Number(number) => write!(f, "{number}"),
            Value::Key { table, index } => {
                let (table, index) = (u64::from(table), u64::from(index));
                write!(f, "{}", RowName { table, index })
            }
            Value::Span { span, .. } if span.len == 0 => write!(f, "empty at {}", span.start),
            Value::Span { table, span } => {
                let table = u64::from(table);
                write!(f, "{}", SpanText { table, span })
            }
            Value::Identity(place) => write!(f, "{}", IdentityText { texts, place }),
        }
    }
}

// So many, after `there`.
#[derive(Clone, Copy)]
pub(crate) struct Are(pub(crate) u64);

impl fmt::Display for Are {
    fn fmt<W: fmt::Write>(&self, f: &mut fmt::Formatter<W>) -> fmt::Result {
        match self.0 {
            0 => write!(f, "is none"),
            1 => write!(f, "is 1"),
            n => write!(f, "are {n}"),
        }
    }
}
