// A level that does not rise: the port by which a reaction triggers the one that does not stand above it.
use crate::place::faults::key_in;
use crate::place::station::{PORTS, Station};
use crate::show::fields::{Value, value_of};
use crate::show::rows::RowText;
use range::IndexSpan;

// The entries that a row holds in a field: their table, and which of it.
fn entries_in(row: RowText, name: &str) -> Option<(u64, IndexSpan)> {
    match value_of(row.record, name)? {
        Value::Span { table, span } => Some((u64::from(table), span)),
        _ => None,
    }
}

// The number of the row that an entry names.
fn named_in(station: &Station, table: u64, entry: u64, name: &str) -> Option<u64> {
    let row = station.row(table, entry)?;
    Some(u64::from(key_in(row, name)?))
}

// The entry of a reaction among the triggers of a port.
fn trigger_of(station: &Station, port: RowText, reaction: u64) -> Option<u64> {
    let (table, span) = entries_in(port, "triggers")?;
    for k in span.start..span.saturating_end() {
        if named_in(station, table, k, "reaction")? == reaction {
            return Some(k);
        }
    }
    None
}

// The first port that a reaction writes and that triggers another.
pub(crate) fn port_between<'a>(
    station: &Station<'a>,
    reaction: RowText,
    target: u64,
) -> Option<RowText<'a>> {
    let (table, span) = entries_in(reaction, "effect_ports")?;
    for k in span.start..span.saturating_end() {
        let port = station.row(PORTS, named_in(station, table, k, "port")?)?;
        if trigger_of(station, port, target).is_some() {
            return Some(port);
        }
    }
    None
}
