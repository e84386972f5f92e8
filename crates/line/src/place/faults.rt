// What does not fit in the rows of a station that is refused, in words.
use crate::place::identities::write_identity;
use crate::place::station::{
    ACTIONS, DEADLINES, MODES, PORTS, REACTION_MODES, REACTORS, SCOPES, Station,
};
use crate::show::fields::{Value, binding_kind, value_of};
use crate::show::names::Named;
use crate::show::rows::RowText;
use crate::show::words::{Are, RowName, SpanText, ValueText};
use range::IndexSpan;
use schema::index::BindingKind;
use std::io;
use std::io::Write;

// At most so many parents of a scope are named.
const NAMED: u32 = 16;

// The name of a field.
fn field_name(field: u64) -> &'static str {
    Named::Field.name_or_unknown(field)
}

// The field of a row on which a refusal's field stands, and the field of the row that is named there: `scope` and `reactor` for `scope.reactor`, and for a
// field of the row itself that field twice.
fn steps(field: u64) -> (&'static str, &'static str) {
    let name = field_name(field);
    if name == "dependency_level" {
        return ("reaction", name);
    }
    name.rsplit_once('.').unwrap_or((name, name))
}

// The number of the row that a field of that name names.
pub(crate) fn key_in(row: RowText, name: &str) -> Option<u32> {
    match value_of(row.record, name)? {
        Value::Key { index, .. } => Some(index),
        _ => None,
    }
}

// The first mode of a span of `reaction_modes` that is another reactor's than the row.
fn foreign_mode<'a>(station: &Station<'a>, row: RowText, span: IndexSpan) -> Option<RowText<'a>> {
    let owner = key_in(row, "reactor");
    for i in span.start..span
        .saturating_end()
        .min(u64::from(station.rows(REACTION_MODES)?))
    {
        let entry = station.row(REACTION_MODES, i)?;
        let mode = station.row(MODES, u64::from(key_in(entry, "mode")?))?;
        if key_in(mode, "reactor") != owner {
            return Some(mode);
        }
    }
    None
}

// The row that a refusal's field names.
pub(crate) fn named_row<'a>(
    station: &Station<'a>,
    row: RowText,
    field: u64,
) -> Option<RowText<'a>> {
    let (own, _) = steps(field);
    match value_of(row.record, own)? {
        Value::Key { table, index } => station.row(u64::from(table), u64::from(index)),
        Value::Span { span, .. } => foreign_mode(station, row, span),
        _ => None,
    }
}

// A field that names a row or a span that is not there, or a span that begins too soon.
fn write_reference<W: Write>(out: &mut W, station: &Station, refusal: &[u64]) -> io::Result<()> {
    match refusal {
        [12, _, _, field, table, index, rows] => {
            let (name, table, index) = (field_name(*field), *table, *index);
            let row = RowName { table, index };
            writeln!(
                out,
                "field `{name}`: {row} is named, and there {}",
                Are(*rows)
            )
        }
        [13, _, _, field, table, start, len] => {
            let (name, table) = (field_name(*field), *table);
            let rows = u64::from(station.rows(table).unwrap_or(0));
            let (start, len) = (*start, *len);
            let span = IndexSpan { start, len };
            let part = SpanText { table, span };
            writeln!(
                out,
                "field `{name}`: {part} is named, and there {}",
                Are(rows)
            )
        }
        [14, _, _, field, start, end] => {
            let name = field_name(*field);
            writeln!(
                out,
                "field `{name}`: it begins at {start}, and that of the row before ends at {end}"
            )
        }
        _ => Ok(()),
    }
}

// A field whose row is another's: what stands in the row that it names.
fn write_ownership<W: Write>(
    out: &mut W,
    station: &Station,
    place: (u64, u64),
    field: u64,
) -> io::Result<()> {
    let (table, index) = place;
    let name = field_name(field);
    let why = Named::Ownership.name_or_unknown(field);
    let (_, theirs) = steps(field);
    let row = station.row(table, index);
    let named = row.and_then(|row| named_row(station, row, field));
    let value = named.and_then(|named| value_of(named.record, theirs));
    let texts = station.text.texts;
    match value {
        Some(value) => {
            let value = ValueText { texts, value };
            writeln!(out, "field `{name}`: {why}; there stands {value}")
        }
        None => writeln!(out, "field `{name}`: {why}"),
    }
}

// The parent of a scope.
fn parent_of(station: &Station, scope: u32) -> Option<u32> {
    key_in(station.row(SCOPES, u64::from(scope))?, "parent")
}

// A scope of the cycle that the parents of one lead into: as many steps on as there are scopes.
fn on_cycle(station: &Station, scope: u32) -> Option<u32> {
    let mut at = scope;
    for _ in 0..station.rows(SCOPES)? {
        at = parent_of(station, at)?;
    }
    Some(at)
}

// A scope and its parents, up to the first without one or to the scope itself.
fn write_parents<W: Write>(out: &mut W, station: &Station, scope: u32) -> io::Result<()> {
    write!(out, "field `parent`: scopes[{scope}]")?;
    let mut at = scope;
    for named in 0..NAMED + 1 {
        let Some(parent) = parent_of(station, at) else {
            break;
        };
        if named == NAMED {
            write!(out, ", ..")?;
            break;
        }
        write!(out, ", scopes[{parent}]")?;
        if parent == scope {
            break;
        }
        at = parent;
    }
    writeln!(out, ": each is below the next")
}

// Rows that stand in the wrong order, that are not each other's, or whose parents do not end.
fn write_order<W: Write>(out: &mut W, station: &Station, refusal: &[u64]) -> io::Result<()> {
    match refusal {
        [15, table, index] => {
            let (table, index) = (*table, *index);
            let row = RowName { table, index };
            writeln!(out, "{row} belongs before the row before it")
        }
        [16, DEADLINES, index] => {
            writeln!(
                out,
                "deadlines[{index}] is for the reaction of the row before it"
            )
        }
        [16, table, index] => {
            let (table, index) = (*table, *index);
            let row = RowName { table, index };
            writeln!(out, "{row} is the same as the row before it")
        }
        [17, table, index, field] => write_ownership(out, station, (*table, *index), *field),
        [18, scope] => {
            let scope = u32::try_from(*scope).ok();
            match scope.and_then(|scope| on_cycle(station, scope)) {
                Some(first) => write_parents(out, station, first),
                None => Ok(()),
            }
        }
        _ => Ok(()),
    }
}

// The kind of binding that a row of a table needs.
fn wanted_kind(table: u64) -> &'static str {
    binding_kind(match table {
        REACTORS => BindingKind::StateInitializer,
        ACTIONS => BindingKind::Action,
        PORTS => BindingKind::Port,
        _ => BindingKind::Reaction,
    })
}

// A bank, a slot or a binding that does not fit.
fn write_bounds<W: Write>(out: &mut W, refusal: &[u64]) -> io::Result<()> {
    match refusal {
        [22, _, index, total] => {
            writeln!(
                out,
                "field `bank.index`: {index} is not below the total, {total}"
            )
        }
        [23, table, _, slot, bound] => {
            let kind = Named::Slot.name_or_unknown(*table);
            writeln!(
                out,
                "its {kind} slot {slot} is not below the station's bound, {bound}"
            )
        }
        [24, table, _, field] => {
            let (name, kind) = (field_name(*field), wanted_kind(*table));
            writeln!(
                out,
                "field `{name}`: a binding of the kind {kind} is wanted"
            )
        }
        [25, _, _, field] => {
            let name = field_name(*field);
            writeln!(
                out,
                "field `{name}`: a standard action has one, a timer or a shutdown action has none"
            )
        }
        _ => Ok(()),
    }
}

// A rule of the night, a level that does not rise, or a deadline.
fn write_rule<W: Write>(out: &mut W, station: &Station, refusal: &[u64]) -> io::Result<()> {
    match refusal {
        [29, ..] => writeln!(
            out,
            "field `timing_domain`: at night every route is logical"
        ),
        [30, _, scope] => match u32::try_from(*scope) {
            Ok(scope) => write_parents(out, station, scope),
            Err(_) => Ok(()),
        },
        [31, _, reactors] => writeln!(
            out,
            "{reactors} reactors are there, and at night 64 at most"
        ),
        [32, reaction, target] => writeln!(
            out,
            "field `dependency_level`: that of reactions[{target}] is not above that of reactions[{reaction}]"
        ),
        [39, _] => writeln!(out, "field `nanos`: a deadline is one nanosecond or more"),
        _ => Ok(()),
    }
}

// What does not fit in the rows of a refusal of a station, a line of words.
pub(crate) fn write_fault<W: Write>(
    out: &mut W,
    station: &Station,
    refusal: &[u64],
) -> io::Result<()> {
    match refusal {
        [12..=14, ..] => write_reference(out, station, refusal),
        [15..=18, ..] => write_order(out, station, refusal),
        [19..=21, ..] => write_identity(out, station.text.texts, refusal),
        [22..=25, ..] => write_bounds(out, refusal),
        _ => write_rule(out, station, refusal),
    }
}
