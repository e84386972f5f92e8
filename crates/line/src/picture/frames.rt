// The boxes of a station: its own, those of reactors, and those of scopes, which say of which mode they are.
use crate::picture::lists;
use crate::picture::station::{Station, has, is_initial, is_root};
use crate::picture::text::{Quoted, RowAt};
use crate::show::names::table_name;
use schema::entries::{
    ReactionTrigger, ScopeDescendant, ScopeLogicalAction, ScopeResetReaction,
    ScopeShutdownReaction, ScopeStartupReaction, ScopeTimerStartup,
};
use schema::index::{ModeIndex, ReactorIndex, ScopeIndex};
use schema::row::{Row, Stored};
use schema::rows::{EnclaveImage, ReactorImage, RequiredBindingImage, RouteImage, ScopeImage};
use std::io;
use std::io::Write;

const BOX: &str = "labeljust=l labelloc=t style=\"rounded,filled\" penwidth=1";

const REACTOR: &str = "fontsize=14 fontcolor=\"#202020\" fillcolor=\"#f0f0f0\" color=\"#606060\"";

const SCOPE: &str = "fontsize=12 fontcolor=\"#606060\" fillcolor=\"#ffffff\" color=\"#b0b0b0\"";

const MODE_SCOPE: &str =
    "fontsize=12 fontcolor=\"#202020\" fillcolor=\"#f3ecf7\" color=\"#9673a6\"";

// A scope whose mode is another's, or is not there.
const LOST_SCOPE: &str =
    "fontsize=12 fontcolor=\"#d00000\" fillcolor=\"#f3ecf7\" color=\"#9673a6\"";

// A row without a node of its own.
pub(crate) const NOTE: &str = "shape=note style=filled fillcolor=\"#ffffff\"";

// A row of a list has no node, nor has a binding: it is named in the station's box.
fn draw_listed<W: Write>(out: &mut W, s: &Station, row: RowAt) -> io::Result<()> {
    let listed = ReactionTrigger::TABLE <= row.table && row.table < RouteImage::TABLE;
    if !listed && row.table != RequiredBindingImage::TABLE {
        return Ok(());
    }
    write!(
        out,
        "refused_row [label=\"{}[{}]",
        table_name(row.table),
        row.index
    )?;
    s.end_node(out, true, NOTE)
}

// The refusal, with the row that it names.
fn write_refusal<W: Write>(out: &mut W, s: &Station) -> io::Result<()> {
    if s.refused.numbers.is_empty() {
        return Ok(());
    }
    write!(out, "\\n{}", s.refused)?;
    match s.refused.row() {
        Some(row) => write!(out, ": {}[{}]", table_name(row.table), row.index),
        None => Ok(()),
    }
}

// The outermost box, with the refusal in its title.
pub(crate) fn open_station<W: Write>(out: &mut W, s: &Station) -> io::Result<()> {
    let id = EnclaveImage::at(s.e.pack, s.e.own).enclave_id;
    let name = Quoted(s.e.texts.identity_text(id));
    let own = RowAt {
        table: EnclaveImage::TABLE,
        index: 0,
    };
    write!(
        out,
        "subgraph cluster_station {{\nlabel=\"station {}: {name}",
        s.refused.station
    )?;
    write_refusal(out, s)?;
    write!(out, "\" labeljust=l labelloc=t style=rounded fontsize=16 ")?;
    match (s.refused.numbers.is_empty(), s.refused.marks(own)) {
        (true, _) => writeln!(out, "color=\"#404040\" fontcolor=\"#202020\" penwidth=1;")?,
        (_, false) => writeln!(out, "color=\"#404040\" fontcolor=\"#d00000\" penwidth=1;")?,
        (_, true) => writeln!(out, "color=\"#d00000\" fontcolor=\"#d00000\" penwidth=4;")?,
    }
    if let Some(row) = s.refused.row() {
        draw_listed(out, s, row)?;
    }
    lists::draw_start_and_stop(out, s)
}

pub(crate) fn open_reactor<W: Write>(
    out: &mut W,
    s: &Station,
    key: ReactorIndex,
) -> io::Result<()> {
    let row = s.e.row(key);
    write!(
        out,
        "subgraph cluster_{} {{\nlabel=\"reactor {}: ",
        RowAt::of(key),
        key.0
    )?;
    s.write_name(out, row.state_binding)?;
    if let Some(bank) = row.bank {
        write!(out, ", {} of {}", bank.index, bank.total)?;
    }
    let refused = s.is_refused(RowAt::of(key), row.state_binding);
    write_box(out, s, refused, REACTOR)
}

fn write_box<W: Write>(out: &mut W, s: &Station, refused: bool, look: &str) -> io::Result<()> {
    s.end_label(out, refused, BOX)?;
    if refused {
        return writeln!(out, " fontsize=14 fillcolor=\"#ffffff\";");
    }
    writeln!(out, " {look};")
}

// A scope by its number, and by its mode where it has one.
fn write_scope<W: Write>(
    out: &mut W,
    s: &Station,
    key: ScopeIndex,
    row: ScopeImage,
) -> io::Result<()> {
    let Some(mode) = row.mode else {
        return write!(out, "scope {}", key.0);
    };
    if !has(&s.e, mode) {
        return write!(out, "scope {}: its mode {} is missing", key.0, mode.0);
    }
    let named = s.e.row(mode).scope;
    if named != key {
        return write!(
            out,
            "scope {}: its mode {} names scope {}",
            key.0, mode.0, named.0
        );
    }
    let initial = if is_initial(&s.e, mode) {
        " (initial)"
    } else {
        ""
    };
    write!(out, "mode {}{initial}, scope {}", mode.0, key.0)?;
    let owner = s.e.row(mode).reactor;
    if owner != row.reactor {
        write!(
            out,
            ": mode of reactor {}, scope of reactor {}",
            owner.0, row.reactor.0
        )?;
    }
    Ok(())
}

// A root scope's box stands in its reactor's; one that stands in a box of another reactor says whose it is.
fn write_owner<W: Write>(
    out: &mut W,
    s: &Station,
    key: ScopeIndex,
    row: ScopeImage,
) -> io::Result<()> {
    if is_root(&s.e, key, row) {
        return write!(out, " (root)");
    }
    match row.parent {
        Some(parent) if has(&s.e, parent) && s.e.row(parent).reactor != row.reactor => {
            write!(out, ", of reactor {}", row.reactor.0)
        }
        _ => Ok(()),
    }
}

// Whether the scope is a mode's that names it back.
fn mode_of(s: &Station, key: ScopeIndex, row: ScopeImage) -> Option<ModeIndex> {
    let mode = row.mode?;
    (has(&s.e, mode) && s.e.row(mode).scope == key).then_some(mode)
}

// Whether the refusal is about a row of a list that a range of the scope holds.
fn lists_refused(s: &Station, row: ScopeImage) -> bool {
    s.refused.is_in(ScopeDescendant::TABLE, row.descendants)
        || s.refused
            .is_in(ScopeLogicalAction::TABLE, row.logical_actions)
        || s.refused
            .is_in(ScopeTimerStartup::TABLE, row.timer_startups)
        || s.refused
            .is_in(ScopeResetReaction::TABLE, row.reset_reactions)
        || s.refused
            .is_in(ScopeStartupReaction::TABLE, row.startup_reactions)
        || s.refused
            .is_in(ScopeShutdownReaction::TABLE, row.shutdown_reactions)
}

pub(crate) fn open_scope<W: Write>(out: &mut W, s: &Station, key: ScopeIndex) -> io::Result<()> {
    let row = s.e.row(key);
    write!(out, "subgraph cluster_{} {{\nlabel=\"", RowAt::of(key))?;
    write_scope(out, s, key, row)?;
    write_owner(out, s, key, row)?;
    let mode = mode_of(s, key, row);
    let refused = s.refused.marks(RowAt::of(key))
        || mode.is_some_and(|mode| s.refused.marks(RowAt::of(mode)))
        || lists_refused(s, row);
    let look = match (row.mode, mode) {
        (None, _) => SCOPE,
        (Some(_), Some(_)) => MODE_SCOPE,
        (Some(_), None) => LOST_SCOPE,
    };
    write_box(out, s, refused, look)?;
    lists::draw_scope_lists(out, key, row)
}

// Closes a box.
pub(crate) fn close<W: Write>(out: &mut W, row: RowAt) -> io::Result<()> {
    match row.table {
        ReactorImage::TABLE | ScopeImage::TABLE => writeln!(out, "}}"),
        _ => Ok(()),
    }
}
