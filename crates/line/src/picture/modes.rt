// The arrows to modes and from them: to the mode that a reaction changes to, and from a mode without a box to the scope that it names.
use crate::picture::arrows::begin_arrow;
use crate::picture::station::{Station, has, has_box};
use crate::picture::text::RowAt;
use schema::index::{ModeIndex, ReactionIndex, ScopeIndex, Transition};
use schema::row::{Key, Row};
use schema::rows::{ModeImage, ReactionImage};
use std::io;
use std::io::Write;

const NAMES: &str = "penwidth=2 color=\"#d00000\"";

const NAMES_REFUSED: &str = "penwidth=4 color=\"#d00000\"";

const CHANGES: &str = "penwidth=2 color=\"#9673a6\" fontcolor=\"#9673a6\"";

// Where an arrow to a mode, or from one, ends: at its box, or at its node.
pub(crate) fn end_of_mode(s: &Station, mode: ModeIndex) -> RowAt {
    if has(&s.e, mode) && has_box(&s.e, mode) {
        return s.boxes.anchor(&s.e, RowAt::of(s.e.row(mode).scope));
    }
    RowAt::of(mode)
}

// Ends an arrow from a row to the box of a scope. It stops at the box where that is there and the row does not stand in it, and moves no node.
fn end_at_box<W: Write, K: Key>(
    out: &mut W,
    s: &Station,
    from: K,
    scope: ScopeIndex,
) -> io::Result<()> {
    if has(&s.e, scope) && !s.boxes.holds(&s.e, scope, from) {
        write!(out, " lhead=cluster_{}", RowAt::of(scope))?;
    }
    writeln!(out, " constraint=false];")
}

// From a reaction to the mode that it changes to.
fn draw_change<W: Write>(out: &mut W, s: &Station, key: ReactionIndex) -> io::Result<()> {
    let Some(effect) = s.e.row(key).mode_effect else {
        return Ok(());
    };
    let target = effect.target;
    begin_arrow(out, s, RowAt::of(key), end_of_mode(s, target))?;
    match effect.transition {
        Transition::Reset => write!(out, "reset")?,
        Transition::History => write!(out, "history")?,
    }
    s.end_label(out, false, CHANGES)?;
    if has(&s.e, target) && has_box(&s.e, target) {
        return end_at_box(out, s, key, s.e.row(target).scope);
    }
    writeln!(out, "];")
}

pub(crate) fn draw_changes<W: Write>(out: &mut W, s: &Station) -> io::Result<()> {
    for i in 0..s.e.rows(ReactionImage::TABLE) {
        draw_change(out, s, ReactionIndex::new(i))?;
    }
    Ok(())
}

// From a mode that has no box of its own, and says so in its label, to the scope that it names.
fn draw_named_scope<W: Write>(out: &mut W, s: &Station, key: ModeIndex) -> io::Result<()> {
    if has_box(&s.e, key) {
        return Ok(());
    }
    let scope = s.e.row(key).scope;
    let to = RowAt::of(scope);
    let end = if s.has_row(to) {
        s.boxes.anchor(&s.e, to)
    } else {
        to
    };
    begin_arrow(out, s, RowAt::of(key), end)?;
    let refused = s.refused.marks(RowAt::of(key));
    s.end_label(out, false, if refused { NAMES_REFUSED } else { NAMES })?;
    end_at_box(out, s, key, scope)
}

pub(crate) fn draw_named_scopes<W: Write>(out: &mut W, s: &Station) -> io::Result<()> {
    for i in 0..s.e.rows(ModeImage::TABLE) {
        draw_named_scope(out, s, ModeIndex::new(i))?;
    }
    Ok(())
}
