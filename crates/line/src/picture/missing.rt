// Rows that a row names in a field and that are not there, and parents that no box shows, since they run in a circle.
use crate::picture::arrows::begin_arrow;
use crate::picture::modes::end_of_mode;
use crate::picture::station::{Station, has};
use crate::picture::text::RowAt;
use schema::index::{ActionIndex, ModeIndex, PortIndex, ReactionIndex, ReactorIndex, ScopeIndex};
use schema::row::{Key, Row};
use schema::rows::{ActionImage, ModeImage, PortImage, ReactionImage, ReactorImage, ScopeImage};
use std::io;
use std::io::Write;

const WRONG: &str = "style=dashed color=\"#d00000\" fontcolor=\"#d00000\" constraint=false";

// From a row to the one that it names in a field, where that is missing.
fn draw_named<W: Write, K: Key>(
    out: &mut W,
    s: &Station,
    from: RowAt,
    field: &str,
    key: K,
) -> io::Result<()> {
    if has(&s.e, key) {
        return Ok(());
    }
    begin_arrow(out, s, from, RowAt::of(key))?;
    write!(out, "{field}")?;
    s.end_node(out, s.refused.marks(from), WRONG)
}

fn draw_of_reactors<W: Write>(out: &mut W, s: &Station) -> io::Result<()> {
    for i in 0..s.e.rows(ReactorImage::TABLE) {
        let key = ReactorIndex::new(i);
        let from = s.boxes.anchor(&s.e, RowAt::of(key));
        let row = s.e.row(key);
        draw_named(out, s, from, "root_scope", row.root_scope)?;
        if let Some(mode) = row.initial_mode {
            draw_named(out, s, from, "initial_mode", mode)?;
        }
    }
    Ok(())
}

fn draw_of_actions<W: Write>(out: &mut W, s: &Station) -> io::Result<()> {
    for i in 0..s.e.rows(ActionImage::TABLE) {
        let key = ActionIndex::new(i);
        draw_named(out, s, RowAt::of(key), "scope", s.e.row(key).scope)?;
    }
    Ok(())
}

fn draw_of_ports<W: Write>(out: &mut W, s: &Station) -> io::Result<()> {
    for i in 0..s.e.rows(PortImage::TABLE) {
        let key = PortIndex::new(i);
        draw_named(out, s, RowAt::of(key), "scope", s.e.row(key).scope)?;
    }
    Ok(())
}

fn draw_of_reactions<W: Write>(out: &mut W, s: &Station) -> io::Result<()> {
    for i in 0..s.e.rows(ReactionImage::TABLE) {
        let key = ReactionIndex::new(i);
        let row = s.e.row(key);
        draw_named(out, s, RowAt::of(key), "reactor", row.reactor)?;
        draw_named(out, s, RowAt::of(key), "scope", row.scope)?;
    }
    Ok(())
}

fn draw_of_modes<W: Write>(out: &mut W, s: &Station) -> io::Result<()> {
    for i in 0..s.e.rows(ModeImage::TABLE) {
        let key = ModeIndex::new(i);
        draw_named(out, s, end_of_mode(s, key), "reactor", s.e.row(key).reactor)?;
    }
    Ok(())
}

// The parent of a scope whose box does not stand in it.
fn draw_parent<W: Write>(
    out: &mut W,
    s: &Station,
    key: ScopeIndex,
    parent: ScopeIndex,
) -> io::Result<()> {
    let from = s.boxes.anchor(&s.e, RowAt::of(key));
    if !has(&s.e, parent) {
        return draw_named(out, s, from, "parent", parent);
    }
    if s.boxes.is_inside(&s.e, key, parent) {
        return Ok(());
    }
    begin_arrow(out, s, from, s.boxes.anchor(&s.e, RowAt::of(parent)))?;
    write!(out, "scope {}: parent scope {}", key.0, parent.0)?;
    s.end_node(out, s.refused.marks(RowAt::of(key)), WRONG)
}

fn draw_of_scopes<W: Write>(out: &mut W, s: &Station) -> io::Result<()> {
    for i in 0..s.e.rows(ScopeImage::TABLE) {
        let key = ScopeIndex::new(i);
        let from = s.boxes.anchor(&s.e, RowAt::of(key));
        let row = s.e.row(key);
        draw_named(out, s, from, "reactor", row.reactor)?;
        if let Some(parent) = row.parent {
            draw_parent(out, s, key, parent)?;
        }
    }
    Ok(())
}

pub(crate) fn draw_missing<W: Write>(out: &mut W, s: &Station) -> io::Result<()> {
    draw_of_reactors(out, s)?;
    draw_of_actions(out, s)?;
    draw_of_ports(out, s)?;
    draw_of_reactions(out, s)?;
    draw_of_modes(out, s)?;
    draw_of_scopes(out, s)
}
