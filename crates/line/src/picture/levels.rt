// The reactions of each level, side by side.
use crate::picture::station::LIMIT;
use schema::entries::LevelReactionImage;
use schema::index::ReactionIndex;
use schema::lent::Enclave;
use schema::row::Row;
use schema::rows::ReactionImage;
use std::io;
use std::io::Write;

// Each reaction with its level, in the room.
fn list_reactions(e: &Enclave, list: &mut [LevelReactionImage]) {
    let mut i = 0;
    for slot in list {
        let reaction = ReactionIndex::new(i);
        *slot = LevelReactionImage {
            level: e.row(reaction).dependency_level,
            reaction,
        };
        i = i.saturating_add(1);
    }
}

// Ends the level before, which stands to the left, and begins the next.
fn begin_level<W: Write>(out: &mut W, before: Option<u32>, level: u32) -> io::Result<()> {
    if let Some(before) = before {
        writeln!(out, "}}\nlevel_{before} -> level_{level} [style=invis];")?;
    }
    write!(
        out,
        "{{ rank=same; level_{level} [shape=plaintext fontsize=13 "
    )?;
    writeln!(out, "fontcolor=\"#606060\" label=\"level {level}\"];")
}

// Those of one level after those of another.
fn draw_list<W: Write>(out: &mut W, list: &[LevelReactionImage]) -> io::Result<()> {
    let mut begun = None;
    for entry in list {
        let level = entry.level;
        if begun != Some(level) {
            begin_level(out, begun, level)?;
            begun = Some(level);
        }
        writeln!(out, "reactions_{};", entry.reaction.0)?;
    }
    if begun.is_some() {
        writeln!(out, "}}")?;
    }
    Ok(())
}

// All of them, as many as there is room for.
fn draw_in<W: Write>(out: &mut W, e: &Enclave, room: &mut [LevelReactionImage]) -> io::Result<()> {
    let count = room.len().min(e.rows(ReactionImage::TABLE) as usize);
    let list = &mut room[..count];
    list_reactions(e, list);
    list.sort_unstable();
    draw_list(out, list)
}

pub(crate) fn draw_levels<W: Write>(out: &mut W, e: &Enclave) -> io::Result<()> {
    draw_in(out, e, &mut [LevelReactionImage::default(); LIMIT])
}
