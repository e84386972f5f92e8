// The arrows of a station: a list of rows at a time, then those to modes.
use crate::picture::modes;
use crate::picture::ports::Fate;
use crate::picture::station::{LIMIT, Station, end_in, rows_of};
use crate::picture::text::RowAt;
use crate::show::names::table_name;
use range::SliceRange;
use schema::entries::{
    LevelReactionImage, ReactionAction, ReactionEffectPort, ReactionTrigger, ReactionUsePort,
    ScopeResetReaction, ScopeShutdownReaction, ScopeStartupReaction,
};
use schema::index::{ActionIndex, PortIndex, ReactionIndex, ScopeIndex};
use schema::lent::Enclave;
use schema::row::Row;
use schema::rows::{ActionImage, PortImage, ReactionImage, ScopeImage};
use std::io;
use std::io::Write;

const TRIGGERS: &str = "color=\"#000000\"";

const READS: &str = "style=dashed color=\"#606060\"";

const WRITES: &str = "color=\"#404040\"";

const NEVER: &str = "style=dashed penwidth=2 color=\"#d00000\" fontcolor=\"#d00000\"";

const ONLY_READ: &str = "style=dashed color=\"#d08000\" fontcolor=\"#d08000\"";

pub(crate) const TIMED: &str = "style=dotted color=\"#606060\"";

const MISSING: &str = "shape=box style=\"dashed,filled\" fillcolor=\"#ffe0e0\" color=\"#d00000\"";

// The lists that are drawn as arrows: what holds each, and what it is of.
#[derive(Clone, Copy)]
enum List {
    PortTriggers,
    ActionTriggers,
    UsePorts,
    EffectPorts,
    Actions,
    ResetReactions,
    StartupReactions,
    ShutdownReactions,
}

// A row that is named and is not there gets a node that says so. Rows of lists are not named, and the lists of scopes have nodes by their numbers.
fn declare<W: Write>(out: &mut W, s: &Station, row: RowAt) -> io::Result<()> {
    if ScopeImage::TABLE < row.table || s.has_row(row) {
        return Ok(());
    }
    let name = table_name(row.table);
    writeln!(
        out,
        "{row} [label=\"{name}[{}]: missing\" {MISSING}];",
        row.index
    )
}

// Begins an arrow, in its label.
pub(crate) fn begin_arrow<W: Write>(
    out: &mut W,
    s: &Station,
    from: RowAt,
    to: RowAt,
) -> io::Result<()> {
    declare(out, s, from)?;
    declare(out, s, to)?;
    write!(out, "{from} -> {to} [label=\"")
}

// An arrow to a reaction that an entry of a table names, with its level.
pub(crate) fn draw_level<W: Write>(
    out: &mut W,
    s: &Station,
    from: RowAt,
    to: LevelReactionImage,
    entry: RowAt,
    look: &str,
) -> io::Result<()> {
    begin_arrow(out, s, from, RowAt::of(to.reaction))?;
    write!(out, "level {}", to.level)?;
    s.end_node(out, s.refused.marks(entry), look)
}

// What an arrow to a port that a reaction writes says, and its look: by what the write comes to.
fn look_of(fate: Fate) -> (&'static str, &'static str) {
    match fate {
        Fate::Triggers | Fate::Sent => ("", WRITES),
        Fate::OnlyRead => ("only read", ONLY_READ),
        Fate::NeverScheduled => ("never scheduled", NEVER),
    }
}

fn draw_write<W: Write>(
    out: &mut W,
    s: &Station,
    from: ReactionIndex,
    to: PortIndex,
    entry: RowAt,
) -> io::Result<()> {
    let (words, look) = look_of(s.ports.fate(&s.e, to));
    begin_arrow(out, s, RowAt::of(from), RowAt::of(to))?;
    write!(out, "{words}")?;
    s.end_node(out, s.refused.marks(entry), look)
}

// An arrow without a label between two rows that an entry of a table ties.
fn draw_plain<W: Write>(
    out: &mut W,
    s: &Station,
    from: RowAt,
    to: RowAt,
    entry: RowAt,
) -> io::Result<()> {
    begin_arrow(out, s, from, to)?;
    s.end_node(out, s.refused.marks(entry), READS)
}

impl List {
    // The table whose rows have such lists.
    fn holders(self) -> u8 {
        match self {
            List::PortTriggers => PortImage::TABLE,
            List::ActionTriggers => ActionImage::TABLE,
            List::UsePorts | List::EffectPorts | List::Actions => ReactionImage::TABLE,
            _ => ScopeImage::TABLE,
        }
    }

    // The table that their entries stand in.
    fn table(self) -> u8 {
        match self {
            List::PortTriggers | List::ActionTriggers => ReactionTrigger::TABLE,
            List::UsePorts => ReactionUsePort::TABLE,
            List::EffectPorts => ReactionEffectPort::TABLE,
            List::Actions => ReactionAction::TABLE,
            List::ResetReactions => ScopeResetReaction::TABLE,
            List::StartupReactions => ScopeStartupReaction::TABLE,
            List::ShutdownReactions => ScopeShutdownReaction::TABLE,
        }
    }

    // The list of row i.
    fn range(self, e: &Enclave, i: u32) -> SliceRange {
        match self {
            List::PortTriggers => e.row(PortIndex::new(i)).triggers,
            List::ActionTriggers => e.row(ActionIndex::new(i)).triggers,
            List::UsePorts => e.row(ReactionIndex::new(i)).use_ports,
            List::EffectPorts => e.row(ReactionIndex::new(i)).effect_ports,
            List::Actions => e.row(ReactionIndex::new(i)).actions,
            List::ResetReactions => e.row(ScopeIndex::new(i)).reset_reactions,
            List::StartupReactions => e.row(ScopeIndex::new(i)).startup_reactions,
            List::ShutdownReactions => e.row(ScopeIndex::new(i)).shutdown_reactions,
        }
    }

    // The node at which the arrows of row i's list begin, or end: the row's own, or that of the list where a scope has it.
    fn node(self, i: u32) -> RowAt {
        let table = match self {
            List::ResetReactions | List::StartupReactions | List::ShutdownReactions => self.table(),
            _ => self.holders(),
        };
        RowAt { table, index: i }
    }

    // The arrow of an entry of a scope's list.
    fn draw_of_scope<W: Write>(
        self,
        out: &mut W,
        s: &Station,
        node: RowAt,
        entry: RowAt,
    ) -> io::Result<()> {
        let k = entry.index as usize;
        let to = match self {
            List::StartupReactions => s.e.row_at::<ScopeStartupReaction>(k).holds.reaction,
            List::ShutdownReactions => s.e.row_at::<ScopeShutdownReaction>(k).holds.reaction,
            _ => s.e.row_at::<ScopeResetReaction>(k).holds,
        };
        draw_level(out, s, node, to, entry, TIMED)
    }

    // The arrow of entry k, which row i holds.
    fn draw<W: Write>(self, out: &mut W, s: &Station, i: u32, k: u32) -> io::Result<()> {
        let (at, node, table) = (k as usize, self.node(i), self.table());
        let entry = RowAt { table, index: k };
        match self {
            List::PortTriggers | List::ActionTriggers => {
                let to: ReactionTrigger = s.e.row_at(at);
                draw_level(out, s, node, to.holds, entry, TRIGGERS)
            }
            List::UsePorts => {
                let from: ReactionUsePort = s.e.row_at(at);
                draw_plain(out, s, RowAt::of(from.holds), node, entry)
            }
            List::EffectPorts => {
                let to: ReactionEffectPort = s.e.row_at(at);
                draw_write(out, s, ReactionIndex::new(i), to.holds, entry)
            }
            List::Actions => {
                let to: ReactionAction = s.e.row_at(at);
                draw_plain(out, s, node, RowAt::of(to.holds), entry)
            }
            _ => self.draw_of_scope(out, s, node, entry),
        }
    }
}

// So many arrows of one list are drawn. Where lists overlap, as they may in a refused station, each would be drawn for every row that holds it.
const ARROWS: u32 = LIMIT as u32;

fn draw_range<W: Write>(
    out: &mut W,
    s: &Station,
    list: List,
    i: u32,
    places: SliceRange,
) -> io::Result<()> {
    for k in places.start..places.start.saturating_add(places.len) {
        list.draw(out, s, i, k)?;
    }
    Ok(())
}

// The entries of a range that are there, and so many of them at most.
fn entries(e: &Enclave, table: u8, range: SliceRange, most: u32) -> SliceRange {
    let end = end_in(e, table, range);
    SliceRange {
        start: range.start,
        len: end.saturating_sub(range.start).min(most),
    }
}

fn draw_list<W: Write>(out: &mut W, s: &Station, list: List) -> io::Result<()> {
    let mut left = ARROWS;
    for i in 0..rows_of(&s.e, list.holders()) {
        let places = entries(&s.e, list.table(), list.range(&s.e, i), left);
        draw_range(out, s, list, i, places)?;
        left = left.saturating_sub(places.len);
    }
    if left == 0 {
        let name = table_name(list.table());
        return writeln!(
            out,
            "cut_{name} [shape=box label=\"{name} overlap:\\nnot all are drawn\"];"
        );
    }
    Ok(())
}

pub(crate) fn draw_arrows<W: Write>(out: &mut W, s: &Station) -> io::Result<()> {
    draw_list(out, s, List::PortTriggers)?;
    draw_list(out, s, List::ActionTriggers)?;
    draw_list(out, s, List::UsePorts)?;
    draw_list(out, s, List::EffectPorts)?;
    draw_list(out, s, List::Actions)?;
    draw_list(out, s, List::ResetReactions)?;
    draw_list(out, s, List::StartupReactions)?;
    draw_list(out, s, List::ShutdownReactions)?;
    modes::draw_changes(out, s)?;
    modes::draw_named_scopes(out, s)
}
