// The nodes of a station: ports, actions, reactions, modes without a box, and deadlines; and what a box begins with.
use crate::picture::frames::{NOTE, open_reactor, open_scope};
use crate::picture::ports::Fate;
use crate::picture::station::{Station, end_in, has, has_box, is_initial};
use crate::picture::text::{RowAt, Time};
use range::SliceRange;
use schema::entries::{
    ReactionAction, ReactionEffectPort, ReactionMode, ReactionTrigger, ReactionUsePort,
};
use schema::index::{
    ActionIndex, ActionTiming, ModeIndex, PortIndex, ReactionIndex, ReactorIndex, ScopeIndex,
    TimingDomain,
};
use schema::row::Row;
use schema::rows::{ActionImage, DeadlineImage, ModeImage, PortImage, ReactionImage, ReactorImage};
use std::io;
use std::io::Write;

const MODE: &str = "shape=tab style=filled fillcolor=\"#f3ecf7\" color=\"#9673a6\"";

const PORT: &str = "shape=ellipse style=filled fillcolor=\"#fff2cc\"";

const UNSCHEDULED: &str =
    "shape=ellipse style=\"filled,dashed\" fillcolor=\"#ffe0e0\" color=\"#d00000\" penwidth=2";

const ACTION: &str = "shape=hexagon style=filled fillcolor=\"#e8f5e0\"";

const REACTION: &str = "shape=box style=\"filled,rounded\" fillcolor=\"#dae8fc\"";

fn draw_port<W: Write>(out: &mut W, s: &Station, key: PortIndex) -> io::Result<()> {
    let row = s.e.row(key);
    write!(out, "{} [label=\"", RowAt::of(key))?;
    s.write_name(out, row.binding)?;
    write!(out, "\\nport {}", key.0)?;
    let fate = s.ports.fate(&s.e, key);
    let lost = s.ports.is_written(key) && fate == Fate::NeverScheduled;
    let refused = s.is_refused(RowAt::of(key), row.binding)
        || s.refused.is_in(ReactionTrigger::TABLE, row.triggers);
    s.end_node(out, refused, if lost { UNSCHEDULED } else { PORT })
}

// What kind of action it is, with its delay or its period.
fn write_timing<W: Write>(out: &mut W, i: u32, timing: ActionTiming) -> io::Result<()> {
    match timing {
        ActionTiming::Standard {
            domain,
            min_delay_nanos,
        } => {
            let domain = match domain {
                TimingDomain::Logical => "logical",
                TimingDomain::Physical => "physical",
            };
            write!(
                out,
                "{domain} action {i}\\nmin. delay {}",
                Time(min_delay_nanos)
            )
        }
        ActionTiming::Timer { period_nanos: None } => write!(out, "timer, action {i}\\nonce"),
        ActionTiming::Timer {
            period_nanos: Some(period),
        } => write!(out, "timer, action {i}\\nevery {}", Time(period)),
        ActionTiming::Shutdown => write!(out, "shutdown, action {i}"),
    }
}

fn draw_action<W: Write>(out: &mut W, s: &Station, key: ActionIndex) -> io::Result<()> {
    let row = s.e.row(key);
    write!(out, "{} [label=\"", RowAt::of(key))?;
    if let Some(binding) = row.binding {
        s.write_name(out, binding)?;
        write!(out, "\\n")?;
    }
    write_timing(out, key.0, row.timing)?;
    let refused = s.refused.marks(RowAt::of(key))
        || row
            .binding
            .is_some_and(|binding| s.refused.marks(RowAt::of(binding)))
        || s.refused.is_in(ReactionTrigger::TABLE, row.triggers);
    s.end_node(out, refused, ACTION)
}

// So many modes are named in a reaction's label.
const MODES_SHOWN: u32 = 8;

// The modes in which a reaction is enabled, where it is not by its scope alone.
fn write_modes<W: Write>(out: &mut W, s: &Station, range: SliceRange) -> io::Result<()> {
    let end = end_in(&s.e, ReactionMode::TABLE, range);
    let mut before = "\\nin mode";
    for k in range.start..end.min(range.start.saturating_add(MODES_SHOWN)) {
        let entry: ReactionMode = s.e.row_at(k as usize);
        write!(out, "{before} {}", entry.holds.0)?;
        before = ",";
    }
    if MODES_SHOWN < range.len {
        write!(out, " and more")?;
    }
    Ok(())
}

// Whether the refusal is about a row of a list that a range of the reaction holds.
fn ranges_refused(s: &Station, key: ReactionIndex) -> bool {
    let row = s.e.row(key);
    s.refused.is_in(ReactionUsePort::TABLE, row.use_ports)
        || s.refused.is_in(ReactionEffectPort::TABLE, row.effect_ports)
        || s.refused.is_in(ReactionAction::TABLE, row.actions)
        || s.refused.is_in(ReactionMode::TABLE, row.enabled_modes)
}

fn draw_reaction<W: Write>(out: &mut W, s: &Station, key: ReactionIndex) -> io::Result<()> {
    let row = s.e.row(key);
    write!(out, "{} [label=\"", RowAt::of(key))?;
    s.write_name(out, row.binding)?;
    write!(out, "\\nreaction {}, level {}", key.0, row.dependency_level)?;
    if has(&s.e, row.scope) && s.e.row(row.scope).reactor != row.reactor {
        write!(out, "\\nof reactor {}", row.reactor.0)?;
    }
    if row.external_effect {
        write!(out, "\\nexternal effect")?;
    }
    write_modes(out, s, row.enabled_modes)?;
    let refused = s.is_refused(RowAt::of(key), row.binding) || ranges_refused(s, key);
    s.end_node(out, refused, REACTION)
}

fn draw_mode<W: Write>(out: &mut W, s: &Station, key: ModeIndex) -> io::Result<()> {
    if has_box(&s.e, key) {
        return Ok(());
    }
    let initial = if is_initial(&s.e, key) {
        " (initial)"
    } else {
        ""
    };
    write!(
        out,
        "{} [label=\"mode {}{initial}\\nnames ",
        RowAt::of(key),
        key.0
    )?;
    write!(out, "scope {}", s.e.row(key).scope.0)?;
    s.end_node(out, s.refused.marks(RowAt::of(key)), MODE)
}

fn draw_deadline<W: Write>(out: &mut W, s: &Station, row: RowAt) -> io::Result<()> {
    let deadline: DeadlineImage = s.e.row_at(row.index as usize);
    write!(out, "{row} [label=\"deadline {}", Time(deadline.nanos))?;
    s.end_node(out, s.refused.marks(row), NOTE)
}

// Draws a node, or opens a box; an empty one gets a node that is not seen, or Graphviz would leave it out.
pub(crate) fn open<W: Write>(out: &mut W, s: &Station, row: RowAt, empty: bool) -> io::Result<()> {
    let i = row.index;
    match row.table {
        ActionImage::TABLE => return draw_action(out, s, ActionIndex::new(i)),
        PortImage::TABLE => return draw_port(out, s, PortIndex::new(i)),
        ReactionImage::TABLE => return draw_reaction(out, s, ReactionIndex::new(i)),
        ModeImage::TABLE => return draw_mode(out, s, ModeIndex::new(i)),
        DeadlineImage::TABLE => return draw_deadline(out, s, row),
        ReactorImage::TABLE => open_reactor(out, s, ReactorIndex::new(i))?,
        _ => open_scope(out, s, ScopeIndex::new(i))?,
    }
    if empty {
        writeln!(out, "{row} [shape=point style=invis label=\"\"];")?;
    }
    Ok(())
}
