// What stands beside the arrows between rows: when a scope's or the station's lists run, the routes to other stations, and deadlines.
use crate::picture::arrows::{TIMED, begin_arrow, draw_level};
use crate::picture::station::Station;
use crate::picture::text::{Quoted, RowAt, Time};
use range::SliceRange;
use schema::entries::{
    ScopeResetReaction, ScopeShutdownReaction, ScopeStartupReaction, ShutdownAction,
    ShutdownReaction, StartupAction, TimerStartupAction, TimerStartupImage,
};
use schema::index::{RouteDirection, ScopeIndex, TimingDomain};
use schema::row::Row;
use schema::rows::{DeadlineImage, RouteImage, ScopeImage};
use std::io;
use std::io::Write;

const ROUTE: &str = "shape=plaintext fontcolor=\"#006060\"";

const ROUTE_ARROW: &str = "penwidth=2 color=\"#006060\"";

const TIED: &str = "arrowhead=none style=dotted color=\"#606060\"";

// The nodes of the station's start and stop, by the lists that run then.
fn start() -> RowAt {
    RowAt {
        table: StartupAction::TABLE,
        index: 0,
    }
}

fn stop() -> RowAt {
    RowAt {
        table: ShutdownReaction::TABLE,
        index: 0,
    }
}

fn draw_node<W: Write>(out: &mut W, list: RowAt, text: &str) -> io::Result<()> {
    writeln!(
        out,
        "{list} [shape=plaintext fontsize=10 fontcolor=\"#606060\" label=\"{text}\"];"
    )
}

// The node of a list of a scope, which has it by its number, where it has entries.
fn draw_list_node<W: Write>(
    out: &mut W,
    list: RowAt,
    range: SliceRange,
    text: &str,
) -> io::Result<()> {
    if range.len == 0 {
        return Ok(());
    }
    draw_node(out, list, text)
}

// The nodes of the lists of a scope that run on its reset, at its startup and at its shutdown.
pub(crate) fn draw_scope_lists<W: Write>(
    out: &mut W,
    key: ScopeIndex,
    row: ScopeImage,
) -> io::Result<()> {
    let list = |table| RowAt {
        table,
        index: key.0,
    };
    draw_list_node(
        out,
        list(ScopeResetReaction::TABLE),
        row.reset_reactions,
        "on reset",
    )?;
    draw_list_node(
        out,
        list(ScopeStartupReaction::TABLE),
        row.startup_reactions,
        "at startup",
    )?;
    draw_list_node(
        out,
        list(ScopeShutdownReaction::TABLE),
        row.shutdown_reactions,
        "at shutdown",
    )
}

// From the station's start to an action, with the delay of its first event.
fn draw_start<W: Write>(
    out: &mut W,
    s: &Station,
    to: TimerStartupImage,
    entry: RowAt,
) -> io::Result<()> {
    begin_arrow(out, s, start(), RowAt::of(to.action))?;
    write!(out, "after {}", Time(to.logical_delay_nanos))?;
    s.end_node(out, s.refused.marks(entry), TIMED)
}

fn draw_starts<W: Write>(out: &mut W, s: &Station) -> io::Result<()> {
    let table = StartupAction::TABLE;
    for index in 0..s.e.rows(table) {
        let to: StartupAction = s.e.row_at(index as usize);
        draw_start(out, s, to.holds, RowAt { table, index })?;
    }
    Ok(())
}

fn draw_timer_starts<W: Write>(out: &mut W, s: &Station) -> io::Result<()> {
    let table = TimerStartupAction::TABLE;
    for index in 0..s.e.rows(table) {
        let to: TimerStartupAction = s.e.row_at(index as usize);
        draw_start(out, s, to.holds, RowAt { table, index })?;
    }
    Ok(())
}

// From the station's stop to the reactions and the actions of a shutdown.
fn draw_stops<W: Write>(out: &mut W, s: &Station) -> io::Result<()> {
    let table = ShutdownReaction::TABLE;
    for index in 0..s.e.rows(table) {
        let to: ShutdownReaction = s.e.row_at(index as usize);
        draw_level(
            out,
            s,
            stop(),
            to.holds.reaction,
            RowAt { table, index },
            TIMED,
        )?;
    }
    Ok(())
}

fn draw_stopped_actions<W: Write>(out: &mut W, s: &Station) -> io::Result<()> {
    let table = ShutdownAction::TABLE;
    for index in 0..s.e.rows(table) {
        let to: ShutdownAction = s.e.row_at(index as usize);
        begin_arrow(out, s, stop(), RowAt::of(to.holds))?;
        s.end_node(out, s.refused.marks(RowAt { table, index }), TIMED)?;
    }
    Ok(())
}

// A route's half, and the arrow between it and its port.
fn draw_route<W: Write>(out: &mut W, s: &Station, route: RouteImage, row: RowAt) -> io::Result<()> {
    let name = Quoted(s.e.texts.identity_text(route.boundary));
    let physical = match route.timing_domain {
        TimingDomain::Logical => "",
        TimingDomain::Physical => "physical ",
    };
    write!(out, "{row} [label=\"{name}\\n{physical}route {}", row.index)?;
    if 0 < route.delay_nanos {
        write!(out, "\\nafter {}", Time(route.delay_nanos))?;
    }
    let direction = u8::from(route.direction);
    let refused = s.refused.marks(row)
        || s.refused.marks_half(s.e.texts, route.boundary, direction);
    s.end_node(out, refused, ROUTE)?;
    let port = RowAt::of(route.local_port);
    match route.direction {
        RouteDirection::Inbound => begin_arrow(out, s, row, port)?,
        RouteDirection::Outbound => begin_arrow(out, s, port, row)?,
    }
    s.end_node(out, refused, ROUTE_ARROW)
}

pub(crate) fn draw_routes<W: Write>(out: &mut W, s: &Station) -> io::Result<()> {
    let table = RouteImage::TABLE;
    for index in 0..s.e.rows(table) {
        let route: RouteImage = s.e.row_at(index as usize);
        draw_route(out, s, route, RowAt { table, index })?;
    }
    Ok(())
}

// From a deadline to its reaction.
fn draw_deadlines<W: Write>(out: &mut W, s: &Station) -> io::Result<()> {
    let table = DeadlineImage::TABLE;
    for index in 0..s.e.rows(table) {
        let row = RowAt { table, index };
        let deadline: DeadlineImage = s.e.row_at(index as usize);
        begin_arrow(out, s, row, RowAt::of(deadline.reaction))?;
        s.end_node(out, s.refused.marks(row), TIED)?;
    }
    Ok(())
}

// Whether a table has rows.
fn has_any<R: Row>(s: &Station) -> bool {
    s.has_row(RowAt {
        table: R::TABLE,
        index: 0,
    })
}

// The station's start and stop, where lists run then.
pub(crate) fn draw_start_and_stop<W: Write>(out: &mut W, s: &Station) -> io::Result<()> {
    if has_any::<StartupAction>(s) || has_any::<TimerStartupAction>(s) {
        draw_node(out, start(), "start")?;
    }
    if has_any::<ShutdownReaction>(s) || has_any::<ShutdownAction>(s) {
        draw_node(out, stop(), "stop")?;
    }
    Ok(())
}

pub(crate) fn draw_lists<W: Write>(out: &mut W, s: &Station) -> io::Result<()> {
    draw_starts(out, s)?;
    draw_timer_starts(out, s)?;
    draw_stops(out, s)?;
    draw_stopped_actions(out, s)?;
    draw_deadlines(out, s)
}
