// Which box each row of a station stands in, as a tree over the records of its pack, and the walk through the boxes that draws them.
use crate::picture::frames::close;
use crate::picture::nodes::open;
use crate::picture::station::{LIMIT, Station, has, has_box, is_root};
use crate::picture::text::RowAt;
use schema::index::{ActionIndex, ModeIndex, PortIndex, ReactionIndex, ReactorIndex, ScopeIndex};
use schema::lent::Enclave;
use schema::row::{Key, Row};
use schema::rows::{
    ActionImage, DeadlineImage, ModeImage, PortImage, ReactionImage, ReactorImage, ScopeImage,
};
use std::io;
use std::io::Write;

// The station's own record, which is the outermost box.
const STATION: usize = 0;

// The box of a record that is not drawn.
const NOWHERE: usize = LIMIT;

// For each record the box that it stands in, the first record that stands in it, and the next in the same box; the station's where there is none.
#[derive(Drop)]
pub(crate) struct Boxes {
    home: [usize; LIMIT],
    first: [usize; LIMIT],
    next: [usize; LIMIT],
}

fn get(list: &[usize], k: usize) -> usize {
    list.get(k).copied().unwrap_or(STATION)
}

fn put(list: &mut [usize], k: usize, value: usize) {
    if let Some(slot) = list.get_mut(k) {
        *slot = value;
    }
}

// The row that a record holds.
fn row_of(e: &Enclave, k: usize) -> Option<RowAt> {
    let table = e.pack.record(k)?.table();
    let first = e.starts.firsts.get(usize::from(table)).copied()?;
    let index = u32::try_from(k).ok()?.checked_sub(first)?;
    Some(RowAt { table, index })
}

// The record of a key's row, or the station's where it is missing.
fn record_of<K: Key>(e: &Enclave, key: K) -> usize {
    if !has(e, key) {
        return STATION;
    }
    e.record(K::Row::TABLE, key.number() as usize)
}

// A reactor stands where its root scope's parent is.
fn reactor_home(e: &Enclave, key: ReactorIndex) -> usize {
    let root = e.row(key).root_scope;
    if !has(e, root) || e.row(root).reactor != key {
        return STATION;
    }
    match e.row(root).parent {
        Some(parent) => record_of(e, parent),
        None => STATION,
    }
}

// A root scope stands in its reactor, another in its parent, or in its reactor where it has none.
fn scope_home(e: &Enclave, key: ScopeIndex) -> usize {
    let row = e.row(key);
    match row.parent {
        Some(parent) if !is_root(e, key, row) && has(e, parent) => record_of(e, parent),
        _ => record_of(e, row.reactor),
    }
}

// A mode whose scope's box is its own needs no node; another stands in its reactor.
fn mode_home(e: &Enclave, key: ModeIndex) -> usize {
    if has_box(e, key) {
        return NOWHERE;
    }
    record_of(e, e.row(key).reactor)
}

// A deadline stands beside its reaction.
fn deadline_home(e: &Enclave, i: u32) -> usize {
    let row: DeadlineImage = e.row_at(i as usize);
    if !has(e, row.reaction) {
        return STATION;
    }
    record_of(e, e.row(row.reaction).scope)
}

fn home_of(e: &Enclave, row: RowAt) -> usize {
    let i = row.index;
    match row.table {
        ReactorImage::TABLE => reactor_home(e, ReactorIndex::new(i)),
        ActionImage::TABLE => record_of(e, e.row(ActionIndex::new(i)).scope),
        PortImage::TABLE => record_of(e, e.row(PortIndex::new(i)).scope),
        ReactionImage::TABLE => record_of(e, e.row(ReactionIndex::new(i)).scope),
        ModeImage::TABLE => mode_home(e, ModeIndex::new(i)),
        ScopeImage::TABLE => scope_home(e, ScopeIndex::new(i)),
        DeadlineImage::TABLE => deadline_home(e, i),
        _ => NOWHERE,
    }
}

fn find_homes(e: &Enclave, home: &mut [usize]) {
    for k in 1..e.pack.records() {
        let found = row_of(e, k).map_or(NOWHERE, |row| home_of(e, row));
        put(home, k, found);
    }
}

// Goes from record k to its home, and on, until the station or a record that was passed before. Where that was on this way, the homes run in a circle: there
// it is opened, so that this record stands in the station. `passed` has for each record the one from which it was passed.
fn open_circle(home: &mut [usize], passed: &mut [usize], k: usize) {
    let mut at = k;
    for _ in 0..LIMIT {
        if at == STATION || NOWHERE <= at || get(passed, at) != STATION {
            break;
        }
        put(passed, at, k);
        at = get(home, at);
    }
    if at != STATION && get(passed, at) == k {
        put(home, at, STATION);
    }
}

fn open_circles(home: &mut [usize], records: usize) {
    let mut passed = [STATION; LIMIT];
    for k in 1..records {
        open_circle(home, &mut passed, k);
    }
}

impl Boxes {
    pub(crate) fn of(e: &Enclave) -> Boxes {
        let mut home = [STATION; LIMIT];
        find_homes(e, &mut home);
        open_circles(&mut home, e.pack.records());
        let mut boxes = Boxes {
            home,
            first: [STATION; LIMIT],
            next: [STATION; LIMIT],
        };
        boxes.fill(e.pack.records());
        boxes
    }

    // Puts each record before those that stand in its box already: from the last one down, so that they end in their order.
    fn fill(&mut self, records: usize) {
        for j in 1..records {
            let k = records - j;
            let home = get(&self.home, k);
            if home < NOWHERE {
                let after = get(&self.first, home);
                put(&mut self.next, k, after);
                put(&mut self.first, home, k);
            }
        }
    }

    // Whether a scope's box stands in its parent's, or its reactor's does.
    pub(crate) fn is_inside(&self, e: &Enclave, key: ScopeIndex, parent: ScopeIndex) -> bool {
        let home = get(&self.home, record_of(e, key));
        let around = record_of(e, parent);
        home == around || get(&self.home, home) == around
    }

    // Whether what a key's row is drawn as stands in the box of a scope that is there, however deep.
    pub(crate) fn holds<K: Key>(&self, e: &Enclave, scope: ScopeIndex, key: K) -> bool {
        let around = record_of(e, scope);
        let mut at = record_of(e, key);
        for _ in 0..LIMIT {
            if at == around || at == STATION {
                break;
            }
            at = get(&self.home, at);
        }
        at == around
    }

    // Where arrows to a box point: the first node that stands in it, however deep, or its own where it is empty.
    pub(crate) fn anchor(&self, e: &Enclave, row: RowAt) -> RowAt {
        let mut at = record_of_row(e, row);
        for _ in 0..LIMIT {
            let inner = get(&self.first, at);
            if inner == STATION {
                break;
            }
            at = inner;
        }
        row_of(e, at).unwrap_or(row)
    }
}

// The record of a row that is there.
fn record_of_row(e: &Enclave, row: RowAt) -> usize {
    match row.table {
        ReactorImage::TABLE => record_of(e, ReactorIndex::new(row.index)),
        _ => record_of(e, ScopeIndex::new(row.index)),
    }
}

// Where the walk stands: before a record, or after what stands in it.
#[derive(Clone, Copy)]
struct Step {
    at: usize,
    before: bool,
}

impl Step {
    // Draws what the walk comes to, and moves it on.
    fn draw<W: Write>(self, out: &mut W, s: &Station) -> io::Result<Step> {
        let Some(row) = row_of(&s.e, self.at) else {
            return Ok(Step {
                at: STATION,
                before: false,
            });
        };
        let inner = get(&s.boxes.first, self.at);
        if self.before {
            open(out, s, row, inner == STATION)?;
            return Ok(self.after_opening(inner));
        }
        close(out, row)?;
        Ok(self.after_closing(s.boxes))
    }

    fn after_opening(self, inner: usize) -> Step {
        if inner == STATION {
            return Step {
                at: self.at,
                before: false,
            };
        }
        Step {
            at: inner,
            before: true,
        }
    }

    fn after_closing(self, boxes: &Boxes) -> Step {
        let next = get(&boxes.next, self.at);
        if next == STATION {
            return Step {
                at: get(&boxes.home, self.at),
                before: false,
            };
        }
        Step {
            at: next,
            before: true,
        }
    }
}

// The boxes and the nodes in them. Each record is come to twice: the turns are counted, so that it ends whatever the homes are.
pub(crate) fn draw_boxes<W: Write>(out: &mut W, s: &Station) -> io::Result<()> {
    let mut step = Step {
        at: get(&s.boxes.first, STATION),
        before: true,
    };
    for _ in 0..2 * LIMIT {
        if step.at == STATION {
            break;
        }
        step = step.draw(out, s)?;
    }
    Ok(())
}
