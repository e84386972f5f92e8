// A record without stray bytes, bits or kinds, whose absent fields are zero (refusal 4).
ghost use Rattle.std.specs.Prelude.{◌≡◌, not, ◌&&◌, ◌||◌, ◌+◌, ◌*◌, ◌-◌, ◌/◌, ◌%◌, ◌<◌, ◌≤◌, length, ltb, eqb};
ghost use Rattle.std.specs.List.{flat_map};
ghost use Rattle.schema.specs.Bytes.{byte_of};
ghost use Rattle.packing.specs.Clean.{zeros, fields_clean, kind_clean, clean_by, clean};
ghost use Rattle.packing.specs.Runs.{CleanRun};
ghost use Rattle.packing.specs.Shape.{layout_of};
ghost use Rattle.packing.specs.Limits.{within};

use crate::shape::{Limits, shape_of};
use schema::record::{Record, long_at};
use schema::row::Row;
use schema::rows::{ActionImage, ReactionImage};

// Whether each byte of a record is at most its limit. No branch among them: `all` would stop at the first that is not.
#[tactic(auto, using(crate::proofs::Limits::within_laws))]
fn within(item: Record, limits: &Limits) -> bool
    ensures { result ≡ within item.entry.bytes.now (item.entry.number * 64) (flat_map (λ x. x) limits.now) 64 }
{
    let limits = limits.as_flattened();
    let mut all = true;
    for j in 0..64 {
        all &= item.byte(j) <= limits[j];
    }
    all
}

// Whether bytes 1 to 3 of a record, the fields that its presence bits govern and the bytes past its fields are as its table's layout has them.
#[inline(always)]
fn layout_clean(item: Record) -> bool
    ensures { let p = item.entry.bytes.now in let n = item.entry.number in result ≡ clean_by (layout_of (byte_of p n 0)) p n }
{
    let shape = shape_of(item.table());
    within(item, &shape.limits[usize::from(item.byte(1) % 4)])
}

// Whether each byte of a record before byte `end` is at most its limit.
#[tactic(auto, using(crate::proofs::Limits::within_laws))]
fn within_before(item: Record, limits: &Limits, end: u8) -> bool
    requires { end ≤ 64 }
    ensures { result ≡ within item.entry.bytes.now (item.entry.number * 64) (flat_map (λ x. x) limits.now) end }
{
    let limits = limits.as_flattened();
    let mut all = true;
    for j in 0..usize::from(end) {
        let (byte, limit) = (item.byte(j), limits[j]);
        all &= byte <= limit;
    }
    all
}

// Whether bytes 1 to 3 of record n and the fields that its presence bits govern are as the layout of `table` has them, whatever table the record is of.
#[tactic(auto, using(crate::proofs::Limits::used_most))]
pub fn fields_clean(p: &[u8], n: usize, table: u8) -> bool
    requires { n < length p.now / 64 }
    ensures { result ≡ fields_clean (layout_of table) p.now n }
{
    let item = Record {
        bytes: p,
        number: n,
    };
    let bits = item.byte(1);
    let shape = shape_of(table);
    within_before(item, &shape.limits[usize::from(bits % 4)], shape.used)
}

// The bit and the D of an action's timing, for a record from byte `start` on.
#[tactic(auto, using(crate::proofs::Zeros::zeros_laws))]
pub fn timing_clean(p: &[u8], start: usize, period: bool, kind: u8) -> bool
    requires { start + 64 ≤ length p.now }
    ensures { result ≡ ((eqb kind 2 || not period) && (ltb kind 2 || (period || zeros p.now (start + 16) 8))) }
{
    (kind == 2 || !period) && (kind < 2 || period || long_at(p, start + 16) == 0)
}

// What is asked of actions and reactions beside their fields. A match on the table: document 01 asks it of these two tables by number.
fn kind_clean(item: Record) -> bool
    ensures { let p = item.entry.bytes.now in let n = item.entry.number in result ≡ kind_clean (byte_of p n 0) p n }
{
    match item.table() {
        ActionImage::TABLE => timing_clean(item.bytes, item.number * 64, item.has(1), item.byte(2)),
        ReactionImage::TABLE => item.has(1) || item.byte(2) == 0,
        _ => true,
    }
}

// Whether a record is clean.
#[tactic(auto, unfolding(crate::specs::Clean::clean))]
#[inline(always)]
pub fn clean(item: Record) -> bool
    ensures { result ≡ clean item.entry.bytes.now item.entry.number }
{
    layout_clean(item) & kind_clean(item)
}

// The first record from n on, before `end`, that is not a clean one of `table`, or `end`: of any bytes, so that they go beside the places.
pub fn past_clean(p: &[u8], n: usize, end: usize, table: u8) -> usize
    requires from { n ≤ end }
    requires inside { end ≤ length p.now / 64 }
    ensures { CleanRun p.now table n end result }
{
    (n..end)
        .find(|k| {
            let record = Record::nth(p, *k);
            record.is_none_or(|item| item.table() != table || !clean(item))
        })
        .unwrap_or(end)
}
