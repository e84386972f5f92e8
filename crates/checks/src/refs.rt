// References, ranges and spans.
ghost use Rattle.std.specs.Prelude.{◌≡◌, [], ◌∷◌, ◌<◌, IfOk};
ghost use Rattle.answers.specs.Checks.{first};
ghost use Rattle.schema.specs.Tables.{start_of, rows_of, tables};
ghost use Rattle.checks.specs.Refs.{ref_to, looked_up, span_checks, range_checks};

use answers::{Refusal, RowField};
use range::{IndexSpan, SliceRange};
use schema::lent::{Enclave, TableStarts};
use schema::record::Record;
use schema::row::{Key, Row, Stored};

// A key whose table has its row, with the row's record number.
#[derive(Clone, Copy)]
pub struct Found<K> {
    pub key: K,
    pub record_number: usize,
}

impl<K: Key> Found<K> {
    // The row, in the enclave that was looked into.
    pub fn row(self, e: &Enclave) -> K::Row
        requires { self.record_number < start_of e.now.starts.now.firsts tables }
        ensures { result ≡ K.Row.at e.now.pack.bytes.now self.record_number }
    {
        K::Row::of(Record {
            bytes: e.pack.bytes,
            number: self.record_number,
        })
    }
}

// The key that a row refers to in a field: its type says in which table its row must be.
#[tactic(auto, using(schema::proofs::Tables::row_inside))]
#[inline(always)]
pub fn check_ref<K: Key>(starts: &TableStarts, at: RowField, key: K) -> Result<Found<K>, Refusal>
    ensures inside { IfOk result (λ found. found.record_number < start_of starts.now.firsts tables) }
    ensures answer { result ≡ looked_up starts.now.firsts at K.Row.TABLE key (K.number key) }
{
    let (target, referenced) = (K::Row::TABLE, key.number());
    let rows = starts.rows(target);
    if rows <= referenced {
        return Err(Refusal::ReferenceOutOfBounds {
            at,
            target,
            referenced,
            rows,
        });
    }
    Ok(Found {
        key,
        record_number: starts.record(target, referenced as usize),
    })
}

// The key's row is there.
#[inline(always)]
pub fn check_exists<K: Key>(starts: &TableStarts, at: RowField, key: K) -> Result<(), Refusal>
    ensures { let rows = rows_of starts.now.firsts in result ≡ first (ref_to rows at.table at.index at.field K.Row.TABLE (K.number key) ∷ []) }
{
    check_ref(starts, at, key)?;
    Ok(())
}

// A span against the table of R's rows and the end of the row before.
#[tactic(auto, unfolding(answers::specs::Checks::first, crate::specs::Refs::span_checks))]
#[inline(always)]
pub fn check_enclave_span<R: Row>(
    starts: &TableStarts,
    at: RowField,
    span: IndexSpan,
    previous_end: u64,
) -> Result<(), Refusal>
    requires { R.TABLE < tables }
    ensures { result ≡ first (span_checks (rows_of starts.now.firsts) at.table at.index at.field R.TABLE span.start span.len previous_end) }
{
    let IndexSpan { start, len } = span;
    let rows = u64::from(starts.rows(R::TABLE));
    if !span.checked_end().is_some_and(|end| end <= rows) {
        return Err(Refusal::RangeOutOfBounds {
            at,
            target: R::TABLE,
            start,
            len,
        });
    }
    if start < previous_end {
        return Err(Refusal::RangesNotMonotonic {
            at,
            start,
            previous_end,
        });
    }
    Ok(())
}

// A range against the table of R's rows and the end of the row before.
#[inline(always)]
pub fn check_enclave_range<R: Row>(
    starts: &TableStarts,
    at: RowField,
    range: SliceRange,
    previous_end: u64,
) -> Result<(), Refusal>
    requires { R.TABLE < tables }
    ensures { result ≡ first (range_checks (rows_of starts.now.firsts) at.table at.index at.field R.TABLE range previous_end) }
{
    check_enclave_span::<R>(starts, at, range.into(), previous_end)
}
