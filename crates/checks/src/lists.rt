// Lists of reactions by level, whatever else their entries hold: levels alone, or lifecycle reactions. A table stands as a number beside the type of what its
// entries hold, as in the definitions: entries of one type are in several tables, and a row type would say both, to be taken apart again in each.
ghost use Rattle.std.specs.Prelude.{ℕ, ◌≡◌, [], ◌∷◌, ◌+◌, ◌-◌, ◌<◌, List};
ghost use Rattle.answers.specs.Checks.{Check, first, answer_of};
ghost use Rattle.schema.specs.Tables.{start_of, rows_of, tables};
ghost use Rattle.schema.specs.declared.entries.LevelReactionImage.{LevelReactionImage};
ghost use Rattle.checks.specs.Image.{image_of, stored_at};
ghost use Rattle.checks.specs.Lists.{entry_index, after_first, level_ref_checks, order_checks, level_order_checks, entry_checks, listed_checks, range_of_checks, no_more, action_checks, level_of, reaction_of};

use crate::refs::{check_exists, check_ref};
use answers::{Field, Refusal, RowField};
use range::SliceRange;
use schema::entries::{LevelReactionImage, LifecycleReactionImage};
use schema::lent::{Enclave, TableStarts};
use schema::row::Stored;
use std::cmp::Ordering;

// An entry that holds a reaction with its level.
pub trait Listed: Stored {
    // What it asks for itself as entry i of table t, where the tables have so many rows.
    ghost own: { (ℕ → ℕ) → ℕ → ℕ → Self → List Check };

    ghost level: { Self → LevelReactionImage };

    fn check_own(self, starts: &TableStarts, table: u8, index: u32) -> Result<(), Refusal>
        ensures { result ≡ first (own (rows_of starts.now.firsts) table index self) };

    fn level(self) -> LevelReactionImage
        ensures { result ≡ level self };
}

impl Listed for LevelReactionImage {
    ghost own = { no_more };

    ghost level = { level_of };

    fn check_own(self, _starts: &TableStarts, _table: u8, _index: u32) -> Result<(), Refusal> {
        Ok(())
    }

    fn level(self) -> LevelReactionImage {
        self
    }
}

impl Listed for LifecycleReactionImage {
    ghost own = { action_checks };

    ghost level = { reaction_of };

    // Its action is there.
    fn check_own(self, starts: &TableStarts, table: u8, index: u32) -> Result<(), Refusal> {
        let at = RowField {
            table,
            index,
            field: Field::Action,
        };
        check_exists(starts, at, self.action)
    }

    fn level(self) -> LevelReactionImage {
        self.reaction
    }
}

// The row number shown for entry k of a range. A range is walked by its start and k, as document 01 counts the entries.
pub fn entry_index(start: u32, k: u32) -> u32
    ensures { result ≡ entry_index start k }
{
    start.wrapping_add(k)
}

// An entry's reaction is there, and has the entry's level.
#[inline(always)]
pub fn validate_level_ref(
    e: &Enclave,
    table: u8,
    index: u32,
    entry: LevelReactionImage,
) -> Result<(), Refusal>
    ensures { let m = image_of e.now in result ≡ first (level_ref_checks m.rows m.reactions table index entry) }
{
    let at = |field| RowField {
        table,
        index,
        field,
    };
    let reaction = check_ref(e.starts, at(Field::Reaction), entry.reaction)?;
    if reaction.row(e).dependency_level != entry.level {
        return Err(Refusal::OwnershipMismatch {
            at: at(Field::DependencyLevel),
        });
    }
    Ok(())
}

// Entry `index` of a table is above the entry before it, by the order of what they hold.
#[inline(always)]
pub fn check_order<T: Copy + Ord>(table: u8, index: u32, entry: T, before: T) -> Result<(), Refusal>
    ensures { result ≡ first (order_checks table index (T.cmp entry before)) }
{
    match entry.cmp(&before) {
        Ordering::Less => Err(Refusal::EntriesNotSorted { table, index }),
        Ordering::Equal => Err(Refusal::DuplicateEntry { table, index }),
        Ordering::Greater => Ok(()),
    }
}

// An entry shown as row `index` of a table, by itself.
#[tactic(auto, using(answers::proofs::Laws::list_laws))]
#[inline(always)]
pub fn check_entry<L: Listed>(e: &Enclave, table: u8, index: u32, entry: L) -> Result<(), Refusal>
    ensures { let m = image_of e.now in result ≡ first (entry_checks m.rows m.reactions (L.own m.rows) L.level table index entry) }
{
    entry.check_own(e.starts, table, index)?;
    validate_level_ref(e, table, index, entry.level())
}

// Entry k of the range of a table that begins at `start` is above the entry before it, if there is one, by their reactions and levels.
#[inline(always)]
fn check_after(
    table: u8,
    start: u32,
    k: u32,
    level: LevelReactionImage,
    before: LevelReactionImage,
) -> Result<(), Refusal>
    ensures { result ≡ first (after_first k (level_order_checks table (entry_index start k) level before)) }
{
    if k == 0 {
        return Ok(());
    }
    check_order(table, entry_index(start, k), level, before)
}

// Entry k of the range of a table that begins at `start`: by itself, and after the entry before it, whose reaction and level are at hand.
#[tactic(auto, using(answers::proofs::Laws::list_laws, answers::proofs::Laws::answer_laws), unfolding(crate::specs::Lists::listed_checks))]
#[inline(always)]
pub fn check_listed<L: Listed>(
    e: &Enclave,
    table: u8,
    start: u32,
    k: u32,
    before: LevelReactionImage,
) -> Result<LevelReactionImage, Refusal>
    requires known { table < tables }
    requires before { before ≡ L.level (L.at e.now.pack.bytes.now (start_of e.now.starts.now.firsts table + (start + (k - 1)))) }
    ensures { let m = image_of e.now
        in let entries = stored_at L.at e.now.pack.bytes.now e.now.starts.now.firsts
        in let entry = L.level (entries table (start + k))
        in result ≡ answer_of (first (listed_checks m.rows m.reactions (L.own m.rows) L.level entries table start k)) entry }
{
    let entry = L::at(e.pack, e.record(table, start as usize + k as usize));
    check_entry(e, table, entry_index(start, k), entry)?;
    check_after(table, start, k, entry.level(), before)?;
    Ok(entry.level())
}

// The entries of a range of a table.
#[tactic(auto, using(answers::proofs::Loops::run_laws, answers::proofs::Laws::answer_laws), unfolding(crate::specs::Lists::range_of_checks))]
#[inline(always)]
pub fn validate_levels<L: Listed>(e: &Enclave, table: u8, range: SliceRange) -> Result<(), Refusal>
    requires { table < tables }
    ensures { let m = image_of e.now
        in let entries = stored_at L.at e.now.pack.bytes.now e.now.starts.now.firsts
        in result ≡ first (range_of_checks m.rows m.reactions (L.own m.rows) L.level entries table range.start range.len) }
{
    let mut before = L::at(e.pack, e.record(table, range.start as usize)).level();
    for k in 0..range.len {
        before = check_listed::<L>(e, table, range.start, k, before)?;
    }
    Ok(())
}
