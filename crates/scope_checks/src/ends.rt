// The six running ends of the rows of scopes, and the check of a row that moves them on.
#![tactic(auto)]

ghost use Rattle.std.specs.Prelude.{◌≡◌};
ghost use Rattle.answers.specs.Checks.{first, answer_of};
ghost use Rattle.schema.specs.Tables.{rows_of};
ghost use Rattle.checks.specs.Image.{image_of};
ghost use Rattle.scope_checks.specs.Ends.{ends_of, ends_after, member_range_checks, reaction_range_checks, scope_range_checks};
ghost use Rattle.scope_checks.specs.Scopes.{scope_row_checks};

use crate::owners::check_scope_owner;
use answers::{Field, Refusal, RowField};
use checks::refs::check_enclave_range;
use schema::entries::{
    ScopeDescendant, ScopeLogicalAction, ScopeResetReaction, ScopeShutdownReaction,
    ScopeStartupReaction, ScopeTimerStartup,
};
use schema::index::ScopeIndex;
use schema::lent::{Enclave, TableStarts};
use schema::rows::ScopeImage;

// One running end for each range of a row; before the first row each is 0. Reactions have four others (`ReactionEnds`): one type for both would need a number
// for each range, where a name stands now.
#[derive(Clone, Copy, Default)]
pub struct ScopeEnds {
    pub descendants: u64,
    pub logical_actions: u64,
    pub timer_startups: u64,
    pub reset_reactions: u64,
    pub startup_reactions: u64,
    pub shutdown_reactions: u64,
}

// Where the ranges of a row end.
fn ends_of(row: ScopeImage) -> ScopeEnds
    ensures { result ≡ ends_of row }
{
    ScopeEnds {
        descendants: row.descendants.saturating_end(),
        logical_actions: row.logical_actions.saturating_end(),
        timer_startups: row.timer_startups.saturating_end(),
        reset_reactions: row.reset_reactions.saturating_end(),
        startup_reactions: row.startup_reactions.saturating_end(),
        shutdown_reactions: row.shutdown_reactions.saturating_end(),
    }
}

// The ranges of scopes and actions of a row.
#[tactic(auto, using(answers::proofs::Laws::list_laws), unfolding(crate::specs::Ends::member_range_checks))]
fn check_member_ranges(
    s: &TableStarts,
    key: ScopeIndex,
    row: ScopeImage,
    ends: ScopeEnds,
) -> Result<(), Refusal>
    ensures { result ≡ first (member_range_checks (rows_of s.now.firsts) key.0 row ends) }
{
    let at = |field| RowField::of(key, field);
    check_enclave_range::<ScopeDescendant>(
        s,
        at(Field::Descendants),
        row.descendants,
        ends.descendants,
    )?;
    check_enclave_range::<ScopeLogicalAction>(
        s,
        at(Field::LogicalActions),
        row.logical_actions,
        ends.logical_actions,
    )?;
    check_enclave_range::<ScopeTimerStartup>(
        s,
        at(Field::TimerStartups),
        row.timer_startups,
        ends.timer_startups,
    )
}

// The ranges of reactions of a row.
#[tactic(auto, using(answers::proofs::Laws::list_laws), unfolding(crate::specs::Ends::reaction_range_checks))]
fn check_reaction_ranges(
    s: &TableStarts,
    key: ScopeIndex,
    row: ScopeImage,
    ends: ScopeEnds,
) -> Result<(), Refusal>
    ensures { result ≡ first (reaction_range_checks (rows_of s.now.firsts) key.0 row ends) }
{
    let at = |field| RowField::of(key, field);
    check_enclave_range::<ScopeResetReaction>(
        s,
        at(Field::ResetReactions),
        row.reset_reactions,
        ends.reset_reactions,
    )?;
    check_enclave_range::<ScopeStartupReaction>(
        s,
        at(Field::StartupReactions),
        row.startup_reactions,
        ends.startup_reactions,
    )?;
    check_enclave_range::<ScopeShutdownReaction>(
        s,
        at(Field::ShutdownReactions),
        row.shutdown_reactions,
        ends.shutdown_reactions,
    )
}

// The ranges of a row against the running ends, by value: the ends after it where it passes.
#[tactic(auto, using(answers::proofs::Laws::list_laws))]
pub fn moved_ends(
    starts: &TableStarts,
    key: ScopeIndex,
    row: ScopeImage,
    ends: ScopeEnds,
) -> Result<ScopeEnds, Refusal>
    ensures { result ≡ answer_of (first (scope_range_checks (rows_of starts.now.firsts) key.0 row ends)) (ends_of row) }
{
    check_member_ranges(starts, key, row, ends)?;
    check_reaction_ranges(starts, key, row, ends)?;
    Ok(ends_of(row))
}

// A row by value: its references, then its ranges.
#[tactic(auto, using(answers::proofs::Laws::list_laws, answers::proofs::Laws::answer_laws), unfolding(crate::specs::Scopes::scope_row_checks))]
pub fn moved_row(
    e: &Enclave,
    key: ScopeIndex,
    row: ScopeImage,
    ends: ScopeEnds,
) -> Result<ScopeEnds, Refusal>
    ensures { result ≡ answer_of (first (scope_row_checks (image_of e.now) key.0 row ends)) (ends_of row) }
{
    check_scope_owner(e, key, row)?;
    moved_ends(e.starts, key, row, ends)
}

// A row, with the ends moved on where they stand; where it is refused they stay, which the two above cannot say.
pub fn check_scope_row(
    e: &Enclave,
    key: ScopeIndex,
    row: ScopeImage,
    ends: &mut ScopeEnds,
) -> Result<(), Refusal>
    ensures answer { result ≡ first (scope_row_checks (image_of e.now) key.0 row ends.old) }
    ensures moved { ends.new ≡ ends_after result row ends.old }
{
    *ends = moved_row(e, key, row, *ends)?;
    Ok(())
}
