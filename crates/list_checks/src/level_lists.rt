// Lists of reactions by level: triggers, the lists of scopes, and every entry of their tables.
#![tactic(auto, using(answers::proofs::Loops::run_laws))]

ghost use Rattle.std.specs.Prelude.{ℕ, ◌≡◌, ◌+◌, ◌<◌};
ghost use Rattle.range.specs.declared.SliceRange.{SliceRange};
ghost use Rattle.answers.specs.Checks.{first, run};
ghost use Rattle.schema.specs.Tables.{start_of, tables};
ghost use Rattle.checks.specs.Image.{image_of, stored_at};
ghost use Rattle.list_checks.specs.ListTables.{trigger_checks, action_trigger_checks, port_trigger_checks, scope_list_checks, listed_entry_checks, level_entry_checks, lifecycle_entry_checks, shutdown_reaction_checks};
ghost use Rattle.schema.specs.Keys.{known_3, known_4};

use answers::Refusal;
use checks::lists::{Listed, check_entry, validate_levels};
use range::SliceRange;
use schema::entries::{
    LevelReactionImage, LifecycleReactionImage, ReactionTrigger, ScopeResetReaction,
    ScopeShutdownReaction, ScopeStartupReaction, ShutdownReaction,
};
use schema::index::ScopeIndex;
use schema::lent::Enclave;
use schema::row::{Row, Stored};
use schema::rows::{ActionImage, PortImage, ScopeImage};

// A row that triggers reactions. One block for each kind: no macro may write them.
pub trait Triggering: Row {
    ghost triggers: { Self → SliceRange };

    fn triggers(self) -> SliceRange
        ensures { result ≡ triggers self };

    ghost known: { Self.TABLE < tables };
}

impl Triggering for ActionImage {
    ghost triggers = { λ a. a.triggers };

    ghost known = { known_3 };

    fn triggers(self) -> SliceRange {
        self.triggers
    }
}

impl Triggering for PortImage {
    ghost triggers = { λ p. p.triggers };

    ghost known = { known_4 };

    fn triggers(self) -> SliceRange {
        self.triggers
    }
}

// The triggers of every row of a kind.
#[tactic(auto, using(answers::proofs::Loops::run_laws), unfolding(crate::specs::ListTables::trigger_checks))]
fn check_triggers<R: Triggering>(e: &Enclave) -> Result<(), Refusal>
    ensures { let m = image_of e.now
        in let row = stored_at R.at e.now.pack.bytes.now e.now.starts.now.firsts R.TABLE
        in result ≡ first (run (trigger_checks (λ i. R.triggers (row i)) m) 0 (m.rows R.TABLE)) }
{
    for i in 0..e.rows(R::TABLE) {
        let triggers = e.row_within::<R>(i).triggers();
        validate_levels::<LevelReactionImage>(e, ReactionTrigger::TABLE, triggers)?;
    }
    Ok(())
}

// This and the next: each kind of row by its own definition, which each pass of an enclave would else take apart.
#[tactic(auto, unfolding(crate::specs::ListTables::action_trigger_checks))]
pub fn check_triggers_of_actions(e: &Enclave) -> Result<(), Refusal>
    ensures { let m = image_of e.now in result ≡ first (run (action_trigger_checks m) 0 (m.rows 3)) }
{
    check_triggers::<ActionImage>(e)
}

#[tactic(auto, unfolding(crate::specs::ListTables::port_trigger_checks))]
pub fn check_triggers_of_ports(e: &Enclave) -> Result<(), Refusal>
    ensures { let m = image_of e.now in result ≡ first (run (port_trigger_checks m) 0 (m.rows 4)) }
{
    check_triggers::<PortImage>(e)
}

// The reset, startup and shutdown reactions of a scope.
#[tactic(auto, using(answers::proofs::Laws::list_laws), unfolding(crate::specs::ListTables::scope_list_checks))]
fn check_lists_of_scope(e: &Enclave, key: ScopeIndex) -> Result<(), Refusal>
    ensures { result ≡ first (scope_list_checks (image_of e.now) key.0) }
{
    let scope = e.row(key);
    validate_levels::<LevelReactionImage>(e, ScopeResetReaction::TABLE, scope.reset_reactions)?;
    validate_levels::<LifecycleReactionImage>(
        e,
        ScopeStartupReaction::TABLE,
        scope.startup_reactions,
    )?;
    validate_levels::<LifecycleReactionImage>(
        e,
        ScopeShutdownReaction::TABLE,
        scope.shutdown_reactions,
    )
}

// The lists of every scope.
pub fn check_lists_of_scopes(e: &Enclave) -> Result<(), Refusal>
    ensures { let m = image_of e.now in result ≡ first (run (scope_list_checks m) 0 (m.rows 7)) }
{
    for i in 0..e.rows(ScopeImage::TABLE) {
        check_lists_of_scope(e, ScopeIndex::new(i))?;
    }
    Ok(())
}

// Every entry of a table by itself, whether or not some range covers it.
#[tactic(auto, using(answers::proofs::Loops::run_laws), unfolding(crate::specs::ListTables::listed_entry_checks))]
fn check_listed_entries<L: Listed>(e: &Enclave, table: u8) -> Result<(), Refusal>
    requires { table < tables }
    ensures { let m = image_of e.now
        in let entries = stored_at L.at e.now.pack.bytes.now e.now.starts.now.firsts
        in result ≡ first (run (listed_entry_checks m.rows m.reactions (L.own m.rows) L.level entries table) 0 (m.rows table)) }
{
    for i in 0..e.rows(table) {
        let entry = L::of(e.record_within(table, i));
        check_entry(e, table, i, entry)?;
    }
    Ok(())
}

// This and the next: each kind of entry by its own definition, for the same reason.
#[tactic(auto, unfolding(crate::specs::ListTables::level_entry_checks))]
pub fn check_level_entries<R: Row>(e: &Enclave) -> Result<(), Refusal>
    requires { R.TABLE < tables }
    ensures { let m = image_of e.now in result ≡ first (run (level_entry_checks R.TABLE m) 0 (m.rows R.TABLE)) }
{
    check_listed_entries::<LevelReactionImage>(e, R::TABLE)
}

#[tactic(auto, unfolding(crate::specs::ListTables::lifecycle_entry_checks))]
pub fn check_lifecycle_entries<R: Row>(e: &Enclave) -> Result<(), Refusal>
    requires { R.TABLE < tables }
    ensures { let m = image_of e.now in result ≡ first (run (lifecycle_entry_checks R.TABLE m) 0 (m.rows R.TABLE)) }
{
    check_listed_entries::<LifecycleReactionImage>(e, R::TABLE)
}

// The shutdown reactions: one list over the whole table.
#[tactic(auto, unfolding(checks::specs::Lists::range_of_checks))]
pub fn check_shutdown_reactions(e: &Enclave) -> Result<(), Refusal>
    ensures { let m = image_of e.now in result ≡ first (run (shutdown_reaction_checks m) 0 (m.rows 21)) }
{
    let table = ShutdownReaction::TABLE;
    let whole = SliceRange {
        start: 0,
        len: e.rows(table),
    };
    validate_levels::<LifecycleReactionImage>(e, table, whole)
}
