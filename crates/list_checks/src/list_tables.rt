// The list tables whose entries name one row each, the enabled modes of reactions, and the shutdown actions.
#![tactic(auto, using(answers::proofs::Loops::run_laws))]

ghost use Rattle.std.specs.Prelude.{ℕ, ◌≡◌, ◌+◌, ◌<◌};
ghost use Rattle.answers.specs.declared.field.Field.{Field};
ghost use Rattle.answers.specs.declared.field.Field.TheVariants as field;
ghost use Rattle.answers.specs.Checks.{first, run};
ghost use Rattle.schema.specs.Tables.{start_of, tables};
ghost use Rattle.checks.specs.Image.{image_of};
ghost use Rattle.list_checks.specs.ListTables.{named_checks, index_checks, startup_checks, enabled_mode_checks, enabled_modes_checks, shutdown_action_checks};

use answers::{Field, Refusal, RowField};
use checks::lists::{check_order, entry_index};
use checks::refs::{check_exists, check_ref};
use range::SliceRange;
use schema::entries::{ReactionMode, ShutdownAction, TimerStartupImage};
use schema::index::{ActionIndex, ModeIndex, PortIndex, ReactionIndex, ReactorIndex, ScopeIndex};
use schema::lent::Enclave;
use schema::row::{Key, Row, Stored};
use schema::rows::ReactionImage;

// An entry that names a row of another table, in a field: each type in its own, so that one block for all keys would need the field of each beside it.
pub trait Naming: Stored {
    type Named: Key;

    ghost field: { Field };

    ghost named: { Self → Self.Named };

    fn field() -> Field
        ensures { result ≡ field };

    fn named(self) -> Self::Named
        ensures { result ≡ named self };
}

impl Naming for PortIndex {
    type Named = PortIndex;

    ghost field = { field.Port };

    ghost named = { λ k. k };

    fn field() -> Field {
        Field::Port
    }

    fn named(self) -> PortIndex {
        self
    }
}

impl Naming for ActionIndex {
    type Named = ActionIndex;

    ghost field = { field.Action };

    ghost named = { λ k. k };

    fn field() -> Field {
        Field::Action
    }

    fn named(self) -> ActionIndex {
        self
    }
}

impl Naming for ModeIndex {
    type Named = ModeIndex;

    ghost field = { field.Mode };

    ghost named = { λ k. k };

    fn field() -> Field {
        Field::Mode
    }

    fn named(self) -> ModeIndex {
        self
    }
}

impl Naming for ScopeIndex {
    type Named = ScopeIndex;

    ghost field = { field.Scope };

    ghost named = { λ k. k };

    fn field() -> Field {
        Field::Scope
    }

    fn named(self) -> ScopeIndex {
        self
    }
}

impl Naming for TimerStartupImage {
    type Named = ActionIndex;

    ghost field = { field.Action };

    ghost named = { λ k. k.action };

    fn field() -> Field {
        Field::Action
    }

    fn named(self) -> ActionIndex {
        self.action
    }
}

// Every entry of a table names a row that is there. Below, for each kind of entry by its own definition: over this one alone, each pass of
// an enclave would take the kind's definition apart.
#[tactic(auto, using(answers::proofs::Loops::run_laws), unfolding(answers::specs::Checks::first, crate::specs::ListTables::named_checks))]
fn check_named<N: Naming>(e: &Enclave, table: u8) -> Result<(), Refusal>
    requires { table < tables }
    ensures { let m = image_of e.now
        in let named = λ (i : ℕ). N.Named.number (N.named (N.at e.now.pack.bytes.now (start_of e.now.starts.now.firsts table + i)))
        in result ≡ first (run (named_checks table N.field N.Named.Row.TABLE named m) 0 (m.rows table)) }
{
    for i in 0..e.rows(table) {
        let entry = N::of(e.record_within(table, i));
        let at = RowField {
            table,
            index: i,
            field: N::field(),
        };
        check_exists(e.starts, at, entry.named())?;
    }
    Ok(())
}

#[tactic(auto, unfolding(crate::specs::ListTables::index_checks))]
pub fn check_port_entries<R: Row>(e: &Enclave) -> Result<(), Refusal>
    requires { R.TABLE < tables }
    ensures { let m = image_of e.now in result ≡ first (run (index_checks R.TABLE field.Port 4 m) 0 (m.rows R.TABLE)) }
{
    check_named::<PortIndex>(e, R::TABLE)
}

#[tactic(auto, unfolding(crate::specs::ListTables::index_checks))]
pub fn check_action_entries<R: Row>(e: &Enclave) -> Result<(), Refusal>
    requires { R.TABLE < tables }
    ensures { let m = image_of e.now in result ≡ first (run (index_checks R.TABLE field.Action 3 m) 0 (m.rows R.TABLE)) }
{
    check_named::<ActionIndex>(e, R::TABLE)
}

#[tactic(auto, unfolding(crate::specs::ListTables::index_checks))]
pub fn check_mode_entries<R: Row>(e: &Enclave) -> Result<(), Refusal>
    requires { R.TABLE < tables }
    ensures { let m = image_of e.now in result ≡ first (run (index_checks R.TABLE field.Mode 6 m) 0 (m.rows R.TABLE)) }
{
    check_named::<ModeIndex>(e, R::TABLE)
}

#[tactic(auto, unfolding(crate::specs::ListTables::index_checks))]
pub fn check_scope_entries<R: Row>(e: &Enclave) -> Result<(), Refusal>
    requires { R.TABLE < tables }
    ensures { let m = image_of e.now in result ≡ first (run (index_checks R.TABLE field.Scope 7 m) 0 (m.rows R.TABLE)) }
{
    check_named::<ScopeIndex>(e, R::TABLE)
}

#[tactic(auto, unfolding(crate::specs::ListTables::startup_checks))]
pub fn check_startup_entries<R: Row>(e: &Enclave) -> Result<(), Refusal>
    requires { R.TABLE < tables }
    ensures { let m = image_of e.now in result ≡ first (run (startup_checks R.TABLE m) 0 (m.rows R.TABLE)) }
{
    check_named::<TimerStartupImage>(e, R::TABLE)
}

// Entry k of the enabled modes of a reaction: the mode is there, and of the reaction's reactor.
#[tactic(auto, unfolding(answers::specs::Checks::first, crate::specs::ListTables::enabled_mode_checks))]
fn check_enabled_mode(
    e: &Enclave,
    key: ReactionIndex,
    reactor: ReactorIndex,
    start: u32,
    k: u32,
) -> Result<(), Refusal>
    ensures { let m = image_of e.now in result ≡ first (enabled_mode_checks m.rows m.modes m.indexes key.0 reactor.0 start k) }
{
    let entry = e.row_at::<ReactionMode>(start as usize + k as usize);
    let at = RowField {
        table: ReactionMode::TABLE,
        index: entry_index(start, k),
        field: Field::Mode,
    };
    let mode = check_ref(e.starts, at, entry.holds)?;
    if mode.row(e).reactor == reactor {
        return Ok(());
    }
    Err(Refusal::OwnershipMismatch {
        at: RowField::of(key, Field::EnabledModesReactor),
    })
}

// The enabled modes of a reaction.
#[tactic(auto, using(answers::proofs::Loops::run_laws), unfolding(crate::specs::ListTables::enabled_modes_checks))]
fn check_modes_of_reaction(e: &Enclave, key: ReactionIndex) -> Result<(), Refusal>
    requires { let m = image_of e.now in key.0 < m.rows 5 }
    ensures { result ≡ first (enabled_modes_checks (image_of e.now) key.0) }
{
    let reaction = e.row_within::<ReactionImage>(key.0);
    let SliceRange { start, len } = reaction.enabled_modes;
    for k in 0..len {
        check_enabled_mode(e, key, reaction.reactor, start, k)?;
    }
    Ok(())
}

// The enabled modes of every reaction.
#[inline(always)]
pub fn check_modes_of_reactions(e: &Enclave) -> Result<(), Refusal>
    ensures { let m = image_of e.now in result ≡ first (run (enabled_modes_checks m) 0 (m.rows 5)) }
{
    for i in 0..e.rows(ReactionImage::TABLE) {
        check_modes_of_reaction(e, ReactionIndex::new(i))?;
    }
    Ok(())
}

// Entry i of the shutdown actions names an action that is there, above the one that the entry before names.
#[tactic(auto, using(answers::proofs::Laws::list_laws), unfolding(answers::specs::Checks::first, crate::specs::ListTables::named_checks, crate::specs::ListTables::index_checks, crate::specs::ListTables::index_order_checks, crate::specs::ListTables::shutdown_action_checks))]
fn check_shutdown_action(e: &Enclave, i: u32) -> Result<(), Refusal>
    ensures { result ≡ first (shutdown_action_checks (image_of e.now) i) }
{
    let table = ShutdownAction::TABLE;
    let action = e.row_at::<ShutdownAction>(i as usize).holds;
    let at = RowField {
        table,
        index: i,
        field: Field::Action,
    };
    check_ref(e.starts, at, action)?;
    if i == 0 {
        return Ok(());
    }
    let before = e.row_at::<ShutdownAction>((i - 1) as usize).holds;
    check_order(table, i, action, before)
}

// Every shutdown action.
pub fn check_shutdown_actions(e: &Enclave) -> Result<(), Refusal>
    ensures { let m = image_of e.now in result ≡ first (run (shutdown_action_checks m) 0 (m.rows 22)) }
{
    for i in 0..e.rows(ShutdownAction::TABLE) {
        check_shutdown_action(e, i)?;
    }
    Ok(())
}
