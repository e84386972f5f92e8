// The passes one after the other, in groups: the first that refuses decides.
ghost use Rattle.std.specs.Prelude.{◌≡◌};
ghost use Rattle.answers.specs.Checks.{first, run};
ghost use Rattle.checks.specs.Image.{image_of};
ghost use Rattle.enclave.specs.Passes.{root_checks, enclave_id_checks, head_passes, table_passes, row_passes, reaction_list_passes, scope_list_passes, entry_passes, enclave_list_passes, list_passes, checks_of};

use answers::{Field, IdKind, Refusal, RowField, StableId};
use checks::identities::validate_id;
use checks::refs::check_exists;
use list_checks::deadlines::check_deadlines;
use list_checks::level_lists::{
    check_level_entries, check_lifecycle_entries, check_lists_of_scopes, check_shutdown_reactions,
    check_triggers_of_actions, check_triggers_of_ports,
};
use list_checks::list_tables::{
    check_action_entries, check_mode_entries, check_modes_of_reactions, check_port_entries,
    check_scope_entries, check_shutdown_actions, check_startup_entries,
};
use list_checks::routes::{check_binding_ids, check_routes};
use row_checks::actions::check_actions;
use row_checks::modes::check_modes;
use row_checks::ports::check_ports;
use row_checks::reactions::check_reactions;
use row_checks::reactors::check_reactors;
use schema::entries::{
    ReactionAction, ReactionEffectPort, ReactionMode, ReactionTrigger, ReactionUsePort,
    ScopeDescendant, ScopeLogicalAction, ScopeResetReaction, ScopeShutdownReaction,
    ScopeStartupReaction, ScopeTimerStartup, StartupAction, TimerStartupAction,
};
use schema::index::ReactorIndex;
use schema::lent::Enclave;
use schema::row::{Row, Stored};
use schema::rows::EnclaveImage;

#[tactic(auto, unfolding(answers::specs::Checks::first, answers::specs::Checks::run))]
fn check_root(e: &Enclave) -> Result<(), Refusal>
    ensures { result ≡ first (run (root_checks (image_of e.now)) 0 1) }
{
    let at = RowField {
        table: EnclaveImage::TABLE,
        index: 0,
        field: Field::RootReactor,
    };
    check_exists(e.starts, at, ReactorIndex::new(0))
}

#[tactic(auto, unfolding(answers::specs::Checks::first, answers::specs::Checks::run))]
fn check_enclave_id(e: &Enclave) -> Result<(), Refusal>
    ensures { result ≡ first (run (enclave_id_checks (image_of e.now)) 0 1) }
{
    let id = StableId {
        kind: IdKind::Enclave,
        index: 0,
        id: EnclaveImage::at(e.pack, e.own).enclave_id,
    };
    validate_id(e.texts, id)
}

// Root reactor, identity.
#[tactic(auto, using(answers::proofs::Laws::list_laws), unfolding(answers::specs::Checks::first, crate::specs::Passes::checks_of, crate::specs::Passes::pass_checks, crate::specs::Passes::head_passes))]
fn check_head(e: &Enclave) -> Result<(), Refusal>
    ensures { result ≡ first (checks_of (image_of e.now) head_passes) }
{
    check_root(e)?;
    check_enclave_id(e)
}

// The rows but for those of scopes.
#[tactic(auto, using(answers::proofs::Laws::list_laws), unfolding(answers::specs::Checks::first, crate::specs::Passes::checks_of, crate::specs::Passes::pass_checks, crate::specs::Passes::table_passes))]
fn check_tables(e: &Enclave) -> Result<(), Refusal>
    ensures { result ≡ first (checks_of (image_of e.now) table_passes) }
{
    check_reactors(e)?;
    check_actions(e)?;
    check_ports(e)?;
    check_reactions(e)?;
    check_modes(e)
}

// The passes before the rows of scopes.
#[tactic(auto, using(answers::proofs::Laws::list_laws, crate::proofs::Whole::row_passes_are))]
pub fn check_rows(e: &Enclave) -> Result<(), Refusal>
    ensures { result ≡ first (checks_of (image_of e.now) row_passes) }
{
    check_head(e)?;
    check_tables(e)
}

// The lists of actions, ports and reactions.
#[tactic(auto, using(answers::proofs::Laws::list_laws), unfolding(answers::specs::Checks::first, crate::specs::Passes::checks_of, crate::specs::Passes::pass_checks, crate::specs::Passes::reaction_list_passes))]
fn check_reaction_lists(e: &Enclave) -> Result<(), Refusal>
    ensures { result ≡ first (checks_of (image_of e.now) reaction_list_passes) }
{
    check_triggers_of_actions(e)?;
    check_triggers_of_ports(e)?;
    check_port_entries::<ReactionUsePort>(e)?;
    check_port_entries::<ReactionEffectPort>(e)?;
    check_action_entries::<ReactionAction>(e)?;
    check_mode_entries::<ReactionMode>(e)?;
    check_modes_of_reactions(e)
}

// The lists of scopes.
#[tactic(auto, using(answers::proofs::Laws::list_laws), unfolding(answers::specs::Checks::first, crate::specs::Passes::checks_of, crate::specs::Passes::pass_checks, crate::specs::Passes::scope_list_passes))]
fn check_scope_tables(e: &Enclave) -> Result<(), Refusal>
    ensures { result ≡ first (checks_of (image_of e.now) scope_list_passes) }
{
    check_scope_entries::<ScopeDescendant>(e)?;
    check_action_entries::<ScopeLogicalAction>(e)?;
    check_startup_entries::<ScopeTimerStartup>(e)?;
    check_lists_of_scopes(e)
}

// Every entry of the tables that ranges lead to.
#[tactic(auto, using(answers::proofs::Laws::list_laws), unfolding(answers::specs::Checks::first, crate::specs::Passes::checks_of, crate::specs::Passes::pass_checks, crate::specs::Passes::entry_passes))]
fn check_entries(e: &Enclave) -> Result<(), Refusal>
    ensures { result ≡ first (checks_of (image_of e.now) entry_passes) }
{
    check_level_entries::<ReactionTrigger>(e)?;
    check_level_entries::<ScopeResetReaction>(e)?;
    check_lifecycle_entries::<ScopeStartupReaction>(e)?;
    check_lifecycle_entries::<ScopeShutdownReaction>(e)
}

// The lists of the enclave itself, routes, bindings and deadlines.
#[tactic(auto, using(answers::proofs::Laws::list_laws), unfolding(answers::specs::Checks::first, crate::specs::Passes::checks_of, crate::specs::Passes::pass_checks, crate::specs::Passes::enclave_list_passes))]
fn check_enclave_lists(e: &Enclave) -> Result<(), Refusal>
    ensures { result ≡ first (checks_of (image_of e.now) enclave_list_passes) }
{
    check_startup_entries::<StartupAction>(e)?;
    check_startup_entries::<TimerStartupAction>(e)?;
    check_shutdown_reactions(e)?;
    check_shutdown_actions(e)?;
    check_routes(e)?;
    check_binding_ids(e)?;
    check_deadlines(e)
}

// The passes after parent cycles.
#[tactic(auto, using(answers::proofs::Laws::list_laws, crate::proofs::Whole::list_passes_are))]
pub fn check_lists(e: &Enclave) -> Result<(), Refusal>
    ensures { result ≡ first (checks_of (image_of e.now) list_passes) }
{
    check_reaction_lists(e)?;
    check_scope_tables(e)?;
    check_entries(e)?;
    check_enclave_lists(e)
}
