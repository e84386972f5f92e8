// The checks of the rows of reactions.
#![tactic(auto, using(answers::proofs::Laws::list_laws), unfolding(answers::specs::Checks::first))]

ghost use Rattle.std.specs.Prelude.{◌≡◌};
ghost use Rattle.answers.specs.Checks.{first, run};
ghost use Rattle.checks.specs.Image.{image_of, reaction_part, effect_target};
ghost use Rattle.row_checks.specs.Reactions.{effect_checks, reaction_owner_checks, reaction_ends_of, reaction_range_checks, reaction_row, reaction_checks};

use crate::bindings::check_binding;
use answers::{Field, Refusal, RowField};
use checks::refs::{check_enclave_range, check_exists, check_ref};
use schema::entries::{ReactionAction, ReactionEffectPort, ReactionMode, ReactionUsePort};
use schema::index::{BindingKind, ModeEffect, ReactionIndex, ReactorIndex};
use schema::lent::Enclave;
use schema::row::Row;
use schema::rows::ReactionImage;

// The ends of a reaction's four ranges; before the first row each is 0. Scopes have six others, in a type of their own: one type for both would need a number
// for each range, where a name stands now.
#[derive(Clone, Copy, Default)]
pub struct ReactionEnds {
    pub uses: u64,
    pub effects: u64,
    pub actions: u64,
    pub enabled: u64,
}

// Where the ranges of a row end.
fn ends_of(row: ReactionImage) -> ReactionEnds
    ensures { result ≡ reaction_ends_of (reaction_part row) }
{
    ReactionEnds {
        uses: row.use_ports.saturating_end(),
        effects: row.effect_ports.saturating_end(),
        actions: row.actions.saturating_end(),
        enabled: row.enabled_modes.saturating_end(),
    }
}

// Reactor, scope and binding are there; the scope is the reactor's.
#[tactic(auto, using(answers::proofs::Laws::list_laws), unfolding(answers::specs::Checks::first, crate::specs::Reactions::reaction_owner_checks))]
fn check_reaction_owner(e: &Enclave, key: ReactionIndex, row: ReactionImage) -> Result<(), Refusal>
    ensures { result ≡ first (reaction_owner_checks (image_of e.now) key.0 (reaction_part row)) }
{
    let at = |field| RowField::of(key, field);
    check_exists(e.starts, at(Field::Reactor), row.reactor)?;
    let scope = check_ref(e.starts, at(Field::Scope), row.scope)?;
    check_binding(e, at(Field::Binding), BindingKind::Reaction, row.binding)?;
    if scope.row(e).reactor == row.reactor {
        return Ok(());
    }
    Err(Refusal::OwnershipMismatch {
        at: at(Field::ScopeReactor),
    })
}

// The target of a mode effect is there, and a mode of the reactor.
#[tactic(auto, unfolding(answers::specs::Checks::first, crate::specs::Reactions::effect_checks))]
fn check_effect(
    e: &Enclave,
    key: ReactionIndex,
    reactor: ReactorIndex,
    effect: Option<ModeEffect>,
) -> Result<(), Refusal>
    ensures { let m = image_of e.now in result ≡ first (effect_checks m.rows m.modes key.0 reactor.0 (effect_target effect)) }
{
    let Some(effect) = effect else {
        return Ok(());
    };
    let at = RowField::of(key, Field::ModeEffectTarget);
    let target = check_ref(e.starts, at, effect.target)?;
    if target.row(e).reactor == reactor {
        return Ok(());
    }
    Err(Refusal::OwnershipMismatch {
        at: RowField::of(key, Field::ModeEffectTargetReactor),
    })
}

#[tactic(auto, using(answers::proofs::Laws::list_laws), unfolding(crate::specs::Reactions::reaction_range_checks))]
fn check_reaction_ranges(
    e: &Enclave,
    key: ReactionIndex,
    row: ReactionImage,
    previous: ReactionEnds,
) -> Result<(), Refusal>
    ensures { let m = image_of e.now in result ≡ first (reaction_range_checks m.rows key.0 (reaction_part row) previous) }
{
    let at = |field| RowField::of(key, field);
    let s = e.starts;
    check_enclave_range::<ReactionUsePort>(s, at(Field::UsePorts), row.use_ports, previous.uses)?;
    check_enclave_range::<ReactionEffectPort>(
        s,
        at(Field::EffectPorts),
        row.effect_ports,
        previous.effects,
    )?;
    check_enclave_range::<ReactionAction>(s, at(Field::Actions), row.actions, previous.actions)?;
    check_enclave_range::<ReactionMode>(
        s,
        at(Field::EnabledModes),
        row.enabled_modes,
        previous.enabled,
    )
}

// A row, where the ranges of the rows before end at `previous`.
#[tactic(auto, using(answers::proofs::Laws::list_laws), unfolding(crate::specs::Reactions::reaction_row))]
fn check_reaction_row(
    e: &Enclave,
    key: ReactionIndex,
    row: ReactionImage,
    previous: ReactionEnds,
) -> Result<(), Refusal>
    ensures { result ≡ first (reaction_row (image_of e.now) key.0 (reaction_part row) previous) }
{
    check_reaction_owner(e, key, row)?;
    check_effect(e, key, row.reactor, row.mode_effect)?;
    check_reaction_ranges(e, key, row, previous)
}

#[tactic(auto, using(answers::proofs::Loops::run_laws), unfolding(crate::specs::Reactions::reaction_checks, crate::specs::Reactions::reaction_ends_before))]
pub fn check_reactions(e: &Enclave) -> Result<(), Refusal>
    ensures { let m = image_of e.now in result ≡ first (run (reaction_checks m) 0 (m.rows 5)) }
{
    let mut previous = ReactionEnds::default();
    for i in 0..e.rows(ReactionImage::TABLE) {
        let row = e.row_within::<ReactionImage>(i);
        check_reaction_row(e, ReactionIndex::new(i), row, previous)?;
        previous = ends_of(row);
    }
    Ok(())
}
