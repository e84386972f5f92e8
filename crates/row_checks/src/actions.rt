// The checks of the rows of actions.
#![tactic(auto, using(answers::proofs::Laws::list_laws), unfolding(answers::specs::Checks::first, crate::specs::Actions::action_row))]

ghost use Rattle.std.specs.Prelude.{◌≡◌};
ghost use Rattle.answers.specs.Checks.{first, run};
ghost use Rattle.checks.specs.Image.{image_of, is_standard, action_part};
ghost use Rattle.row_checks.specs.Actions.{action_binding_checks, action_row, action_checks};

use crate::bindings::check_binding;
use crate::reactors::check_slot;
use answers::{Field, Refusal, RowField};
use checks::refs::{check_enclave_range, check_exists};
use schema::entries::ReactionTrigger;
use schema::index::{ActionIndex, ActionTiming, BindingKind, BindingSlotIndex};
use schema::lent::Enclave;
use schema::row::{Row, Stored};
use schema::rows::{ActionImage, EnclaveImage};

// A standard action has a binding, a timer and a shutdown have none.
#[tactic(auto, unfolding(answers::specs::Checks::first, crate::specs::Actions::action_binding_checks))]
fn check_action_binding(
    e: &Enclave,
    key: ActionIndex,
    timing: ActionTiming,
    binding: Option<BindingSlotIndex>,
) -> Result<(), Refusal>
    ensures { let m = image_of e.now in result ≡ first (action_binding_checks m.rows m.bindings key.0 (is_standard timing) binding) }
{
    let at = RowField::of(key, Field::Binding);
    let standard = matches!(timing, ActionTiming::Standard { .. });
    match (standard, binding) {
        (true, Some(binding)) => check_binding(e, at, BindingKind::Action, binding),
        (false, None) => Ok(()),
        _ => Err(Refusal::BindingPresenceMismatch { at }),
    }
}

// A row, where the triggers of the rows before end at `previous_end`.
fn check_action_row(
    e: &Enclave,
    key: ActionIndex,
    row: ActionImage,
    previous_end: u64,
) -> Result<(), Refusal>
    ensures { result ≡ first (action_row (image_of e.now) key.0 (action_part row) previous_end) }
{
    check_exists(e.starts, RowField::of(key, Field::Scope), row.scope)?;
    let bound = EnclaveImage::at(e.pack, e.own).storage_bounds.action_slots;
    check_slot(ActionImage::TABLE, bound, key.0, row.storage_slot)?;
    check_action_binding(e, key, row.timing, row.binding)?;
    let at = RowField::of(key, Field::Triggers);
    check_enclave_range::<ReactionTrigger>(e.starts, at, row.triggers, previous_end)
}

#[tactic(auto, using(answers::proofs::Loops::run_laws), unfolding(crate::specs::Actions::action_checks))]
pub fn check_actions(e: &Enclave) -> Result<(), Refusal>
    ensures { let m = image_of e.now in result ≡ first (run (action_checks m) 0 (m.rows 3)) }
{
    let mut previous_end = 0;
    for i in 0..e.rows(ActionImage::TABLE) {
        let row = e.row_within::<ActionImage>(i);
        check_action_row(e, ActionIndex::new(i), row, previous_end)?;
        previous_end = row.triggers.saturating_end();
    }
    Ok(())
}
