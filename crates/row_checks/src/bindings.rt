// A row's required binding: it is there, and of the kind that the row wants.
#![tactic(auto, unfolding(answers::specs::Checks::first, crate::specs::Bindings::binding_checks))]

ghost use Rattle.std.specs.Prelude.{◌≡◌};
ghost use Rattle.answers.specs.Checks.{first};
ghost use Rattle.checks.specs.Image.{image_of};
ghost use Rattle.row_checks.specs.Bindings.{binding_checks};

use answers::{Refusal, RowField};
use checks::refs::check_ref;
use schema::index::{BindingKind, BindingSlotIndex};
use schema::lent::Enclave;

// A row names a binding in a field, which must be of the kind.
pub fn check_binding(
    e: &Enclave,
    at: RowField,
    kind: BindingKind,
    key: BindingSlotIndex,
) -> Result<(), Refusal>
    ensures { let m = image_of e.now in result ≡ first (binding_checks m.rows m.bindings at.table at.index at.field kind key.0) }
{
    let binding = check_ref(e.starts, at, key)?;
    if binding.row(e).kind != kind {
        return Err(Refusal::BindingKindMismatch { at });
    }
    Ok(())
}
