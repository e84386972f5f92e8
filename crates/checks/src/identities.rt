// Identities: valid, and above the identity before. Each check in two forms: routes and bindings read a text once for two rows and lend it, elsewhere a place
// is at hand.
ghost use Rattle.std.specs.Prelude.{◌≡◌, [], ◌∷◌};
ghost use Rattle.answers.specs.Checks.{first};
ghost use Rattle.identity.specs.Text.{identity_text};
ghost use Rattle.checks.specs.Identities.{id_check, text_order_checks, id_order_checks};

use answers::{Refusal, StableId};
use identity::IdentityPlace;
use identity::compare::compare_bytes;
use identity::scan::valid_id;
use identity::texts::Texts;
use std::cmp::Ordering;

// An identity of a row, whose text is lent, is valid.
#[inline(always)]
pub fn validate_text(id: StableId, text: &[u8]) -> Result<(), Refusal>
    ensures { result ≡ first (id_check (λ _. text.now) id.kind id.index id.id ∷ []) }
{
    if valid_id(text) {
        Ok(())
    } else {
        Err(Refusal::InvalidStableId { id })
    }
}

// An identity of a row, by its place, is valid.
#[inline(always)]
pub fn validate_id(texts: Texts, id: StableId) -> Result<(), Refusal>
    ensures { result ≡ first (id_check (identity_text texts.entry.batch.now texts.entry.house.now) id.kind id.index id.id ∷ []) }
{
    validate_text(id, texts.identity_text(id.id))
}

// An identity of a row differs from the one before, and is not below it; both texts are lent.
#[inline(always)]
pub fn validate_text_order(id: StableId, text: &[u8], previous: &[u8]) -> Result<(), Refusal>
    ensures { result ≡ first (text_order_checks id.kind id.index id.id text.now previous.now) }
{
    match compare_bytes(text, previous) {
        Ordering::Less => Err(Refusal::StableIdsNotSorted { id }),
        Ordering::Equal => Err(Refusal::DuplicateStableId { id }),
        Ordering::Greater => Ok(()),
    }
}

// An identity of a row differs from the one before, and is not below it, both by their places.
pub fn validate_id_order(texts: Texts, id: StableId, before: IdentityPlace) -> Result<(), Refusal>
    ensures { let t = texts.entry in result ≡ first (id_order_checks (identity_text t.batch.now t.house.now) id.kind id.index id.id before) }
{
    validate_text_order(id, texts.identity_text(id.id), texts.identity_text(before))
}
