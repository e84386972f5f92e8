// The references of a row of scopes: its reactor, its parent, and its mode, which names the scope and its reactor.
#![tactic(auto, unfolding(answers::specs::Checks::first, crate::specs::Scopes::parent_checks, crate::specs::Scopes::scope_mode_checks))]

ghost use Rattle.std.specs.Prelude.{◌≡◌};
ghost use Rattle.answers.specs.Checks.{first};
ghost use Rattle.schema.specs.Tables.{rows_of};
ghost use Rattle.checks.specs.Image.{image_of};
ghost use Rattle.scope_checks.specs.Scopes.{parent_checks, scope_mode_checks, scope_owner_checks};

use answers::{Field, Refusal, RowField};
use checks::refs::{check_exists, check_ref};
use schema::index::{ModeIndex, ReactorIndex, ScopeIndex};
use schema::lent::{Enclave, TableStarts};
use schema::rows::ScopeImage;

// The parent, where there is one, is there.
pub fn check_parent(
    starts: &TableStarts,
    key: ScopeIndex,
    parent: Option<ScopeIndex>,
) -> Result<(), Refusal>
    ensures { result ≡ first (parent_checks (rows_of starts.now.firsts) key.0 parent) }
{
    match parent {
        Some(parent) => check_exists(starts, RowField::of(key, Field::Parent), parent),
        None => Ok(()),
    }
}

// The mode, where there is one, is there, and names the scope and its reactor.
pub fn check_scope_mode(
    e: &Enclave,
    key: ScopeIndex,
    reactor: ReactorIndex,
    mode: Option<ModeIndex>,
) -> Result<(), Refusal>
    ensures { let m = image_of e.now in result ≡ first (scope_mode_checks m.rows m.modes key.0 reactor.0 mode) }
{
    let Some(mode) = mode else {
        return Ok(());
    };
    let at = RowField::of(key, Field::Mode);
    let owner = check_ref(e.starts, at, mode)?.row(e);
    if owner.scope == key && owner.reactor == reactor {
        return Ok(());
    }
    Err(Refusal::OwnershipMismatch { at })
}

// The references of a row, in order: reactor, parent, mode.
#[tactic(auto, using(answers::proofs::Laws::list_laws), unfolding(answers::specs::Checks::first, crate::specs::Scopes::scope_owner_checks))]
pub fn check_scope_owner(e: &Enclave, key: ScopeIndex, row: ScopeImage) -> Result<(), Refusal>
    ensures { result ≡ first (scope_owner_checks (image_of e.now) key.0 row) }
{
    check_exists(e.starts, RowField::of(key, Field::Reactor), row.reactor)?;
    check_parent(e.starts, key, row.parent)?;
    check_scope_mode(e, key, row.reactor, row.mode)
}
