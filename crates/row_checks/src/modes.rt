// The checks of the rows of modes.
#![tactic(auto, using(answers::proofs::Laws::list_laws), unfolding(answers::specs::Checks::first, crate::specs::Modes::mode_row))]

ghost use Rattle.std.specs.Prelude.{◌≡◌};
ghost use Rattle.answers.specs.Checks.{first, run};
ghost use Rattle.checks.specs.Image.{image_of};
ghost use Rattle.row_checks.specs.Modes.{mode_owner_checks, mode_row, mode_checks};

use answers::{Field, Refusal, RowField};
use checks::refs::check_ref;
use schema::index::ModeIndex;
use schema::lent::Enclave;
use schema::row::Row;
use schema::rows::{ModeImage, ReactorImage, ScopeImage};

// The scope is the mode's reactor's, and the mode's own; the reactor's span holds the mode.
#[tactic(auto, unfolding(answers::specs::Checks::first, crate::specs::Modes::mode_owner_checks))]
fn check_mode_owner(
    key: ModeIndex,
    row: ModeImage,
    reactor: ReactorImage,
    scope: ScopeImage,
) -> Result<(), Refusal>
    ensures { result ≡ first (mode_owner_checks key.0 row reactor scope) }
{
    let wrong = if scope.reactor != row.reactor {
        Field::ScopeReactor
    } else if scope.mode != Some(key) {
        Field::ScopeMode
    } else if !reactor.modes.0.contains(key.0) {
        Field::ReactorModes
    } else {
        return Ok(());
    };
    Err(Refusal::OwnershipMismatch {
        at: RowField::of(key, wrong),
    })
}

fn check_mode_row(e: &Enclave, key: ModeIndex, row: ModeImage) -> Result<(), Refusal>
    ensures { result ≡ first (mode_row (image_of e.now) key.0 row) }
{
    let reactor = check_ref(e.starts, RowField::of(key, Field::Reactor), row.reactor)?;
    let scope = check_ref(e.starts, RowField::of(key, Field::Scope), row.scope)?;
    check_mode_owner(key, row, reactor.row(e), scope.row(e))
}

#[tactic(auto, using(answers::proofs::Loops::run_laws), unfolding(crate::specs::Modes::mode_checks))]
pub fn check_modes(e: &Enclave) -> Result<(), Refusal>
    ensures { let m = image_of e.now in result ≡ first (run (mode_checks m) 0 (m.rows 6)) }
{
    for i in 0..e.rows(ModeImage::TABLE) {
        check_mode_row(e, ModeIndex::new(i), e.row_within(i))?;
    }
    Ok(())
}
