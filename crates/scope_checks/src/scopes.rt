// The rows of scopes, one after the other.
#![tactic(auto, using(answers::proofs::Loops::run_laws, crate::proofs::EndsLaws::ends_laws), unfolding(crate::specs::Scopes::scope_checks))]

ghost use Rattle.std.specs.Prelude.{◌≡◌};
ghost use Rattle.answers.specs.Checks.{first, run};
ghost use Rattle.checks.specs.Image.{image_of};
ghost use Rattle.scope_checks.specs.Scopes.{scope_checks};

use crate::ends::{ScopeEnds, check_scope_row};
use answers::Refusal;
use schema::index::ScopeIndex;
use schema::lent::Enclave;
use schema::row::Row;
use schema::rows::ScopeImage;

pub fn check_scopes(e: &Enclave) -> Result<(), Refusal>
    ensures { let m = image_of e.now in result ≡ first (run (scope_checks m) 0 (m.rows 7)) }
{
    let mut ends = ScopeEnds::default();
    for i in 0..e.rows(ScopeImage::TABLE) {
        let row = e.row_within::<ScopeImage>(i);
        check_scope_row(e, ScopeIndex::new(i), row, &mut ends)?;
    }
    Ok(())
}
