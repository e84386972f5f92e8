// The federate's own record: its identities, and its span of enclaves.
#![tactic(auto, using(answers::proofs::Laws::list_laws), unfolding(answers::specs::Checks::first))]

ghost use Rattle.std.specs.Prelude.{◌≡◌, [], ◌∷◌};
ghost use Rattle.identity.specs.Text.{identity_text};
ghost use Rattle.answers.specs.Checks.{first};
ghost use Rattle.federate.specs.Federate.{span_check, metadata_checks, count_check};

use answers::{Field, IdKind, Refusal, RowField, StableId};
use checks::identities::validate_id;
use identity::texts::Texts;
use schema::index::KEYS;
use schema::row::Row;
use schema::rows::FederateImage;

// The number that stands for the table of a federate's span, which document 01 gives: the keys of enclaves.
const ENCLAVE_KEYS: u8 = 255;

// The span of enclaves.
const SPAN: RowField = RowField {
    table: FederateImage::TABLE,
    index: 0,
    field: Field::Enclaves,
};

// The span ends, and not past the keys of enclaves.
fn check_span(federate: FederateImage) -> Result<(), Refusal>
    ensures { result ≡ first (span_check federate ∷ []) }
{
    let span = federate.enclaves.0;
    if span.checked_end().is_some_and(|end| end <= KEYS) {
        return Ok(());
    }
    Err(Refusal::RangeOutOfBounds {
        at: SPAN,
        target: ENCLAVE_KEYS,
        start: span.start,
        len: span.len,
    })
}

// Id, target, runtime, span.
#[tactic(auto, unfolding(answers::specs::Checks::first, crate::specs::Federate::metadata_checks))]
pub fn validate_federate_metadata(texts: Texts, federate: FederateImage) -> Result<(), Refusal>
    ensures { let t = texts.entry in result ≡ first (metadata_checks (identity_text t.batch.now t.house.now) federate) }
{
    let own = |kind, id| StableId { kind, index: 0, id };
    validate_id(texts, own(IdKind::Federate, federate.id))?;
    validate_id(texts, own(IdKind::Target, federate.target))?;
    validate_id(texts, own(IdKind::Runtime, federate.runtime))?;
    check_span(federate)
}

// As many enclaves as the span has.
pub fn check_enclave_count(federate: FederateImage, enclaves: u32) -> Result<(), Refusal>
    ensures { result ≡ first (count_check federate enclaves ∷ []) }
{
    if u64::from(enclaves) == federate.enclaves.0.len {
        return Ok(());
    }
    Err(Refusal::OwnershipMismatch { at: SPAN })
}
