// The check of a federate: packing, its own record, each enclave, then the routes.
ghost use Rattle.std.specs.Prelude.{◌≡◌, [], ◌∷◌, ◌++◌};
ghost use Rattle.answers.specs.Checks.{first};
ghost use Rattle.identity.specs.Text.{identity_text};
ghost use Rattle.federate.specs.Federate.{own_checks};
ghost use Rattle.federate.specs.Answer.{federate_numbers, federate_result, federate_answer};

use crate::FederateAccepted;
use crate::enclaves::validate_federate_enclaves;
use crate::metadata::{check_enclave_count, validate_federate_metadata};
use crate::records::count_enclaves;
use answers::Refusal;
use identity::texts::Texts;
use packing::PackKind;
use packing::rules::checked_pack;
use route_pairs::{Federate, validate_federate_route_pairs};
use schema::row::Stored;
use schema::rows::FederateImage;

// The federate's own record, which has as many enclaves as there are.
#[tactic(auto, using(answers::proofs::Laws::list_laws), unfolding(crate::specs::Federate::own_checks))]
fn check_own_record(texts: Texts, own: FederateImage, enclaves: u32) -> Result<(), Refusal>
    ensures { let t = texts.entry in result ≡ first (own_checks (identity_text t.batch.now t.house.now) own enclaves) }
{
    validate_federate_metadata(texts, own)?;
    check_enclave_count(own, enclaves)
}

// What is answered of a pack that is packed.
fn check_packed(federate: Federate) -> Result<FederateAccepted, Refusal>
    ensures { let f = federate.entry in result ≡ federate_result f.pack.bytes.now f.texts.batch.now f.texts.house.now }
{
    let own = FederateImage::at(federate.pack, 0);
    let enclaves = count_enclaves(federate.pack);
    check_own_record(federate.texts, own, enclaves)?;
    let links = validate_federate_enclaves(federate, own.enclaves.0.start)?;
    validate_federate_route_pairs(federate)?;
    Ok(FederateAccepted { enclaves, links })
}

// The answer of `FederateImageView::new` for a federate pack and its two texts, as a host lends them: what is accepted, or the first fault.
pub fn check_federate(pack: &[u8], batch: &[u8], house: &[u8]) -> Result<FederateAccepted, Refusal>
    ensures { federate_numbers result ≡ federate_answer pack.now batch.now house.now }
{
    let texts = Texts { batch, house };
    let pack = checked_pack(PackKind::Federate, pack, texts)?;
    check_packed(Federate { pack, texts })
}
