// The check of an enclave: packing, then the passes, with the links of its scopes.
ghost use Rattle.std.specs.Prelude.{◌≡◌, ◌<◌, length, IfOk};
ghost use Rattle.schema.specs.Bytes.{Whole};
ghost use Rattle.checks.specs.Image.{image_of};
ghost use Rattle.enclave.specs.Answer.{answer_numbers, image_result, enclave_answer, starts_left};

use crate::passes::{check_lists, check_rows};
use answers::Refusal;
use identity::texts::Texts;
use packing::PackKind;
use packing::rules::checked_pack;
use packing::starts::{enclave, note_starts};
use schema::lent::{Enclave, TableStarts};
use scope_checks::links::check_parents;
use scope_checks::scopes::check_scopes;

// The passes in their order, with the links that the walk of the parents counts.
pub fn check_image(e: &Enclave) -> Result<u64, Refusal>
    ensures { result ≡ image_result (image_of e.now) }
{
    check_rows(e)?;
    check_scopes(e)?;
    let links = check_parents(e)?;
    check_lists(e)?;
    Ok(links)
}

// The answer for an enclave pack and its two texts, with where its tables begin left in `starts` where packing passes: for what is asked of an accepted
// enclave after its check.
pub fn check_enclave_starts(
    pack: &[u8],
    batch: &[u8],
    house: &[u8],
    starts: &mut TableStarts,
) -> Result<u64, Refusal>
    ensures answer { answer_numbers result ≡ enclave_answer pack.now batch.now house.now }
    ensures starts { starts.new.firsts ≡ starts_left pack.now batch.now house.now starts.old.firsts }
    ensures packed { IfOk result (λ links. Whole pack.now × (0 < length pack.now)) }
{
    let texts = Texts { batch, house };
    let pack = checked_pack(PackKind::Enclave, pack, texts)?;
    note_starts(pack.bytes, 1, starts);
    check_image(&enclave(pack, starts, texts))
}

// The answer of `EnclaveImageView::new` for an enclave pack and its two texts, as a host lends them: the links, or the first fault.
pub fn check_enclave(pack: &[u8], batch: &[u8], house: &[u8]) -> Result<u64, Refusal>
    ensures { answer_numbers result ≡ enclave_answer pack.now batch.now house.now }
{
    check_enclave_starts(pack, batch, house, &mut TableStarts::none())
}
