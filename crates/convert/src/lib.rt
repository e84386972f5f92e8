// The converter between packs whose numbers go high byte first and packs whose numbers go low byte first: one for both ways.
#![tactic(auto)]

ghost use Rattle.std.specs.Prelude.{◌≡◌, length};
ghost use Rattle.answers.specs.Checks.{first};
ghost use Rattle.convert.specs.Convert.{convert_checks, output_after};

mod rules;
mod turn;

use answers::Refusal;
use packing::PackKind;
use packing::rules::whole_pack;

// Writes the pack with every number turned round into the first bytes of `out`. Nothing is written before all checks have passed.
#[tactic(auto, using(crate::proofs::Promises::shapes_kept), unfolding(answers::specs::Checks::first, crate::specs::Convert::convert_checks))]
pub fn convert(kind: PackKind, pack: &[u8], out: &mut [u8]) -> Result<(), Refusal>
    ensures answer { result ≡ first (convert_checks kind pack.now (length out.old)) }
    ensures output { out.new ≡ output_after result pack.now out.old }
{
    let pack = whole_pack(pack)?;
    if out.len() < pack.bytes.len() {
        return Err(Refusal::OutputTooShort);
    }
    rules::check_shapes(kind, pack)?;
    turn::turn_pack(pack, out);
    Ok(())
}
