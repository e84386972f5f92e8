// What a host asks of the converter, with the output that it lends.
ghost use Rattle.std.specs.Prelude.{◌≡◌, length};
ghost use Rattle.answers.specs.Checks.{first};
ghost use Rattle.convert.specs.Convert.{convert_checks, output_after};
ghost use Rattle.image_check.specs.Answered.{Answered, outcome_numbers};

use crate::put_outcome;
use convert::convert;
use packing::PackKind;

// Writes a pack of that kind with every number turned round into the first bytes of the output: 0, or the refusal's numbers. The result is how many of
// `numbers` hold it.
pub fn convert_image<'a>(
    kind: PackKind,
    pack: &'a [u8],
    out: &mut [u8],
    numbers: &mut [u64; 8],
) -> u32
    ensures answer { Answered (outcome_numbers (first (convert_checks kind pack.now (length out.old)))) result numbers.new }
    ensures output { out.new ≡ output_after (first (convert_checks kind pack.now (length out.old))) pack.now out.old }
{
    put_outcome(convert(kind, pack, out), numbers)
}
