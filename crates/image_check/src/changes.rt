// What a host asks of one record of a line pack: to try a row in its place, or to change it.
ghost use Rattle.std.specs.Prelude.{◌≡◌};
ghost use Rattle.change.specs.Change.{change_answer, pack_after};
ghost use Rattle.image_check.specs.Answered.{Answered};

use crate::put_federate;
use change::{change_record, preview_record};

// What `change_record_of_line` would answer of a copy of the pack; nothing is written but the numbers. The result is how many of `numbers` hold it.
pub fn preview_record_of_line<'a>(
    pack: &'a [u8],
    batch: &'a [u8],
    house: &'a [u8],
    number: u32,
    row: &'a [u8],
    numbers: &mut [u64; 8],
) -> u32
    ensures { Answered (change_answer pack.now batch.now house.now number row.now) result numbers.new }
{
    put_federate(preview_record(pack, batch, house, number, row), numbers)
}

// Writes a row over a record where the line is accepted before and after: 0, the stations and the links of the line after it; or the refusal's numbers,
// and the pack as it was. The result is how many of `numbers` hold it.
pub fn change_record_of_line<'a>(
    pack: &mut [u8],
    batch: &'a [u8],
    house: &'a [u8],
    number: u32,
    row: &'a [u8],
    numbers: &mut [u64; 8],
) -> u32
    ensures answer { Answered (change_answer pack.old batch.now house.now number row.now) result numbers.new }
    ensures pack { pack.new ≡ pack_after pack.old batch.now house.now number row.now }
{
    put_federate(change_record(pack, batch, house, number, row), numbers)
}
