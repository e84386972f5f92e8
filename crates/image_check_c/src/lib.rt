// The exports of image_check, for a host in another language: libimage_check.a.
#![tactic(auto)]

ghost use Rattle.std.specs.Prelude.{◌≡◌, length};
ghost use Rattle.answers.specs.Checks.{first};
ghost use Rattle.enclave.specs.Answer.{enclave_answer};
ghost use Rattle.federate.specs.Answer.{federate_answer};
ghost use Rattle.night.specs.Night.{night_answer};
ghost use Rattle.mode_owner.specs.Owner.{owner_answer};
ghost use Rattle.change.specs.Change.{change_answer, pack_after};
ghost use Rattle.convert.specs.Convert.{convert_checks, output_after};
ghost use Rattle.rising.specs.declared.marks.Marks.TheVariants.{Bytes, Bits};
ghost use Rattle.rising.specs.Rising.{rising_answer};
ghost use Rattle.rising.specs.Answer.{reach_answer, scratch_after};
ghost use Rattle.tally.specs.declared.LineResult.TheVariants.{Accepted, Refused};
ghost use Rattle.tally.specs.Tally.{add_answer, added};
ghost use Rattle.tally.specs.Fractions.{share, mean};
ghost use Rattle.image_check.specs.Answered.{Answered, outcome_numbers};
ghost use Rattle.image_check.specs.Tallies.{tally_of, tally_numbers, fraction_numbers};
ghost use Rattle.trees.specs.Answer.{first_answer, first_bytes, next_answer, next_bytes};
ghost use Rattle.image_check.specs.ScopeTrees.{first_numbers, next_numbers};

use image_check::{changes, conversions, reached, scope_trees, tallies};
use packing::PackKind;
use rising::marks::Marks;

// The answer for an enclave pack and its two texts; the result is how many of `numbers` hold it.
#[unsafe(no_mangle)]
pub extern "C" fn check_enclave_image<'a>(
    pack: &'a [u8],
    batch: &'a [u8],
    house: &'a [u8],
    numbers: &mut [u64; 8],
) -> u32
    ensures { Answered (enclave_answer pack.now batch.now house.now) result numbers.new }
{
    image_check::check_enclave_image(pack, batch, house, numbers)
}

// The answer for a federate pack and its two texts; the result is how many of `numbers` hold it.
#[unsafe(no_mangle)]
pub extern "C" fn check_federate_image<'a>(
    pack: &'a [u8],
    batch: &'a [u8],
    house: &'a [u8],
    numbers: &mut [u64; 8],
) -> u32
    ensures { Answered (federate_answer pack.now batch.now house.now) result numbers.new }
{
    image_check::check_federate_image(pack, batch, house, numbers)
}

// The answer for a federate pack and its two texts at night; the result is how many of `numbers` hold it.
#[unsafe(no_mangle)]
pub extern "C" fn check_federate_image_night<'a>(
    pack: &'a [u8],
    batch: &'a [u8],
    house: &'a [u8],
    numbers: &mut [u64; 8],
) -> u32
    ensures { Answered (night_answer pack.now batch.now house.now) result numbers.new }
{
    image_check::check_federate_image_night(pack, batch, house, numbers)
}

// The reactor that a mode of an enclave pack belongs to; the result is how many of `numbers` hold the answer.
#[unsafe(no_mangle)]
pub extern "C" fn mode_owner_of_image<'a>(
    pack: &'a [u8],
    batch: &'a [u8],
    house: &'a [u8],
    mode: u32,
    numbers: &mut [u64; 8],
) -> u32
    ensures { Answered (owner_answer pack.now batch.now house.now mode) result numbers.new }
{
    image_check::mode_owner_of_image(pack, batch, house, mode, numbers)
}

// What a change of a record of a line would answer; the result is how many of `numbers` hold the answer.
#[unsafe(no_mangle)]
pub extern "C" fn preview_record_of_line<'a>(
    pack: &'a [u8],
    batch: &'a [u8],
    house: &'a [u8],
    number: u32,
    row: &'a [u8],
    numbers: &mut [u64; 8],
) -> u32
    ensures { Answered (change_answer pack.now batch.now house.now number row.now) result numbers.new }
{
    changes::preview_record_of_line(pack, batch, house, number, row, numbers)
}

// Changes a record of a line where it is accepted before and after; the result is how many of `numbers` hold the answer.
#[unsafe(no_mangle)]
pub extern "C" fn change_record_of_line<'a>(
    pack: &mut [u8],
    batch: &'a [u8],
    house: &'a [u8],
    number: u32,
    row: &'a [u8],
    numbers: &mut [u64; 8],
) -> u32
    ensures answer { Answered (change_answer pack.old batch.now house.now number row.now) result numbers.new }
    ensures pack { pack.new ≡ pack_after pack.old batch.now house.now number row.now }
{
    changes::change_record_of_line(pack, batch, house, number, row, numbers)
}

// Turns every number of an enclave pack round, into the output; the result is how many of `numbers` hold the answer.
#[unsafe(no_mangle)]
pub extern "C" fn convert_enclave_image<'a>(
    pack: &'a [u8],
    out: &mut [u8],
    numbers: &mut [u64; 8],
) -> u32
    ensures answer { Answered (outcome_numbers (first (convert_checks PackKind.Enclave pack.now (length out.old)))) result numbers.new }
    ensures output { out.new ≡ output_after (first (convert_checks PackKind.Enclave pack.now (length out.old))) pack.now out.old }
{
    conversions::convert_image(PackKind::Enclave, pack, out, numbers)
}

// Turns every number of a federate pack round, into the output; the result is how many of `numbers` hold the answer.
#[unsafe(no_mangle)]
pub extern "C" fn convert_federate_image<'a>(
    pack: &'a [u8],
    out: &mut [u8],
    numbers: &mut [u64; 8],
) -> u32
    ensures answer { Answered (outcome_numbers (first (convert_checks PackKind.Federate pack.now (length out.old)))) result numbers.new }
    ensures output { out.new ≡ output_after (first (convert_checks PackKind.Federate pack.now (length out.old))) pack.now out.old }
{
    conversions::convert_image(PackKind::Federate, pack, out, numbers)
}

// The answer of the second check for an enclave pack; the result is how many of `numbers` hold it.
#[unsafe(no_mangle)]
pub extern "C" fn check_rising_image<'a>(
    pack: &'a [u8],
    batch: &'a [u8],
    house: &'a [u8],
    numbers: &mut [u64; 8],
) -> u32
    ensures { Answered (rising_answer pack.now batch.now house.now) result numbers.new }
{
    reached::check_rising_image(pack, batch, house, numbers)
}

// How many other reactions one reaches, marked in a byte each; the result is how many of `numbers` hold the answer.
#[unsafe(no_mangle)]
pub extern "C" fn reached_in_bytes_of_image<'a>(
    pack: &'a [u8],
    batch: &'a [u8],
    house: &'a [u8],
    reaction: u32,
    scratch: &mut [u8],
    numbers: &mut [u64; 8],
) -> u32
    ensures answer { Answered (reach_answer Bytes pack.now batch.now house.now reaction scratch.old) result numbers.new }
    ensures scratch { scratch.new ≡ scratch_after Bytes pack.now batch.now house.now reaction scratch.old }
{
    reached::count_reached_in_image(pack, batch, house, reaction, Marks::Bytes, scratch, numbers)
}

// The same, marked in a bit each.
#[unsafe(no_mangle)]
pub extern "C" fn reached_in_bits_of_image<'a>(
    pack: &'a [u8],
    batch: &'a [u8],
    house: &'a [u8],
    reaction: u32,
    scratch: &mut [u8],
    numbers: &mut [u64; 8],
) -> u32
    ensures answer { Answered (reach_answer Bits pack.now batch.now house.now reaction scratch.old) result numbers.new }
    ensures scratch { scratch.new ≡ scratch_after Bits pack.now batch.now house.now reaction scratch.old }
{
    reached::count_reached_in_image(pack, batch, house, reaction, Marks::Bits, scratch, numbers)
}

// Adds an accepted answer to a tally, with its links; the result is how many of `numbers` hold the answer.
#[unsafe(no_mangle)]
pub extern "C" fn add_accepted_to_tally(
    tally: &mut [u64; 3],
    links: u64,
    numbers: &mut [u64; 8],
) -> u32
    ensures answer { Answered (outcome_numbers (add_answer (tally_of tally.old) (Accepted links))) result numbers.new }
    ensures tally { tally.new ≡ tally_numbers (added (tally_of tally.old) (Accepted links)) }
{
    tallies::add_accepted_to_tally(tally, links, numbers)
}

// Adds a refused answer to a tally; the result is how many of `numbers` hold the answer.
#[unsafe(no_mangle)]
pub extern "C" fn add_refused_to_tally(tally: &mut [u64; 3], numbers: &mut [u64; 8]) -> u32
    ensures answer { Answered (outcome_numbers (add_answer (tally_of tally.old) Refused)) result numbers.new }
    ensures tally { tally.new ≡ tally_numbers (added (tally_of tally.old) Refused) }
{
    tallies::add_refused_to_tally(tally, numbers)
}

// The share accepted of a tally; the result is how many of `numbers` hold the answer.
#[unsafe(no_mangle)]
pub extern "C" fn share_of_tally<'a>(tally: &'a [u64; 3], numbers: &mut [u64; 8]) -> u32
    ensures { Answered (fraction_numbers (share (tally_of tally.now))) result numbers.new }
{
    tallies::share_of_tally(tally, numbers)
}

// The mean links of an accepted line of a tally; the result is how many of `numbers` hold the answer.
#[unsafe(no_mangle)]
pub extern "C" fn mean_of_tally<'a>(tally: &'a [u64; 3], numbers: &mut [u64; 8]) -> u32
    ensures { Answered (fraction_numbers (mean (tally_of tally.now))) result numbers.new }
{
    tallies::mean_of_tally(tally, numbers)
}

// The first legal table of so many scopes, in the place of the lent bytes; the result is how many of `numbers` hold the answer.
#[unsafe(no_mangle)]
pub extern "C" fn first_scope_tree(count: u32, table: &mut [u8], numbers: &mut [u64; 8]) -> u32
    ensures answer { Answered (first_numbers (first_answer count table.old)) result numbers.new }
    ensures table { table.new ≡ first_bytes count table.old }
{
    scope_trees::first_scope_tree(count, table, numbers)
}

// The next legal table after the one in the lent bytes, in its place; the result is how many of `numbers` hold the answer.
#[unsafe(no_mangle)]
pub extern "C" fn next_scope_tree(count: u32, table: &mut [u8], numbers: &mut [u64; 8]) -> u32
    ensures answer { Answered (next_numbers (next_answer count table.old)) result numbers.new }
    ensures table { table.new ≡ next_bytes count table.old }
{
    scope_trees::next_scope_tree(count, table, numbers)
}
