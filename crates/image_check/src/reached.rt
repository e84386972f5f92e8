// What a host asks of levels that rise: the second check of an enclave pack, and what one of its reactions reaches, with marks in bytes that it lends.
ghost use Rattle.std.specs.Prelude.{◌≡◌};
ghost use Rattle.rising.specs.Rising.{rising_answer};
ghost use Rattle.rising.specs.Answer.{reach_answer, scratch_after};
ghost use Rattle.image_check.specs.Answered.{Answered};

use crate::{put, put_refusal};
use rising::marks::Marks;
use rising::rising::{check_rising, count_reached};

// The answer of the second check: 0 and the links, or the refusal's numbers. The result is how many of `numbers` hold it.
pub fn check_rising_image<'a>(
    pack: &'a [u8],
    batch: &'a [u8],
    house: &'a [u8],
    numbers: &mut [u64; 8],
) -> u32
    ensures { Answered (rising_answer pack.now batch.now house.now) result numbers.new }
{
    match check_rising(pack, batch, house) {
        Ok(links) => put(&[0, links], numbers),
        Err(refusal) => put_refusal(refusal, numbers),
    }
}

// How many other reactions one reaches: 0 and their count, or the refusal's numbers. The result is how many of `numbers` hold it.
pub fn count_reached_in_image<'a>(
    pack: &'a [u8],
    batch: &'a [u8],
    house: &'a [u8],
    reaction: u32,
    kind: Marks,
    scratch: &mut [u8],
    numbers: &mut [u64; 8],
) -> u32
    ensures answer { Answered (reach_answer kind pack.now batch.now house.now reaction scratch.old) result numbers.new }
    ensures scratch { scratch.new ≡ scratch_after kind pack.now batch.now house.now reaction scratch.old }
{
    match count_reached(pack, batch, house, reaction, kind, scratch) {
        Ok(count) => put(&[0, u64::from(count)], numbers),
        Err(refusal) => put_refusal(refusal, numbers),
    }
}
