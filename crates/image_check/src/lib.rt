// What a host in another language asks: each answer as the documents' numbers, in eight numbers that the host lends.
#![tactic(auto)]

pub mod changes;
pub mod conversions;
pub mod reached;
pub mod scope_trees;
pub mod tallies;

ghost use Rattle.std.specs.Prelude.{◌≤◌, length, Err};
ghost use Rattle.enclave.specs.Answer.{enclave_answer};
ghost use Rattle.federate.specs.Answer.{federate_numbers, federate_answer};
ghost use Rattle.night.specs.Night.{night_answer};
ghost use Rattle.mode_owner.specs.Owner.{owner_answer};
ghost use Rattle.image_check.specs.Answered.{Answered, outcome_numbers};

use answers::Refusal;
use enclave::check::check_enclave;
use federate::FederateAccepted;
use federate::check::check_federate;
use mode_owner::mode_owner;
use night::check_federate_night;

// Writes the numbers of an answer into those that the host lends, zeros after them, and answers how many it has.
// Numbers and a count: the host is C, which has no slices and no enums with fields.
fn put(answer: &[u64], numbers: &mut [u64; 8]) -> u32
    requires { length answer.now ≤ 8 }
    ensures { Answered answer.now result numbers.new }
{
    *numbers = [0; 8];
    numbers[..answer.len()].copy_from_slice(answer);
    answer.len() as u32
}

// Writes a refusal's numbers, all eight at once, and answers how many it has.
#[tactic(auto, using(crate::proofs::Filled::filled_refusal))]
fn put_refusal(refusal: Refusal, numbers: &mut [u64; 8]) -> u32
    ensures { Answered (outcome_numbers (Err refusal)) result numbers.new }
{
    let list = answers::numbers(refusal);
    let values = list.values;
    *numbers = values;
    list.len as u32
}

// The numbers of what has no value to give: 0 alone, or the refusal's.
fn put_outcome(outcome: Result<(), Refusal>, numbers: &mut [u64; 8]) -> u32
    ensures { Answered (outcome_numbers outcome) result numbers.new }
{
    match outcome {
        Ok(()) => put(&[0], numbers),
        Err(refusal) => put_refusal(refusal, numbers),
    }
}

// The answer for an enclave pack and its two texts: 0 and the links, or the refusal's numbers. The result is how many of `numbers` hold it.
pub fn check_enclave_image<'a>(
    pack: &'a [u8],
    batch: &'a [u8],
    house: &'a [u8],
    numbers: &mut [u64; 8],
) -> u32
    ensures { Answered (enclave_answer pack.now batch.now house.now) result numbers.new }
{
    match check_enclave(pack, batch, house) {
        Ok(links) => put(&[0, links], numbers),
        Err(refusal) => put_refusal(refusal, numbers),
    }
}

// Writes a line's answer: 0, the stations and the links, or the refusal's numbers.
fn put_federate(answer: Result<FederateAccepted, Refusal>, numbers: &mut [u64; 8]) -> u32
    ensures { Answered (federate_numbers answer) result numbers.new }
{
    match answer {
        Ok(FederateAccepted { enclaves, links }) => put(&[0, u64::from(enclaves), links], numbers),
        Err(refusal) => put_refusal(refusal, numbers),
    }
}

// The answer for a federate pack and its two texts: 0, the stations and the links, or the refusal's numbers. The result is how many of `numbers` hold it.
pub fn check_federate_image<'a>(
    pack: &'a [u8],
    batch: &'a [u8],
    house: &'a [u8],
    numbers: &mut [u64; 8],
) -> u32
    ensures { Answered (federate_answer pack.now batch.now house.now) result numbers.new }
{
    put_federate(check_federate(pack, batch, house), numbers)
}

// The same at night: a day's yes stands where the night's rules hold, and else the first fault against them is the answer.
pub fn check_federate_image_night<'a>(
    pack: &'a [u8],
    batch: &'a [u8],
    house: &'a [u8],
    numbers: &mut [u64; 8],
) -> u32
    ensures { Answered (night_answer pack.now batch.now house.now) result numbers.new }
{
    put_federate(check_federate_night(pack, batch, house), numbers)
}

// The reactor that a mode of an enclave pack belongs to: 0 and the reactor, or the refusal's numbers. The result is how many of `numbers` hold it.
pub fn mode_owner_of_image<'a>(
    pack: &'a [u8],
    batch: &'a [u8],
    house: &'a [u8],
    mode: u32,
    numbers: &mut [u64; 8],
) -> u32
    ensures { Answered (owner_answer pack.now batch.now house.now mode) result numbers.new }
{
    match mode_owner(pack, batch, house, mode) {
        Ok(reactor) => put(&[0, u64::from(reactor.0)], numbers),
        Err(refusal) => put_refusal(refusal, numbers),
    }
}
