// What a host asks of a tally of line answers, which it keeps as three numbers: the answers added, those accepted, and the sum of their links.
ghost use Rattle.std.specs.Prelude.{◌≡◌};
ghost use Rattle.tally.specs.declared.LineResult.TheVariants.{Accepted, Refused};
ghost use Rattle.tally.specs.Tally.{add_answer, added};
ghost use Rattle.tally.specs.Fractions.{share, mean};
ghost use Rattle.image_check.specs.Answered.{Answered, outcome_numbers};
ghost use Rattle.image_check.specs.Tallies.{tally_of, tally_numbers, fraction_numbers};

use crate::{put, put_outcome, put_refusal};
use answers::Refusal;
use tally::{Fraction, LineResult, Tally, add, mean, share};

fn tally_of(numbers: &[u64; 3]) -> Tally
    ensures { result ≡ tally_of numbers.now }
{
    Tally {
        answers: numbers[0],
        accepted: numbers[1],
        links: numbers[2],
    }
}

// Adds one answer to the three numbers, or leaves them as they were.
fn add_line(tally: &mut [u64; 3], line: LineResult, numbers: &mut [u64; 8]) -> u32
    ensures answer { Answered (outcome_numbers (add_answer (tally_of tally.old) line)) result numbers.new }
    ensures tally { tally.new ≡ tally_numbers (added (tally_of tally.old) line) }
{
    let mut kept = tally_of(tally);
    let added = add(&mut kept, line);
    *tally = [kept.answers, kept.accepted, kept.links];
    put_outcome(added, numbers)
}

fn put_fraction(answer: Result<Fraction, Refusal>, numbers: &mut [u64; 8]) -> u32
    ensures { Answered (fraction_numbers answer) result numbers.new }
{
    match answer {
        Ok(
            Fraction {
                numerator,
                denominator,
            },
        ) => put(&[0, numerator, denominator], numbers),
        Err(refusal) => put_refusal(refusal, numbers),
    }
}

// Adds an accepted answer with its links: 0, or the refusal's number. The result is how many of `numbers` hold it.
pub fn add_accepted_to_tally(tally: &mut [u64; 3], links: u64, numbers: &mut [u64; 8]) -> u32
    ensures answer { Answered (outcome_numbers (add_answer (tally_of tally.old) (Accepted links))) result numbers.new }
    ensures tally { tally.new ≡ tally_numbers (added (tally_of tally.old) (Accepted links)) }
{
    add_line(tally, LineResult::Accepted { links }, numbers)
}

// Adds a refused answer: 0, or the refusal's number. The result is how many of `numbers` hold it.
pub fn add_refused_to_tally(tally: &mut [u64; 3], numbers: &mut [u64; 8]) -> u32
    ensures answer { Answered (outcome_numbers (add_answer (tally_of tally.old) Refused)) result numbers.new }
    ensures tally { tally.new ≡ tally_numbers (added (tally_of tally.old) Refused) }
{
    add_line(tally, LineResult::Refused, numbers)
}

// The share accepted: 0 and the fraction's two numbers, or the refusal's number. The result is how many of `numbers` hold it.
pub fn share_of_tally<'a>(tally: &'a [u64; 3], numbers: &mut [u64; 8]) -> u32
    ensures { Answered (fraction_numbers (share (tally_of tally.now))) result numbers.new }
{
    put_fraction(share(tally_of(tally)), numbers)
}

// The mean links of an accepted line: 0 and the fraction's two numbers, or the refusal's number. The result is how many of `numbers` hold it.
pub fn mean_of_tally<'a>(tally: &'a [u64; 3], numbers: &mut [u64; 8]) -> u32
    ensures { Answered (fraction_numbers (mean (tally_of tally.now))) result numbers.new }
{
    put_fraction(mean(tally_of(tally)), numbers)
}
