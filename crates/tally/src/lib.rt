// A running tally of line answers: adding one, and asking for the share accepted and the mean links.
#![tactic(auto)]

ghost use Rattle.std.specs.Prelude.{◌≡◌};
ghost use Rattle.answers.specs.Checks.{first};
ghost use Rattle.tally.specs.Gcd.{gcd};
ghost use Rattle.tally.specs.Tally.{empty, links_in, accepted_in, given, add_checks, add_answer, added};
ghost use Rattle.tally.specs.Fractions.{asked, share, mean};

use answers::Refusal;

// The most answers that a tally holds.
const MOST: u64 = 1_000_000;

// How many answers were added, how many of them accepted, and the sum of their links.
#[derive(Clone, Copy)]
pub struct Tally {
    pub answers: u64,
    pub accepted: u64,
    pub links: u64,
}

// A line's answer: accepted with its links, or refused.
#[derive(Clone, Copy)]
pub enum LineResult {
    Accepted { links: u64 },
    Refused,
}

#[derive(Clone, Copy)]
pub struct Fraction {
    pub numerator: u64,
    pub denominator: u64,
}

// Nothing added yet.
pub fn empty() -> Tally
    ensures { result ≡ empty }
{
    Tally {
        answers: 0,
        accepted: 0,
        links: 0,
    }
}

// Whether some sequence of answers gives this tally.
pub fn given(tally: Tally) -> bool
    ensures { result ≡ given tally }
{
    if tally.answers < tally.accepted {
        return false;
    }
    if MOST < tally.answers {
        return false;
    }
    if 0 < tally.accepted {
        return true;
    }
    tally.links == 0
}

// The links that an answer comes in with.
fn links_in(line: LineResult) -> u64
    ensures { result ≡ links_in line }
{
    match line {
        LineResult::Accepted { links } => links,
        LineResult::Refused => 0,
    }
}

// 1 for an accepted answer, 0 for a refused one.
fn accepted_in(line: LineResult) -> u64
    ensures { result ≡ accepted_in line }
{
    match line {
        LineResult::Accepted { .. } => 1,
        LineResult::Refused => 0,
    }
}

// Whether the tally takes one more answer with so many links.
#[tactic(auto, unfolding(answers::specs::Checks::first))]
fn check_add(tally: Tally, links: u64) -> Result<(), Refusal>
    ensures { result ≡ first (add_checks tally links) }
{
    let room = u64::MAX - tally.links;
    if !given(tally) {
        return Err(Refusal::NoSuchTally);
    }
    if MOST <= tally.answers {
        return Err(Refusal::TallyFull);
    }
    if room < links {
        return Err(Refusal::LinkSumTooLarge);
    }
    Ok(())
}

// Adds one answer, or leaves the tally as it was with the refusal.
#[tactic(auto, using(crate::proofs::TallyLaws::add_laws))]
pub fn add(tally: &mut Tally, line: LineResult) -> Result<(), Refusal>
    ensures answer { result ≡ add_answer tally.old line }
    ensures tally { tally.new ≡ added tally.old line }
{
    let links = links_in(line);
    check_add(*tally, links)?;
    *tally = Tally {
        answers: tally.answers + 1,
        accepted: tally.accepted + accepted_in(line),
        links: tally.links + links,
    };
    Ok(())
}

// The greatest common divisor, by Euclid's remainders.
fn gcd(a: u64, b: u64) -> u64
    ensures { result ≡ gcd a b }
{
    let mut x = a;
    let mut y = b;
    while y != 0 {
        let rest = x % y;
        x = y;
        y = rest;
    }
    x
}

// One number of a tally over another, in lowest terms.
#[tactic(auto, using(crate::proofs::FractionLaws::ask_laws))]
fn asked(tally: Tally, above: u64, below: u64) -> Result<Fraction, Refusal>
    ensures { result ≡ asked tally above below }
{
    if !given(tally) {
        return Err(Refusal::NoSuchTally);
    }
    if below == 0 {
        return Err(Refusal::NothingToDivide);
    }
    let divisor = gcd(above, below);
    Ok(Fraction {
        numerator: above / divisor,
        denominator: below / divisor,
    })
}

// The share of answers that were accepted.
pub fn share(tally: Tally) -> Result<Fraction, Refusal>
    ensures { result ≡ share tally }
{
    asked(tally, tally.accepted, tally.answers)
}

// The mean links of an accepted line.
pub fn mean(tally: Tally) -> Result<Fraction, Refusal>
    ensures { result ≡ mean tally }
{
    asked(tally, tally.links, tally.accepted)
}
