// The checks of deadlines: each for a reaction that is there, in order, and not zero.
ghost use Rattle.std.specs.Prelude.{◌≡◌, ◌-◌, ◌<◌};
ghost use Rattle.answers.specs.Checks.{first, run};
ghost use Rattle.checks.specs.Image.{image_of};
ghost use Rattle.checks.specs.Lists.{after_first};
ghost use Rattle.list_checks.specs.ListTables.{index_order_checks};
ghost use Rattle.list_checks.specs.Deadlines.{deadline_checks};

use answers::{Field, Refusal, RowField};
use checks::lists::check_order;
use checks::refs::check_exists;
use schema::index::ReactionIndex;
use schema::lent::Enclave;
use schema::row::Row;
use schema::rows::DeadlineImage;

// The reaction of row i is above the one of the row before, if there is one.
#[tactic(auto, unfolding(answers::specs::Checks::first, crate::specs::ListTables::index_order_checks))]
fn check_reaction_order(e: &Enclave, i: u32, reaction: ReactionIndex) -> Result<(), Refusal>
    requires { let m = image_of e.now in i < m.rows 25 }
    ensures { let m = image_of e.now in result ≡ first (after_first i (index_order_checks 25 i reaction.0 (m.deadlines (i - 1)).reaction)) }
{
    if i == 0 {
        return Ok(());
    }
    let before = e.row_within::<DeadlineImage>(i - 1);
    check_order(DeadlineImage::TABLE, i, reaction, before.reaction)
}

// Row i of the deadlines.
#[tactic(auto, using(answers::proofs::Laws::list_laws), unfolding(answers::specs::Checks::first, crate::specs::Deadlines::deadline_checks))]
fn check_deadline(e: &Enclave, i: u32) -> Result<(), Refusal>
    requires { let m = image_of e.now in i < m.rows 25 }
    ensures { result ≡ first (deadline_checks (image_of e.now) i) }
{
    let deadline = e.row_within::<DeadlineImage>(i);
    let at = RowField {
        table: DeadlineImage::TABLE,
        index: i,
        field: Field::Reaction,
    };
    check_exists(e.starts, at, deadline.reaction)?;
    check_reaction_order(e, i, deadline.reaction)?;
    if deadline.nanos == 0 {
        return Err(Refusal::ZeroDeadline { index: i });
    }
    Ok(())
}

// Every deadline.
#[tactic(auto, using(answers::proofs::Loops::run_laws))]
#[inline(always)]
pub fn check_deadlines(e: &Enclave) -> Result<(), Refusal>
    ensures { let m = image_of e.now in result ≡ first (run (deadline_checks m) 0 (m.rows 25)) }
{
    for i in 0..e.rows(DeadlineImage::TABLE) {
        check_deadline(e, i)?;
    }
    Ok(())
}
