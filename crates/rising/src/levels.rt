// The levels of an accepted enclave: each reaction stands below every reaction that its ports trigger.
ghost use Rattle.std.specs.Prelude.{◌≡◌, ◌<◌};
ghost use Rattle.answers.specs.Checks.{first, passed};
ghost use Rattle.checks.specs.Image.{image_of};
ghost use Rattle.enclave.specs.Passes.{enclave_checks};
ghost use Rattle.rising.specs.Rising.{stands_on, port_rising, reaction_rising, rising_checks};

use answers::Refusal;
use range::SliceRange;
use schema::entries::{ReactionEffectPort, ReactionTrigger};
use schema::index::{PortIndex, ReactionIndex};
use schema::lent::Enclave;
use schema::row::Row;
use schema::rows::ReactionImage;

// The reactions of a port, of which the one that has an effect on it stands on `level`. An accepted port's triggers rise by level, so that the first
// of them decides: ports that many reactions share are not gone through for each.
fn check_port(
    e: &Enclave,
    reaction: ReactionIndex,
    level: u32,
    port: PortIndex,
) -> Result<(), Refusal>
    requires accepted { first (enclave_checks (image_of e.now)) ≡ passed }
    requires there { port.0 < (image_of e.now).rows 4 }
    requires level { level ≡ stands_on (image_of e.now) reaction.0 }
    ensures { result ≡ first (port_rising (image_of e.now) reaction.0 port.0) }
{
    let SliceRange { start, len } = e.row(port).triggers;
    if len == 0 {
        return Ok(());
    }
    let lowest = e.row_at::<ReactionTrigger>(start as usize).holds;
    if level < lowest.level {
        return Ok(());
    }
    Err(Refusal::LevelNotRising {
        reaction: reaction.0,
        target: lowest.reaction.0,
    })
}

// The ports that a reaction has effects on.
#[tactic(auto, using(answers::proofs::Loops::run_laws), unfolding(crate::specs::Rising::reaction_rising))]
fn check_effects(e: &Enclave, reaction: ReactionIndex) -> Result<(), Refusal>
    requires accepted { first (enclave_checks (image_of e.now)) ≡ passed }
    requires there { reaction.0 < (image_of e.now).rows 5 }
    ensures { result ≡ first (reaction_rising (image_of e.now) reaction.0) }
{
    let row = e.row(reaction);
    let SliceRange { start, len } = row.effect_ports;
    for k in 0..len {
        let port = e
            .row_at::<ReactionEffectPort>(start as usize + k as usize)
            .holds;
        check_port(e, reaction, row.dependency_level, port)?;
    }
    Ok(())
}

// Every reaction of an accepted enclave.
#[tactic(auto, using(answers::proofs::Loops::run_laws), unfolding(crate::specs::Rising::rising_checks))]
pub fn check_levels(e: &Enclave) -> Result<(), Refusal>
    requires accepted { first (enclave_checks (image_of e.now)) ≡ passed }
    ensures { result ≡ first (rising_checks (image_of e.now)) }
{
    for i in 0..e.rows(ReactionImage::TABLE) {
        check_effects(e, ReactionIndex::new(i))?;
    }
    Ok(())
}
