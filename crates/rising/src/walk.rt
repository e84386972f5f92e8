// The walk: from a reaction to its ports, and from each port to its reactions. A reaction is marked, and a port entered, once.
ghost use Rattle.std.specs.Prelude.{◌≡◌, ◌<◌};
ghost use Rattle.checks.specs.Image.{image_of};
ghost use Rattle.rising.specs.Rising.{effects_of};
ghost use Rattle.rising.specs.Walk.{Ready, FromReaction, Entered};

use crate::marks::Marks;
use range::SliceRange;
use schema::entries::{ReactionEffectPort, ReactionTrigger};
use schema::index::{PortIndex, ReactionIndex};
use schema::lent::Enclave;

// Enters each port that a reaction has effects on.
#[cycle(walk)]
pub fn by_reaction(
    e: &Enclave,
    kind: Marks,
    marks: &mut [u8],
    ports: &mut [u8],
    reaction: ReactionIndex,
)
    requires ready { Ready (image_of e.now) kind marks.old ports.old }
    requires there { reaction.0 < (image_of e.now).rows 5 }
    ensures { let m = image_of e.now in FromReaction m kind reaction.0 (effects_of m reaction.0) marks.old marks.new ports.old ports.new }
{
    let SliceRange { start, len } = e.row(reaction).effect_ports;
    for k in 0..len {
        let port = e
            .row_at::<ReactionEffectPort>(start as usize + k as usize)
            .holds;
        by_port(e, kind, marks, ports, port);
    }
}

// Marks each reaction that a port triggers, and goes on from those that were not marked; once for each port, since many reactions may share one.
#[cycle(walk)]
fn by_port(e: &Enclave, kind: Marks, marks: &mut [u8], ports: &mut [u8], port: PortIndex)
    requires ready { Ready (image_of e.now) kind marks.old ports.old }
    requires there { port.0 < (image_of e.now).rows 4 }
    ensures { Entered (image_of e.now) kind port.0 marks.old marks.new ports.old ports.new }
{
    if Marks::Bits.is_marked(ports, port.0) {
        return;
    }
    Marks::Bits.mark(ports, port.0);
    let SliceRange { start, len } = e.row(port).triggers;
    for j in 0..len {
        let target = e
            .row_at::<ReactionTrigger>(start as usize + j as usize)
            .holds
            .reaction;
        if kind.is_marked(marks, target.0) {
            continue;
        }
        kind.mark(marks, target.0);
        by_reaction(e, kind, marks, ports, target);
    }
}
