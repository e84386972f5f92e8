// Answers a corpus on standard input, one line per case on standard output.
#![tactic(auto)]

mod answer;
mod changes;
mod conversion;
mod corpus;
mod input;
mod reached;
mod scope_trees;
mod steps;

ghost use Rattle.std.specs.Prelude.{◌≤◌};

use input::Room;
use std::io;

// The most bytes that a case lends, a row or an output among them.
const LENT: usize = 65_536;

// With room for so many bytes of a pack and of each text.
fn answer_with<const PACK: usize, const TEXT: usize>(rt: &HostRuntime) -> io::Result<()>
    requires pack { PACK ≤ 8388608 }
    requires text { TEXT ≤ 8388608 }
{
    let mut room = Room {
        pack: &mut [0u8; PACK],
        batch: &mut [0u8; TEXT],
        house: &mut [0u8; TEXT],
        lent: &mut [0u8; LENT],
    };
    corpus::answer_all(&mut rt.reader(), &mut room, &mut io::writer(rt))
}

// A byte more than a pack or a text may have is kept: the answer does not depend on the rest.
fn main(rt: HostRuntime) -> io::Result<()> {
    answer_with::<4_194_305, 65_537>(&rt)
}
