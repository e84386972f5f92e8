// How many other reactions one reaction of an enclave whose levels rise reaches: marks are cleared, the walk makes them, and they are counted.
ghost use Rattle.std.specs.Prelude.{◌≡◌, ◌≤◌, ◌<◌, length, IsOk};
ghost use Rattle.checks.specs.Image.{image_of};
ghost use Rattle.rising.specs.Rising.{LevelsRise};
ghost use Rattle.rising.specs.Marks.{room};
ghost use Rattle.rising.specs.Walk.{Counted};

use crate::marks::{Marks, clear};
use crate::walk::by_reaction;
use schema::index::ReactionIndex;
use schema::lent::Enclave;
use schema::row::Row;
use schema::rows::ReactionImage;

// A bit for each port that a pack can have: 8 KiB.
const PORT_BYTES: usize = 8192;

// The count, with the marks of what is reached left in the first of the lent bytes.
#[inline(never)]
pub fn count_from(e: &Enclave, kind: Marks, scratch: &mut [u8], reaction: ReactionIndex) -> u32
    requires rises { LevelsRise (image_of e.now) }
    requires there { reaction.0 < (image_of e.now).rows 5 }
    requires fits { room kind ((image_of e.now).rows 5) ≤ length scratch.old }
    requires few { (image_of e.now).rows 4 ≤ 65536 }
    ensures { Counted (image_of e.now) kind reaction.0 result scratch.old scratch.new }
{
    let reactions = e.rows(ReactionImage::TABLE);
    clear(scratch, kind.room(reactions));
    by_reaction(e, kind, scratch, &mut [0; PORT_BYTES], reaction);
    kind.count(scratch, reactions)
}
