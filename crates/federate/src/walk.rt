// The walk over the enclaves of a federate pack.
ghost use Rattle.std.specs.Prelude.{◌-◌};
ghost use Rattle.std.specs.Iterator.{at_most};
ghost use Rattle.schema.specs.Records.{records_of};
ghost use Rattle.federate.specs.Walk.{Walks};

use crate::records::{Enclaves, FederateEnclave, next_enclave};
use schema::lent::records_of;

// From each enclave the next one is where it ends.
impl<'a> Iterator for Enclaves<'a> {
    type Item = FederateEnclave<'a>;

    ghost next_gives = { Walks };

    ghost remaining = { λ w. at_most (records_of w.pack.bytes.now - w.next) };

    #[tactic(auto, using(crate::proofs::Gaps::walk_laws))]
    fn next(&mut self) -> Option<FederateEnclave<'a>> {
        let number = self.next;
        if records_of(self.pack.bytes) as usize <= number {
            return None;
        }
        let enclave = FederateEnclave {
            pack: self.pack,
            number,
            end: next_enclave(self.pack, number + 1),
            place: self.place,
            before: self.before,
        };
        *self = Enclaves {
            pack: self.pack,
            next: enclave.end,
            place: self.place + 1,
            before: Some(number),
        };
        Some(enclave)
    }
}
