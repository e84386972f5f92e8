// The enclaves of a federate in turn: each one's own checks, then its identity against that of the one before.
ghost use Rattle.std.specs.Prelude.{◌≡◌};
ghost use Rattle.answers.specs.Checks.{first};
ghost use Rattle.enclave.specs.Answer.{image_result};
ghost use Rattle.federate.specs.Enclaves.{index_from, image_at, order_checks, record_answer, enclaves_answer};

use crate::records::{Enclaves, FederateEnclave, enclave_pack_to};
use answers::{IdKind, Refusal, StableId};
use checks::identities::validate_id_order;
use enclave::check::check_image;
use identity::texts::Texts;
use packing::starts::{enclave, note_starts};
use route_pairs::Federate;
use schema::index::KEYS;
use schema::lent::TableStarts;
use schema::row::Stored;
use schema::rows::EnclaveImage;

// The index shown for an enclave: the Rust's `as u32`.
fn index_from(start: u64, place: u32) -> u32
    ensures { result ≡ index_from start place }
{
    ((start % KEYS) as u32).wrapping_add(place)
}

impl<'a> FederateEnclave<'a> {
    // The links of the enclave by its own pack, or the first fault.
    #[tactic(auto, using(crate::proofs::Ends::part_some))]
    fn check_own(self, texts: Texts) -> Result<u64, Refusal>
        ensures { let t = texts.entry in result ≡ image_result (image_at self.entry.pack.bytes.now t.batch.now t.house.now self.entry.number) }
    {
        let own = enclave_pack_to(self.pack, self.number, self.end);
        let mut starts = TableStarts::none();
        note_starts(own.bytes, 1, &mut starts);
        check_image(&enclave(own, &starts, texts))
    }

    // Its identity against that of the enclave before; nothing for the first.
    #[tactic(auto, unfolding(answers::specs::Checks::first))]
    fn check_order(self, texts: Texts, start: u64) -> Result<(), Refusal>
        ensures { let t = texts.entry in result ≡ first (order_checks self.entry.pack.bytes.now t.batch.now t.house.now start self.entry.number) }
    {
        let Some(before) = self.before else {
            return Ok(());
        };
        let other = EnclaveImage::at(self.pack, before).enclave_id;
        let id = StableId {
            kind: IdKind::Enclave,
            index: index_from(start, self.place),
            id: EnclaveImage::at(self.pack, self.number).enclave_id,
        };
        validate_id_order(texts, id, other)
    }

    // Its own checks, then its identity's.
    fn check(self, texts: Texts, start: u64) -> Result<u64, Refusal>
        ensures { let t = texts.entry in result ≡ record_answer self.entry.pack.bytes.now t.batch.now t.house.now start self.entry.number }
    {
        let links = self.check_own(texts)?;
        self.check_order(texts, start)?;
        Ok(links)
    }
}

// Every enclave, with the links of all. By `for`: that the sum stays within 64 bits is the loop's invariant, where `try_fold` would ask it of its closure.
#[tactic(auto, using(crate::proofs::EnclaveLaws::before_laws))]
pub fn validate_federate_enclaves(federate: Federate, start: u64) -> Result<u64, Refusal>
    ensures { let f = federate.entry in result ≡ enclaves_answer f.pack.bytes.now f.texts.batch.now f.texts.house.now start }
{
    let mut links = 0;
    for enclave in Enclaves::of(federate.pack) {
        links += enclave.check(federate.texts, start)?;
    }
    Ok(links)
}
