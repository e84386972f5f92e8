// The enclaves of a federate pack: how many there are, each of them, and where a walk over them stands.
ghost use Rattle.std.specs.Prelude.{◌≡◌, ◌-◌, ◌<◌, ◌≤◌, true};
ghost use Rattle.schema.specs.Records.{records_of, is_of};
ghost use Rattle.federate.specs.Records.{enclaves_of, enclaves_before, last_before, enclave_from, enclave_end, enclave_pack};

use schema::lent::{Pack, records_of};
use schema::row::Row;
use schema::rows::EnclaveImage;

// By a name of its own: what a refusal and the answer show as the enclaves.
pub fn count_enclaves(pack: Pack) -> u32
    ensures { result ≡ enclaves_of pack.entry.bytes.now }
{
    pack.count_of(EnclaveImage::TABLE)
}

// The first enclave's record from n on; where there is none, the number of records, or n past it: there the enclave before ends.
#[tactic(auto, using(crate::proofs::Ends::searched))]
pub fn next_enclave(pack: Pack, n: usize) -> usize
    ensures { let p = pack.entry.bytes.now in result ≡ enclave_from p n (records_of p - n) }
{
    let records = records_of(pack.bytes) as usize;
    (n..records)
        .find(|k| pack.is_of(EnclaveImage::TABLE, *k))
        .unwrap_or(records.max(n))
}

// The pack of the enclave of record n, which ends at record `end`: its records up to there. Here and above a record's number is where a part or a search
// begins, so that a `Record` would be made only to be asked for it.
#[tactic(auto, using(crate::proofs::Ends::part_laws))]
pub fn enclave_pack_to<'a>(pack: Pack<'a>, n: usize, end: usize) -> Pack<'a>
    requires inside { n < records_of pack.bytes.now }
    requires own { end ≡ enclave_end pack.bytes.now n }
    ensures { result.bytes.now ≡ enclave_pack pack.entry.bytes.now n }
{
    Pack {
        bytes: &pack.bytes[n * 64..end * 64],
    }
}

// An enclave of a federate pack: its record and the one where it ends, its place among the enclaves, and the record of the enclave before it.
#[derive(Clone, Copy)]
pub struct FederateEnclave<'a> {
    pub pack: Pack<'a>,
    pub number: usize,
    pub end: usize,
    pub place: u32,
    pub before: Option<usize>,
    ghost inside: { number < records_of pack.bytes.now },
    ghost enclave: { is_of pack.bytes.now 1 number ≡ true },
    ghost own: { end ≡ enclave_end pack.bytes.now number },
    ghost counted: { place ≡ enclaves_before pack.bytes.now number },
    ghost last: { before ≡ last_before pack.bytes.now number },
}

// The enclaves of a pack from one record on, with how many there are before it, and the last of these.
#[derive(Clone, Copy)]
pub struct Enclaves<'a> {
    pub pack: Pack<'a>,
    pub next: usize,
    pub place: u32,
    pub before: Option<usize>,
    ghost within: { next ≤ records_of pack.bytes.now },
    ghost enclave: { next < records_of pack.bytes.now → is_of pack.bytes.now 1 next ≡ true },
    ghost counted: { place ≡ enclaves_before pack.bytes.now next },
    ghost last: { before ≡ last_before pack.bytes.now next },
}

impl<'a> Enclaves<'a> {
    // All of them.
    #[tactic(auto, using(crate::proofs::Gaps::walk_laws))]
    pub fn of(pack: Pack<'a>) -> Enclaves<'a>
        ensures pack { result.pack ≡ pack.entry }
        ensures first { let p = pack.entry.bytes.now in result.next ≡ enclave_from p 0 (records_of p) }
    {
        Enclaves {
            pack,
            next: next_enclave(pack, 0),
            place: 0,
            before: None,
        }
    }
}
