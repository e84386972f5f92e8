// Writing a record: the table number, the bits and the kind, then the fields one by one, and zeros after them.
ghost use Rattle.std.specs.Prelude.{◌≡◌, [], ◌∷◌, ◌+◌, ◌≤◌, ◌++◌};
ghost use Rattle.arrayvec.specs.ArrayVec.{array_vec_len};
ghost use Rattle.cases.specs.Packs.{W, D, padded};
ghost use Rattle.cases.specs.Records as fields;

use crate::records::RecordBytes;
use arrayvec::ArrayVec;
use identity::IdentityPlace;
use range::{IndexSpan, SliceRange};

// The bytes of a record that are written so far: room for one record, since nothing here asks for memory. Each number asks for room of its own width.
#[derive(Drop)]
pub struct RecordBuilder {
    pub bytes: ArrayVec<u8, 64>,
}

impl RecordBuilder {
    // A record without fields.
    pub fn new(table: u8, bits: u8, kind: u8) -> RecordBuilder
        ensures { result.bytes.items ≡ table ∷ bits ∷ kind ∷ 0 ∷ [] }
    {
        let mut bytes = ArrayVec::new();
        bytes
            .try_extend_from_slice(&[table, bits, kind, 0])
            .unwrap();
        RecordBuilder { bytes }
    }

    // Adds a W: 4 bytes, high byte first.
    #[tactic(auto, unfolding(crate::specs::Packs::bytes))]
    pub fn word(mut self, word: u32) -> RecordBuilder
        requires { array_vec_len self.bytes + 4 ≤ 64 }
        ensures bytes { result.bytes.items ≡ self.bytes.items ++ W word }
        ensures len { array_vec_len result.bytes ≡ array_vec_len self.bytes + 4 }
    {
        self.bytes
            .try_extend_from_slice(&word.to_be_bytes())
            .unwrap();
        self
    }

    // Adds a D: 8 bytes, high byte first.
    #[tactic(auto, unfolding(crate::specs::Packs::bytes))]
    pub fn long(mut self, long: u64) -> RecordBuilder
        requires { array_vec_len self.bytes + 8 ≤ 64 }
        ensures bytes { result.bytes.items ≡ self.bytes.items ++ D long }
        ensures len { array_vec_len result.bytes ≡ array_vec_len self.bytes + 8 }
    {
        self.bytes
            .try_extend_from_slice(&long.to_be_bytes())
            .unwrap();
        self
    }

    // Adds a range's start and length.
    pub fn range(self, range: SliceRange) -> RecordBuilder
        requires { array_vec_len self.bytes + 8 ≤ 64 }
        ensures bytes { result.bytes.items ≡ self.bytes.items ++ fields.range range }
        ensures len { array_vec_len result.bytes ≡ array_vec_len self.bytes + 8 }
    {
        self.word(range.start).word(range.len)
    }

    // Adds a span's start and length.
    pub fn span(self, span: IndexSpan) -> RecordBuilder
        requires { array_vec_len self.bytes + 16 ≤ 64 }
        ensures bytes { result.bytes.items ≡ self.bytes.items ++ fields.span span }
        ensures len { array_vec_len result.bytes ≡ array_vec_len self.bytes + 16 }
    {
        self.long(span.start).long(span.len)
    }

    // Adds the start and the length of an identity's place.
    pub fn place(self, place: IdentityPlace) -> RecordBuilder
        requires { array_vec_len self.bytes + 8 ≤ 64 }
        ensures bytes { result.bytes.items ≡ self.bytes.items ++ fields.place place }
        ensures len { array_vec_len result.bytes ≡ array_vec_len self.bytes + 8 }
    {
        self.word(place.start).word(place.len)
    }

    // The record: zeros stand after its fields.
    #[tactic(auto, using(crate::proofs::Padded::zeros_after))]
    pub fn build(self) -> RecordBytes
        requires { 4 ≤ array_vec_len self.bytes }
        ensures { result ≡ padded self.bytes.items }
    {
        let written = self.bytes.as_slice();
        let mut record = [0u8; 64];
        record[..written.len()].copy_from_slice(written);
        record
    }
}
