// One record of lent bytes, and the numbers that stand in it, high byte first: W is 4 bytes, D is 8.
ghost use Rattle.std.specs.Prelude.{◌≡◌, ◌+◌, ◌*◌, ◌/◌, ◌<◌, ◌≤◌, length, MatchOption};
ghost use Rattle.schema.specs.Number.{number};
ghost use Rattle.schema.specs.Bytes.{IsRecord, byte_of, bit_of};

use identity::IdentityPlace;
use range::{IndexSpan, SliceRange};

// The 64 bytes from 64 times the record's number, which the bytes have.
#[derive(Clone, Copy)]
pub struct Record<'a> {
    pub bytes: &'a [u8],
    pub number: usize,
    ghost there: { IsRecord bytes.now number },
}

// Bit k of a byte, the lowest first: by its number, as document 01 counts presence bits; std has no test of a bit.
pub fn has_bit(b: u8, k: u32) -> bool
    requires { k < 8 }
    ensures { result ≡ bit_of b k }
{
    (b >> k) % 2 == 1
}

// The W and the D from any byte that has theirs inside, in a record or over its end.
#[tactic(auto, unfolding(crate::specs::Number::number))]
pub fn word_at(p: &[u8], at: usize) -> u32
    requires { at + 4 ≤ length p.now }
    ensures { result ≡ number 4 p.now at }
{
    u32::from_be_bytes([p[at], p[at + 1], p[at + 2], p[at + 3]])
}

#[tactic(auto, unfolding(crate::specs::Number::number))]
pub fn long_at(p: &[u8], at: usize) -> u64
    requires { at + 8 ≤ length p.now }
    ensures { result ≡ number 8 p.now at }
{
    u64::from_be_bytes([
        p[at],
        p[at + 1],
        p[at + 2],
        p[at + 3],
        p[at + 4],
        p[at + 5],
        p[at + 6],
        p[at + 7],
    ])
}

impl<'a> Record<'a> {
    // Record n of any bytes, where they have it.
    pub fn nth(bytes: &'a [u8], n: usize) -> Option<Record<'a>>
        ensures { MatchOption result (length bytes.entry.now / 64 ≤ n) (λ r. (r.bytes ≡ bytes.entry) × (r.number ≡ n)) }
    {
        if bytes.len() / 64 <= n {
            return None;
        }
        Some(Record { bytes, number: n })
    }

    // This and the numbers below each ask for room of their own width: a type of places would ask for the same when one is made.
    pub fn byte(self, j: usize) -> u8
        requires { j < 64 }
        ensures { result ≡ byte_of self.entry.bytes.now self.entry.number j }
    {
        self.bytes[self.number * 64 + j]
    }

    // Byte 0.
    pub fn table(self) -> u8
        ensures { result ≡ byte_of self.entry.bytes.now self.entry.number 0 }
    {
        self.byte(0)
    }

    // Bit k of byte 1: which optional fields are present, and which text an identity is in.
    pub fn has(self, k: u32) -> bool
        requires { k < 8 }
        ensures { result ≡ bit_of (byte_of self.entry.bytes.now self.entry.number 1) k }
    {
        has_bit(self.byte(1), k)
    }

    // The W from byte j.
    pub fn word(self, j: usize) -> u32
        requires { j ≤ 60 }
        ensures { result ≡ number 4 self.entry.bytes.now (self.entry.number * 64 + j) }
    {
        word_at(self.bytes, self.number * 64 + j)
    }

    // The D from byte j.
    pub fn long(self, j: usize) -> u64
        requires { j ≤ 56 }
        ensures { result ≡ number 8 self.entry.bytes.now (self.entry.number * 64 + j) }
    {
        long_at(self.bytes, self.number * 64 + j)
    }

    // A range of a list table: two Ws.
    pub fn range(self, j: usize) -> SliceRange
        requires { j ≤ 56 }
        ensures { let p = self.entry.bytes.now in let at = self.entry.number * 64
            in result ≡ record { start = number 4 p (at + j); len = number 4 p (at + (j + 4)) } }
    {
        SliceRange {
            start: self.word(j),
            len: self.word(j + 4),
        }
    }

    // A span of keys: two Ds.
    pub fn span(self, j: usize) -> IndexSpan
        requires { j ≤ 48 }
        ensures { let p = self.entry.bytes.now in let at = self.entry.number * 64
            in result ≡ record { start = number 8 p (at + j); len = number 8 p (at + (j + 8)) } }
    {
        IndexSpan {
            start: self.long(j),
            len: self.long(j + 8),
        }
    }

    // An identity's place: two Ws, in the house text or in the batch text.
    pub fn place(self, house: bool, j: usize) -> IdentityPlace
        requires { j ≤ 56 }
        ensures { let p = self.entry.bytes.now in let at = self.entry.number * 64
            in result ≡ record { house = house; start = number 4 p (at + j); len = number 4 p (at + (j + 4)) } }
    {
        IdentityPlace {
            house,
            start: self.word(j),
            len: self.word(j + 4),
        }
    }
}
