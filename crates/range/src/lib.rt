// Slice ranges and index spans: where each ends, and whether a span holds a key.
#![tactic(auto, unfolding(crate::specs::Range::checked_end, crate::specs::Range::saturating_end, crate::specs::Range::contains))]

ghost use Rattle.std.specs.Prelude.{◌≡◌};
ghost use Rattle.range.specs.Range.{checked_end, saturating_end, contains};

// Consecutive entries of a list table.
#[derive(Clone, Copy, Debug, Default, PartialEq, Eq)]
pub struct SliceRange {
    pub start: u32,
    pub len: u32,
}

// Consecutive keys of a dense table.
#[derive(Clone, Copy, Debug, Default, PartialEq, Eq)]
pub struct IndexSpan {
    pub start: u64,
    pub len: u64,
}

// A span of modes, and one of enclaves: neither stands where the other belongs.
// A type parameter that names the kind of key would have two names for two types: enclaves are no table, so that no table's number tells them apart.
#[derive(Clone, Copy, Debug, Default, PartialEq, Eq)]
pub struct ModeSpan(pub IndexSpan);

#[derive(Clone, Copy, Debug, Default, PartialEq, Eq)]
pub struct EnclaveSpan(pub IndexSpan);

// A range as a span: its start and its length, in 64 bits.
impl From<SliceRange> for IndexSpan {
    ghost from_gives = { λ range span. (span.start ≡ range.start) × (span.len ≡ range.len) };

    fn from(range: SliceRange) -> IndexSpan {
        IndexSpan {
            start: u64::from(range.start),
            len: u64::from(range.len),
        }
    }
}

// The ends of a range and of a span have the Rust's names, each its own type's: a range's never overflows, and is walked without the test.
impl SliceRange {
    // The exclusive end.
    pub fn checked_end(self) -> Option<u64>
        ensures { result ≡ checked_end self.start self.len }
    {
        IndexSpan::from(self).checked_end()
    }

    // Two 32-bit numbers always have an end: it is their sum.
    pub fn saturating_end(self) -> u64
        ensures { result ≡ saturating_end self.start self.len }
    {
        u64::from(self.start) + u64::from(self.len)
    }
}

impl IndexSpan {
    // The exclusive end; none past 64 bits.
    pub fn checked_end(self) -> Option<u64>
        ensures { result ≡ checked_end self.start self.len }
    {
        self.start.checked_add(self.len)
    }

    // The end, or the largest 64-bit number where there is none.
    pub fn saturating_end(self) -> u64
        ensures { result ≡ saturating_end self.start self.len }
    {
        self.start.saturating_add(self.len)
    }

    // Whether a key lies in the span, by its saturating end.
    pub fn contains(self, key: u32) -> bool
        ensures { result ≡ contains self.start self.len key }
    {
        let index = u64::from(key);
        self.start <= index && index < self.saturating_end()
    }
}
