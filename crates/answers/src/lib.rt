// What a check answers where it does not pass: a refusal, with the numbers that it carries.
#![tactic(auto, unfolding(crate::specs::Numbers::numbers))]

ghost use Rattle.std.specs.Prelude.{◌≡◌, ◌≤◌, [], ◌∷◌, length};
ghost use Rattle.answers.specs.Numbers.{placed, located, identified, numbers};
ghost use Rattle.answers.specs.Listed.{listed};

pub mod field;
pub mod id;

use arrayvec::ArrayVec;
pub use field::{Field, RowField};
use id::place_numbers;
pub use id::{IdKind, StableId};
use identity::IdentityPlace;
use schema::index::RouteDirection;
use std::error::Error;
use std::fmt;

// One variant for each refusal of document 01 that a pack can have (all but 11), named as the Rust names it, with its values one by one as the Rust has
// them, and then those of document 02, in their order; 1 to 6 are the packing rules', 26 and
// 29 to 31 the night's, 32 and 33 those of rising levels, 34 the converter's, 35 to 37 a change's, 38 and 41 to 43 those of small scope trees, 40 and 44 to 46 a tally's.
// Which text is too long is shown by the bit that tells an identity's text, 0 for the batch and 1 for the house.
#[derive(Clone, Copy, Debug)]
pub enum Refusal {
    Length,
    TextTooLong {
        house: bool,
    },
    TableOutOfPlace {
        record: u32,
    },
    StrayByte {
        record: u32,
    },
    IdentityOutside {
        record: u32,
    },
    NotUtf8 {
        record: u32,
    },
    ReferenceOutOfBounds {
        at: RowField,
        target: u8,
        referenced: u32,
        rows: u32,
    },
    RangeOutOfBounds {
        at: RowField,
        target: u8,
        start: u64,
        len: u64,
    },
    RangesNotMonotonic {
        at: RowField,
        start: u64,
        previous_end: u64,
    },
    EntriesNotSorted {
        table: u8,
        index: u32,
    },
    DuplicateEntry {
        table: u8,
        index: u32,
    },
    OwnershipMismatch {
        at: RowField,
    },
    ScopeParentCycle {
        scope: u32,
    },
    InvalidStableId {
        id: StableId,
    },
    StableIdsNotSorted {
        id: StableId,
    },
    DuplicateStableId {
        id: StableId,
    },
    InvalidBankInfo {
        reactor: u32,
        index: u32,
        total: u32,
    },
    StorageBoundExceeded {
        table: u8,
        index: u32,
        slot: u32,
        bound: u32,
    },
    BindingKindMismatch {
        at: RowField,
    },
    BindingPresenceMismatch {
        at: RowField,
    },
    DuplicateRouteHalf {
        boundary: IdentityPlace,
        direction: RouteDirection,
    },
    RoutePairMismatch {
        boundary: IdentityPlace,
        field: Field,
    },
    UnpairedRoute {
        boundary: IdentityPlace,
        direction: RouteDirection,
    },
    PhysicalRoute {
        enclave: u32,
        route: u32,
    },
    ScopeTooDeep {
        enclave: u32,
        scope: u32,
    },
    TooManyReactors {
        enclave: u32,
        reactors: u32,
    },
    LevelNotRising {
        reaction: u32,
        target: u32,
    },
    ScratchTooShort,
    OutputTooShort,
    NoSuchRecord,
    RecordLength,
    TableChanges,
    ScopeCount,
    ZeroDeadline {
        index: u32,
    },
    TallyFull,
    ParentsLength,
    ParentOutside,
    NotATree,
    LinkSumTooLarge,
    NothingToDivide,
    NoSuchTally,
}

// A refusal's number and the values after it.
pub type Numbers = ArrayVec<u64, 8>;

// These numbers, eight at most.
pub fn listed(numbers: &[u64]) -> Numbers
    requires { length numbers.now ≤ 8 }
    ensures { result.items ≡ numbers.now }
{
    let mut list = Numbers::new();
    list.try_extend_from_slice(numbers).unwrap();
    list
}

// A list of numbers: the first `len` of `values`.
#[derive(Clone, Copy, Debug)]
pub struct NumberList {
    pub len: usize,
    pub values: [u64; 8],
}

// A list of up to seven numbers, zeros after it.
fn list_of(len: usize, a: u64, b: u64, c: u64, d: u64, e: u64, f: u64, g: u64) -> NumberList
    ensures { result ≡ listed len (a ∷ b ∷ c ∷ d ∷ e ∷ f ∷ g ∷ []) }
{
    NumberList {
        len,
        values: [a, b, c, d, e, f, g, 0],
    }
}

// A number alone, with one value and with two.
fn bare(number: u64) -> NumberList
    ensures { result ≡ listed 1 (number ∷ []) }
{
    list_of(1, number, 0, 0, 0, 0, 0, 0)
}

fn one(number: u64, value: u32) -> NumberList
    ensures { result ≡ listed 2 (number ∷ value ∷ []) }
{
    list_of(2, number, u64::from(value), 0, 0, 0, 0, 0)
}

fn two(number: u64, value: u32, next: u32) -> NumberList
    ensures { result ≡ listed 3 (number ∷ value ∷ next ∷ []) }
{
    list_of(3, number, u64::from(value), u64::from(next), 0, 0, 0, 0)
}

// A number with what stands at a field of a row.
fn at_field(number: u64, at: RowField) -> NumberList
    ensures { result ≡ listed 4 (number ∷ located at []) }
{
    let [table, index, field] = at.numbers();
    list_of(4, number, table, index, field, 0, 0, 0)
}

// A number with an identity of a row.
fn with_id(number: u64, id: StableId) -> NumberList
    ensures { result ≡ listed 6 (number ∷ identified id []) }
{
    let [kind, index, house, start, len] = id.numbers();
    list_of(6, number, kind, index, house, start, len, 0)
}

// A number with a boundary and one value.
fn with_boundary(number: u64, boundary: IdentityPlace, value: u8) -> NumberList
    ensures { result ≡ listed 5 (number ∷ placed boundary (value ∷ [])) }
{
    let [house, start, len] = place_numbers(boundary);
    list_of(5, number, house, start, len, u64::from(value), 0, 0)
}

// The number of a refusal in the documents and the values after it; zeros after those.
pub fn numbers(refusal: Refusal) -> NumberList
    ensures { result ≡ listed (length (numbers refusal)) (numbers refusal) }
{
    match refusal {
        Refusal::Length => bare(1),
        Refusal::TextTooLong { house } => one(2, u32::from(house)),
        Refusal::TableOutOfPlace { record } => one(3, record),
        Refusal::StrayByte { record } => one(4, record),
        Refusal::IdentityOutside { record } => one(5, record),
        Refusal::NotUtf8 { record } => one(6, record),
        Refusal::ReferenceOutOfBounds {
            at,
            target,
            referenced,
            rows,
        } => {
            let [t, i, f] = at.numbers();
            let (target, referenced) = (u64::from(target), u64::from(referenced));
            list_of(7, 12, t, i, f, target, referenced, u64::from(rows))
        }
        Refusal::RangeOutOfBounds {
            at,
            target,
            start,
            len,
        } => {
            let [t, i, f] = at.numbers();
            list_of(7, 13, t, i, f, u64::from(target), start, len)
        }
        Refusal::RangesNotMonotonic {
            at,
            start,
            previous_end,
        } => {
            let [t, i, f] = at.numbers();
            list_of(6, 14, t, i, f, start, previous_end, 0)
        }
        Refusal::EntriesNotSorted { table, index } => two(15, u32::from(table), index),
        Refusal::DuplicateEntry { table, index } => two(16, u32::from(table), index),
        Refusal::OwnershipMismatch { at } => at_field(17, at),
        Refusal::ScopeParentCycle { scope } => one(18, scope),
        Refusal::InvalidStableId { id } => with_id(19, id),
        Refusal::StableIdsNotSorted { id } => with_id(20, id),
        Refusal::DuplicateStableId { id } => with_id(21, id),
        Refusal::InvalidBankInfo {
            reactor,
            index,
            total,
        } => {
            let (reactor, index) = (u64::from(reactor), u64::from(index));
            list_of(4, 22, reactor, index, u64::from(total), 0, 0, 0)
        }
        Refusal::StorageBoundExceeded {
            table,
            index,
            slot,
            bound,
        } => {
            let (table, index) = (u64::from(table), u64::from(index));
            list_of(5, 23, table, index, u64::from(slot), u64::from(bound), 0, 0)
        }
        Refusal::BindingKindMismatch { at } => at_field(24, at),
        Refusal::BindingPresenceMismatch { at } => at_field(25, at),
        Refusal::DuplicateRouteHalf {
            boundary,
            direction,
        } => with_boundary(27, boundary, u8::from(direction)),
        Refusal::RoutePairMismatch { boundary, field } => {
            with_boundary(28, boundary, u8::from(field))
        }
        Refusal::UnpairedRoute {
            boundary,
            direction,
        } => with_boundary(26, boundary, u8::from(direction)),
        Refusal::PhysicalRoute { enclave, route } => two(29, enclave, route),
        Refusal::ScopeTooDeep { enclave, scope } => two(30, enclave, scope),
        Refusal::TooManyReactors { enclave, reactors } => two(31, enclave, reactors),
        Refusal::LevelNotRising { reaction, target } => two(32, reaction, target),
        Refusal::ScratchTooShort => bare(33),
        Refusal::OutputTooShort => bare(34),
        Refusal::NoSuchRecord => bare(35),
        Refusal::RecordLength => bare(36),
        Refusal::TableChanges => bare(37),
        Refusal::ScopeCount => bare(38),
        Refusal::ZeroDeadline { index } => one(39, index),
        Refusal::TallyFull => bare(40),
        Refusal::ParentsLength => bare(41),
        Refusal::ParentOutside => bare(42),
        Refusal::NotATree => bare(43),
        Refusal::LinkSumTooLarge => bare(44),
        Refusal::NothingToDivide => bare(45),
        Refusal::NoSuchTally => bare(46),
    }
}

impl Refusal {
    // The numbers alone, without the zeros: a list, and no conversion to one value.
    #[tactic(auto, using(crate::proofs::RefusalNumbers::number_laws))]
    pub fn numbers(self) -> Numbers
        ensures { result.items ≡ numbers self }
    {
        let list = numbers(self);
        listed(&list.values[..list.len])
    }
}

// The numbers, with blanks between.
impl fmt::Display for Refusal {
    fn fmt<W: fmt::Write>(&self, f: &mut fmt::Formatter<W>) -> fmt::Result {
        let numbers = self.numbers();
        let mut before = "";
        for n in numbers.as_slice() {
            write!(f, "{before}{n}")?;
            before = " ";
        }
        Ok(())
    }
}

impl Error for Refusal {}
