// The first route at fault: rows sorted by their boundaries, and one pass over neighbours. A map from boundaries to routes would ask for memory.
ghost use Rattle.std.specs.Prelude.{◌≡◌, ◌<◌, ◌≤◌, [], length, IsPermutation, IsSorted};
ghost use Rattle.std.specs.List.{All};
ghost use Rattle.identity.specs.Order.{compared};
ghost use Rattle.schema.specs.Records.{records_of};
ghost use Rattle.route_pairs.specs.RouteOrder.{text_of, boundary_at, routes_of, row_order, InOrder, are_halves, parted, fits, FoundBelow, Scanned, FirstRouteFault};

use crate::Federate;
use arrayvec::ArrayVec;
use schema::lent::{PACK_LIMIT, records_of};
use schema::row::{Row, Stored};
use schema::rows::RouteImage;
use std::cmp::Ordering;

// Up to so many routes are sorted in an array of this size, and more in one for as many records as a pack has.
pub const SOME_ROUTES: usize = 1024;

pub const MAX_ROUTES: usize = PACK_LIMIT / 64;

// Whether two routes of one boundary are its two halves: no equality, since they differ in their direction, and their ports are free.
fn are_halves(a: RouteImage, b: RouteImage) -> bool
    ensures { result ≡ are_halves a b }
{
    a.direction != b.direction
        && a.timing_domain == b.timing_domain
        && a.delay_nanos == b.delay_nanos
}

impl<'a> Federate<'a> {
    // How many routes the pack has.
    #[tactic(auto, using(crate::proofs::Rows::routes_counted))]
    pub fn count(self) -> usize
        ensures { result ≡ length (routes_of self.entry.pack.bytes.now) }
    {
        self.pack.count_of(RouteImage::TABLE) as usize
    }

    // The routes, in the order of the records. By a loop: `extend` answers an error of memory, which there is none of.
    #[tactic(auto, using(crate::proofs::Rows::rows_laws))]
    pub fn list<const ROOM: usize>(self, rows: &mut ArrayVec<u32, ROOM>)
        requires none { rows.old.items ≡ [] }
        requires room { length (routes_of self.pack.bytes.now) ≤ ROOM }
        ensures { rows.new.items ≡ routes_of self.entry.pack.bytes.now }
    {
        for n in 0..records_of(self.pack.bytes) {
            if self.pack.is_of(RouteImage::TABLE, n as usize) {
                rows.push(n);
            }
        }
    }

    // The order of the boundaries of records a and b: of what the records name in the texts, so that it is no `Ord` of the routes themselves.
    pub fn order_of(self, a: u32, b: u32) -> Ordering
        ensures { let key = boundary_at (text_of self.entry) self.entry.pack.bytes.now in result ≡ compared (key a) (key b) }
    {
        let left = RouteImage::at(self.pack, a as usize).boundary;
        let right = RouteImage::at(self.pack, b as usize).boundary;
        self.texts.compare(left, right)
    }

    // The order of records a and b: by their boundaries, then by their numbers.
    #[tactic(auto, unfolding(crate::specs::RouteOrder::row_order))]
    pub fn order(self, a: u32, b: u32) -> Ordering
        ensures { result ≡ row_order (boundary_at (text_of self.entry) self.entry.pack.bytes.now) a b }
    {
        self.order_of(a, b).then_with(|| a.cmp(&b))
    }

    pub fn sort(self, rows: &mut [u32])
        ensures permutation { IsPermutation rows.old rows.new }
        ensures sorted { IsSorted (row_order (boundary_at (text_of self.entry) self.entry.pack.bytes.now)) rows.new }
        ensures ordered { InOrder (row_order (boundary_at (text_of self.entry) self.entry.pack.bytes.now)) rows.new }
    {
        rows.sort_unstable_by(|a, b| self.order(*a, *b));
    }

    // Whether the row at place j, if there is one, is of another boundary than the one at place k. By places, as the definition has them.
    pub fn parted(self, rows: &[u32], k: usize, j: usize) -> bool
        requires { k < length rows.now }
        ensures { result ≡ parted (text_of self.entry) self.entry.pack.bytes.now rows.now k j }
    {
        if rows.len() <= j {
            return true;
        }
        let left = RouteImage::at(self.pack, rows[k] as usize);
        let right = RouteImage::at(self.pack, rows[j] as usize);
        !self.same_boundary(left, right)
    }

    // Whether the row at place k is the last of its boundary, or its other half follows and no third.
    #[tactic(auto, unfolding(crate::specs::RouteOrder::fits))]
    fn fits(self, rows: &[u32], k: usize) -> bool
        requires { k < length rows.now }
        ensures { result ≡ fits (text_of self.entry) self.entry.pack.bytes.now rows.now k }
    {
        if self.parted(rows, k, k + 1) {
            return true;
        }
        let own = RouteImage::at(self.pack, rows[k] as usize);
        let next = RouteImage::at(self.pack, rows[k + 1] as usize);
        are_halves(own, next) && self.parted(rows, k, k + 2)
    }

    // The smallest row that does not fit where it stands: a row that is not below the least so far is passed over, whether it fits or not.
    fn least_misfit(self, rows: &[u32]) -> Option<u32>
        requires { All (λ row. row < records_of self.pack.bytes.now) rows.now }
        ensures { let p = self.entry.pack.bytes.now in FoundBelow (records_of p) (Scanned (text_of self.entry) p rows.now (length rows.now)) result }
    {
        (0..rows.len()).fold(None, |least: Option<u32>, k| match least {
            Some(found) if found <= rows[k] => least,
            _ if self.fits(rows, k) => least,
            _ => Some(rows[k]),
        })
    }

    // The first record at fault, with room for ROOM routes, in a frame of its own: packs with fewer do not pay for it.
    #[inline(never)]
    fn first_fault_within<const ROOM: usize>(self) -> Option<u32>
        requires room { length (routes_of self.pack.bytes.now) ≤ ROOM }
        requires few { ROOM ≤ 65536 }
        ensures { FoundBelow (records_of self.entry.pack.bytes.now) (FirstRouteFault self.entry) result }
    {
        let mut rows = ArrayVec::<u32, ROOM>::new();
        self.list(&mut rows);
        self.sort(&mut rows);
        self.least_misfit(&rows)
    }

    // The first record at fault.
    #[tactic(auto, using(crate::proofs::Rows::routes_few))]
    pub fn first_fault(self) -> Option<u32>
        ensures { FoundBelow (records_of self.entry.pack.bytes.now) (FirstRouteFault self.entry) result }
    {
        match self.count() {
            0 => None,
            1..=SOME_ROUTES => self.first_fault_within::<SOME_ROUTES>(),
            _ => self.first_fault_within::<MAX_ROUTES>(),
        }
    }
}
