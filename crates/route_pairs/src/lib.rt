// The routes of a federate, each against all of its boundary.
#![tactic(auto, unfolding(answers::specs::Checks::first))]

ghost use Rattle.std.specs.Prelude.{◌≡◌, [], ◌∷◌, Bool};
ghost use Rattle.std.specs.Bool.{then_some};
ghost use Rattle.identity.specs.Order.{compared};
ghost use Rattle.answers.specs.Checks.{first, run};
ghost use Rattle.schema.specs.declared.rows.RouteImage.{RouteImage};
ghost use Rattle.schema.specs.Rows.{route_at};
ghost use Rattle.schema.specs.Records.{records_of, is_of};
ghost use Rattle.checks.specs.Identities.{is_equal};
ghost use Rattle.route_pairs.specs.RoutePairs.{halves, Answers, way_check, alike_check, pair_checks, route_record_checks};
ghost use Rattle.route_pairs.specs.RouteOrder.{text_of};

pub mod faults;

use answers::{Field, Refusal};
use identity::texts::Texts;
use schema::index::RouteDirection;
use schema::lent::{Pack, records_of};
use schema::row::{Row, Stored};
use schema::rows::RouteImage;

// A federate: its pack, and the two texts that its identities name parts of.
#[derive(Clone, Copy)]
pub struct Federate<'a> {
    pub pack: Pack<'a>,
    pub texts: Texts<'a>,
}

impl<'a> Federate<'a> {
    // Record k, where it is a route's.
    fn route(self, k: u32) -> Option<RouteImage>
        ensures { let p = self.entry.pack.bytes.now in result ≡ then_some (is_of p 23 k) (route_at p k) }
    {
        if !self.pack.is_of(RouteImage::TABLE, k as usize) {
            return None;
        }
        Some(RouteImage::at(self.pack, k as usize))
    }

    // Whether two routes are of one boundary: by the texts that they name, which two places may have in common.
    fn same_boundary(self, a: RouteImage, b: RouteImage) -> bool
        ensures { result ≡ is_equal (compared (text_of self.entry a.boundary) (text_of self.entry b.boundary)) }
    {
        self.texts.compare(a.boundary, b.boundary).is_eq()
    }

    // How many routes of a route's boundary are such.
    fn halves<F: Fn(RouteImage) -> bool>(self, route: RouteImage, counted: F) -> usize
        requires { F.IsAlwaysCallable counted }
        ensures { (test : RouteImage → Bool) → Answers (F.post counted) test → result ≡ halves (text_of self.entry) self.entry.pack.bytes.now route test }
    {
        (0..records_of(self.pack.bytes))
            .filter_map(|k| self.route(k))
            .filter(|c| self.same_boundary(*c, route) && counted(*c))
            .count()
    }

    // At most one half of the route's boundary goes that way.
    fn check_one_way(self, route: RouteImage, direction: RouteDirection) -> Result<(), Refusal>
        ensures { let text = text_of self.entry in let p = self.entry.pack.bytes.now in result ≡ first (way_check text p route direction ∷ []) }
    {
        if 1 < self.halves(route, |c| c.direction == direction) {
            return Err(Refusal::DuplicateRouteHalf {
                boundary: route.boundary,
                direction,
            });
        }
        Ok(())
    }

    // No route of the route's boundary differs from it in a field.
    fn check_alike<F: Fn(RouteImage) -> bool>(
        self,
        route: RouteImage,
        field: Field,
        differs: F,
    ) -> Result<(), Refusal>
        requires { F.IsAlwaysCallable differs }
        ensures { let text = text_of self.entry in let p = self.entry.pack.bytes.now
            in (test : RouteImage → Bool) → Answers (F.post differs) test → result ≡ first (alike_check text p route test field ∷ []) }
    {
        if self.halves(route, differs) != 0 {
            return Err(Refusal::RoutePairMismatch {
                boundary: route.boundary,
                field,
            });
        }
        Ok(())
    }

    // One half in, one half out, of one domain and one delay.
    fn check_pair(self, route: RouteImage) -> Result<(), Refusal>
        ensures { result ≡ first (pair_checks (text_of self.entry) self.entry.pack.bytes.now route) }
    {
        let other_domain = |c: RouteImage| c.timing_domain != route.timing_domain;
        let other_delay = |c: RouteImage| c.delay_nanos != route.delay_nanos;
        self.check_one_way(route, RouteDirection::Inbound)?;
        self.check_one_way(route, RouteDirection::Outbound)?;
        self.check_alike(route, Field::TimingDomain, other_domain)?;
        self.check_alike(route, Field::DelayNanos, other_delay)
    }

    // The checks of record n.
    #[tactic(auto, unfolding(answers::specs::Checks::first, crate::specs::RoutePairs::route_record_checks))]
    fn check_record(self, n: u32) -> Result<(), Refusal>
        ensures { result ≡ first (route_record_checks (text_of self.entry) self.entry.pack.bytes.now n) }
    {
        match self.route(n) {
            Some(route) => self.check_pair(route),
            None => Ok(()),
        }
    }
}

// Every route's checks, in the order of the records: only the first at fault is compared with all.
#[tactic(auto, using(crate::proofs::FirstFault::fault_first, crate::proofs::FirstFault::fault_none))]
pub fn validate_federate_route_pairs(federate: Federate) -> Result<(), Refusal>
    ensures { let p = federate.entry.pack.bytes.now in result ≡ first (run (route_record_checks (text_of federate.entry) p) 0 (records_of p)) }
{
    match federate.first_fault() {
        Some(n) => federate.check_record(n),
        None => Ok(()),
    }
}
