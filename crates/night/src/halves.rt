// The first route of a federate without its other half: rows sorted by their boundaries, of each of which at most the two halves are there.
ghost use Rattle.std.specs.Prelude.{◌≡◌, ◌<◌, ◌≤◌, length, IsPermutation, IsSorted};
ghost use Rattle.answers.specs.Checks.{first, run};
ghost use Rattle.schema.specs.Records.{records_of};
ghost use Rattle.route_pairs.specs.RouteOrder.{text_of, boundary_at, routes_of, row_order, FoundBelow};
ghost use Rattle.night.specs.Halves.{unpaired_record_checks, DayPairs, alone, FirstUnpaired};

use answers::Refusal;
use arrayvec::ArrayVec;
use route_pairs::Federate;
use route_pairs::faults::{MAX_ROUTES, SOME_ROUTES};
use schema::row::Stored;
use schema::rows::RouteImage;

// Whether the rows beside the one at place k, where there are any, are of other boundaries.
fn alone(federate: Federate, rows: &[u32], k: usize) -> bool
    requires { k < length rows.now }
    ensures { result ≡ alone (text_of federate.entry) federate.entry.pack.bytes.now rows.now k }
{
    federate.parted(rows, k, k + 1) && (k == 0 || federate.parted(rows, k, k - 1))
}

// The smallest row that is alone where it stands.
fn least_alone(federate: Federate, rows: &[u32]) -> Option<u32>
    requires pairs { DayPairs federate }
    requires permuted { IsPermutation (routes_of federate.pack.bytes.now) rows.now }
    requires sorted { IsSorted (row_order (boundary_at (text_of federate) federate.pack.bytes.now)) rows.now }
    ensures { FoundBelow (records_of federate.entry.pack.bytes.now) (FirstUnpaired federate.entry) result }
{
    (0..rows.len())
        .filter(|k| alone(federate, rows, *k))
        .map(|k| rows[k])
        .min()
}

// The first record without its other half, with room for ROOM routes, in a frame of its own: packs with fewer do not pay for it.
#[inline(never)]
fn first_unpaired_within<const ROOM: usize>(federate: Federate) -> Option<u32>
    requires pairs { DayPairs federate }
    requires room { length (routes_of federate.pack.bytes.now) ≤ ROOM }
    requires few { ROOM ≤ 65536 }
    ensures { FoundBelow (records_of federate.entry.pack.bytes.now) (FirstUnpaired federate.entry) result }
{
    let mut rows = ArrayVec::<u32, ROOM>::new();
    federate.list(&mut rows);
    federate.sort(&mut rows);
    least_alone(federate, &rows)
}

// The first record without its other half.
#[tactic(auto, using(route_pairs::proofs::Rows::routes_few))]
fn first_unpaired(federate: Federate) -> Option<u32>
    requires { DayPairs federate }
    ensures { FoundBelow (records_of federate.entry.pack.bytes.now) (FirstUnpaired federate.entry) result }
{
    match federate.count() {
        0 => None,
        1..=SOME_ROUTES => first_unpaired_within::<SOME_ROUTES>(federate),
        _ => first_unpaired_within::<MAX_ROUTES>(federate),
    }
}

// That each half has its other half, where the day's checks of routes pass; else the half present of the first route at fault is named.
#[tactic(auto, using(route_pairs::proofs::FirstFault::fault_first, route_pairs::proofs::FirstFault::fault_none, crate::proofs::HalfLaws::unpaired_refused))]
pub fn check_halves(federate: Federate) -> Result<(), Refusal>
    requires { DayPairs federate }
    ensures { let f = federate.entry in let p = f.pack.bytes.now in result ≡ first (run (unpaired_record_checks (text_of f) p) 0 (records_of p)) }
{
    match first_unpaired(federate) {
        Some(n) => {
            let route = RouteImage::at(federate.pack, n as usize);
            Err(Refusal::UnpairedRoute {
                boundary: route.boundary,
                direction: route.direction,
            })
        }
        None => Ok(()),
    }
}
