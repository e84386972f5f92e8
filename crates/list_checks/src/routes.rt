// The checks of routes and of required bindings: their identities are valid and in order.
ghost use Rattle.std.specs.Prelude.{◌≡◌};
ghost use Rattle.answers.specs.Checks.{first, run};
ghost use Rattle.checks.specs.Image.{image_of, route_part};
ghost use Rattle.checks.specs.Lists.{after_first};
ghost use Rattle.schema.specs.Tables.{rows_of};
ghost use Rattle.list_checks.specs.Routes.{route_order_checks, route_row, route_checks, binding_id_row, binding_id_checks};

use answers::{Field, IdKind, Refusal, RowField, StableId};
use checks::identities::{validate_text, validate_text_order};
use checks::refs::check_exists;
use identity::IdentityPlace;
use identity::compare::compare_bytes;
use schema::index::{BindingSlotIndex, RouteDirection};
use schema::lent::{Enclave, TableStarts};
use schema::row::Row;
use schema::rows::{RequiredBindingImage, RouteImage};
use std::cmp::Ordering;

// What the row after a route is compared with: its boundary's text and its direction. It goes with the row's index, which a refusal shows and which says
// whether there is a row before: an `Option` would say that once more. A text goes beside its identity, since it is read once for two rows.
#[derive(Clone, Copy)]
struct Before<'a> {
    text: &'a [u8],
    direction: RouteDirection,
}

// A route against the one before it, if there is one: boundaries rise, and of one boundary the inbound half comes first.
#[tactic(auto, unfolding(answers::specs::Checks::first, crate::specs::Routes::route_order_checks))]
fn check_route_order(
    index: u32,
    route: RouteImage,
    text: &[u8],
    before: Before,
) -> Result<(), Refusal>
    ensures { result
        ≡ first (after_first index (route_order_checks index route.boundary text.now route.direction before.entry.text.now before.entry.direction)) }
{
    if index == 0 {
        return Ok(());
    }
    let RouteImage {
        boundary,
        direction,
        ..
    } = route;
    match compare_bytes(text, before.text) {
        Ordering::Less => Err(Refusal::StableIdsNotSorted {
            id: StableId {
                kind: IdKind::Boundary,
                index,
                id: boundary,
            },
        }),
        Ordering::Equal if direction == before.direction => Err(Refusal::DuplicateRouteHalf {
            boundary,
            direction,
        }),
        Ordering::Equal if before.direction == RouteDirection::Outbound => {
            Err(Refusal::EntriesNotSorted {
                table: RouteImage::TABLE,
                index,
            })
        }
        _ => Ok(()),
    }
}

// Row `index` of the routes, with its boundary's text, and what the row before left.
#[tactic(auto, using(answers::proofs::Laws::list_laws), unfolding(answers::specs::Checks::first, crate::specs::Routes::route_row))]
fn check_route(
    starts: &TableStarts,
    index: u32,
    route: RouteImage,
    text: &[u8],
    before: Before,
) -> Result<(), Refusal>
    ensures { let rows = rows_of starts.now.firsts
        in result ≡ first (route_row rows index (route_part route) text.now before.entry.text.now before.entry.direction) }
{
    let id = StableId {
        kind: IdKind::Boundary,
        index,
        id: route.boundary,
    };
    validate_text(id, text)?;
    check_route_order(index, route, text, before)?;
    let at = RowField {
        table: RouteImage::TABLE,
        index,
        field: Field::LocalPort,
    };
    check_exists(starts, at, route.local_port)
}

// Every route. Row 0, which is compared with none, stands for the row before itself.
#[tactic(auto, using(answers::proofs::Loops::run_laws), unfolding(crate::specs::Routes::route_checks))]
#[inline(always)]
pub fn check_routes(e: &Enclave) -> Result<(), Refusal>
    ensures { let m = image_of e.now in result ≡ first (run (route_checks m) 0 (m.rows 23)) }
{
    let row = e.row_at::<RouteImage>(0);
    let mut before = Before {
        text: e.texts.identity_text(row.boundary),
        direction: row.direction,
    };
    for i in 0..e.rows(RouteImage::TABLE) {
        let route = e.row_within::<RouteImage>(i);
        let text = e.texts.identity_text(route.boundary);
        check_route(e.starts, i, route, text, before)?;
        before = Before {
            text,
            direction: route.direction,
        };
    }
    Ok(())
}

// A row of the required bindings, with its identity's text and that of the row before.
#[tactic(auto, using(answers::proofs::Laws::list_laws), unfolding(answers::specs::Checks::first, crate::specs::Routes::binding_id_row))]
fn check_binding_id(
    index: u32,
    id: IdentityPlace,
    text: &[u8],
    previous: &[u8],
) -> Result<(), Refusal>
    ensures { result ≡ first (binding_id_row index id text.now previous.now) }
{
    let id = StableId {
        kind: IdKind::Binding,
        index,
        id,
    };
    validate_text(id, text)?;
    if index == 0 {
        return Ok(());
    }
    validate_text_order(id, text, previous)
}

// Every required binding. Row 0, which is compared with none, stands for the row before itself.
#[tactic(auto, using(answers::proofs::Loops::run_laws), unfolding(crate::specs::Routes::binding_id_checks))]
#[inline(always)]
pub fn check_binding_ids(e: &Enclave) -> Result<(), Refusal>
    ensures { let m = image_of e.now in result ≡ first (run (binding_id_checks m) 0 (m.rows 24)) }
{
    let mut previous = e.texts.identity_text(e.row(BindingSlotIndex::new(0)).id);
    for i in 0..e.rows(RequiredBindingImage::TABLE) {
        let id = e.row_within::<RequiredBindingImage>(i).id;
        let text = e.texts.identity_text(id);
        check_binding_id(i, id, text, previous)?;
        previous = text;
    }
    Ok(())
}
