// The cases of a line.
use crate::parts::{one_half, s_of, two_deadlines, two_halves, two_scopes, uncovered_trigger};
use crate::rows;
use crate::show::show_federate;
use anyhow::Result;
use cases::records::RecordBytes;
use schema::index::{BindingKind, RouteDirection, TimingDomain};
use schema::row::Stored;
use schema::rows::{EnclaveImage, RouteImage, ScopeImage};

// S with another enclave, in a line `f` with the span 0+len.
fn one_enclave(rt: &HostRuntime, name: &[u8], enclave: EnclaveImage, len: u64) -> Result<()> {
    show_federate(
        rt,
        name,
        rows::federate(2, 0, len),
        &[&s_of(enclave)],
        b"abf",
    )
}

// S twice with other enclaves, in a line with the span start+2. ` a` stands behind the line's own text.
fn two_enclaves(
    rt: &HostRuntime,
    name: &[u8],
    first: EnclaveImage,
    second: EnclaveImage,
    start: u64,
) -> Result<()> {
    let (first, second) = (s_of(first), s_of(second));
    let line = rows::federate(2, start, 2);
    show_federate(rt, name, line, &[&first, &second], b"abf a")
}

// S twice, each time with scope 1 under scope 0.
fn link_each(rt: &HostRuntime) -> Result<()> {
    let (root, under) = (ScopeImage::empty(), rows::scope_under(0));
    let first = two_scopes(rows::enclave_s(), root, under);
    let second = two_scopes(rows::enclave(1, 1, 1, 0), root, under);
    let name = b"two stations in a line, a link each";
    show_federate(
        rt,
        name,
        rows::federate(2, 0, 2),
        &[&first, &second],
        b"abf",
    )
}

// Lines with routes have the text `abcddf`: the boundary `d` is at 3 and at 4.
fn with_routes(rt: &HostRuntime, name: &[u8], stations: &[&[RecordBytes]]) -> Result<()> {
    let line = rows::federate(5, 0, stations.len() as u64);
    show_federate(rt, name, line, stations, b"abcddf")
}

// One half, and two, in a line; `enclaves` has the same in a station, over its own text.
fn lone_half(rt: &HostRuntime, name: &[u8], direction: RouteDirection) -> Result<()> {
    let half = one_half(rows::enclave_s(), rows::route(3, direction));
    with_routes(rt, name, &[&half])
}

// Two halves in one station.
fn halves_together(
    rt: &HostRuntime,
    name: &[u8],
    first: RouteDirection,
    second: RouteDirection,
) -> Result<()> {
    let (first, second) = (rows::route(3, first), rows::route(4, second));
    let halves = two_halves(rows::enclave_s(), first, second);
    with_routes(rt, name, &[&halves])
}

// A half in each of two stations.
fn halves_apart(
    rt: &HostRuntime,
    name: &[u8],
    first: RouteImage,
    second: RouteImage,
) -> Result<()> {
    let first = one_half(rows::enclave(0, 1, 1, 0), first);
    let second = one_half(rows::enclave(1, 1, 1, 0), second);
    with_routes(rt, name, &[&first, &second])
}

// Both halves in each of two stations.
fn both_twice(rt: &HostRuntime) -> Result<()> {
    let inbound = rows::route(4, RouteDirection::Inbound);
    let outbound = rows::route(4, RouteDirection::Outbound);
    let at_three = rows::route(3, RouteDirection::Inbound);
    let first = two_halves(rows::enclave(0, 1, 1, 0), at_three, outbound);
    let second = two_halves(rows::enclave(1, 1, 1, 0), inbound, outbound);
    let name = b"both halves twice, in two stations";
    with_routes(rt, name, &[&first, &second])
}

// An outbound half, both halves, an inbound half: the first route is outbound.
fn outbound_at_first(rt: &HostRuntime) -> Result<()> {
    let inbound = rows::route(4, RouteDirection::Inbound);
    let outbound = rows::route(4, RouteDirection::Outbound);
    let at_three = rows::route(3, RouteDirection::Outbound);
    let first = one_half(rows::enclave(0, 1, 1, 0), at_three);
    let second = two_halves(rows::enclave(1, 1, 1, 0), inbound, outbound);
    let third = one_half(rows::enclave(2, 1, 1, 0), inbound);
    let name = b"both halves twice, in three stations, outbound first";
    with_routes(rt, name, &[&first, &second, &third])
}

fn counts(rt: &HostRuntime) -> Result<()> {
    let a = rows::enclave_s();
    one_enclave(rt, b"S in a line", a, 1)?;
    let no_slots = rows::enclave(0, 1, 0, 0);
    one_enclave(rt, b"S in a line, state slots 0", no_slots, 1)?;
    one_enclave(rt, b"S in a line whose span length is 2", a, 2)?;
    let name = b"no station in a line, span length 0";
    show_federate(rt, name, rows::federate(2, 0, 0), &[], b"abf")?;
    link_each(rt)?;
    let name = b"a lone route half in a line, inbound";
    lone_half(rt, name, RouteDirection::Inbound)?;
    let name = b"a lone route half in a line, outbound";
    lone_half(rt, name, RouteDirection::Outbound)
}

// A bad identity is the station's own, index 0; only the order has the station's place.
fn identities(rt: &HostRuntime) -> Result<()> {
    let a = rows::enclave_s();
    let b = rows::enclave(1, 1, 1, 0);
    let bad = rows::enclave(3, 2, 1, 0);
    let again = rows::enclave(4, 1, 1, 0);
    two_enclaves(rt, b"second identity ` a`, span 0+2", a, bad, 0)?;
    two_enclaves(rt, b"second identity ` a`, span 5+2", a, bad, 5)?;
    let name = b"second identity as the first, span 5+2";
    two_enclaves(rt, name, a, again, 5)?;
    let name = b"second identity below the first, span 5+2";
    two_enclaves(rt, name, b, a, 5)?;
    let name = b"an entry that no range covers, in a line";
    let line = rows::federate(2, 0, 1);
    show_federate(rt, name, line, &[&uncovered_trigger()], b"abf")
}

fn boundaries(rt: &HostRuntime) -> Result<()> {
    let (inbound, outbound) = (RouteDirection::Inbound, RouteDirection::Outbound);
    let name = b"both halves in one station, inbound first";
    halves_together(rt, name, inbound, outbound)?;
    let name = b"both halves in one station, outbound first";
    halves_together(rt, name, outbound, inbound)?;
    let name = b"halves in two stations, inbound first";
    halves_apart(rt, name, rows::route(3, inbound), rows::route(4, outbound))?;
    let (first, second) = (rows::route(3, outbound), rows::route(4, inbound));
    let name = b"halves in two stations, outbound first";
    halves_apart(rt, name, first, second)?;
    let late = RouteImage {
        delay_nanos: 1,
        ..second
    };
    halves_apart(rt, b"halves with two delays", first, late)?;
    let late_physical = RouteImage {
        timing_domain: TimingDomain::Physical,
        ..late
    };
    let name = b"halves with two domains and two delays";
    halves_apart(rt, name, first, late_physical)
}

fn duplicates(rt: &HostRuntime) -> Result<()> {
    let (inbound, outbound) = (RouteDirection::Inbound, RouteDirection::Outbound);
    let (first, second) = (rows::route(3, inbound), rows::route(4, inbound));
    halves_apart(rt, b"two inbound halves", first, second)?;
    let (first, second) = (rows::route(3, outbound), rows::route(4, outbound));
    halves_apart(rt, b"two outbound halves", first, second)?;
    both_twice(rt)?;
    outbound_at_first(rt)
}

// Two stations with two deadlines each, the last of them of so many nanoseconds.
fn with_deadlines(
    rt: &HostRuntime,
    name: &[u8],
    first: EnclaveImage,
    second: EnclaveImage,
    nanos: u64,
) -> Result<()> {
    let binding = rows::binding(2, BindingKind::Reaction);
    let (zero, one) = (rows::deadline(0, 1), rows::deadline(1, 1));
    let last = rows::deadline(1, nanos);
    let first = two_deadlines(first, binding, zero, one);
    let second = two_deadlines(second, binding, zero, last);
    let line = rows::federate(3, 0, 2);
    show_federate(rt, name, line, &[&first, &second], b"abcf")
}

// A station's deadlines are its own, and so come before its identity's order.
fn deadlines(rt: &HostRuntime) -> Result<()> {
    let (a, b) = (rows::enclave_s(), rows::enclave(1, 1, 1, 0));
    with_deadlines(rt, b"two stations with deadlines", a, b, 1)?;
    let name = b"second identity below the first, its last deadline of no nanoseconds";
    with_deadlines(rt, name, b, a, 0)
}

pub fn cases(rt: &HostRuntime) -> Result<()> {
    counts(rt)?;
    identities(rt)?;
    boundaries(rt)?;
    duplicates(rt)?;
    deadlines(rt)
}
