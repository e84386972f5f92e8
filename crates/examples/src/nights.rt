// Lines at night: each rule alone, which of several faults comes first, and the halves of a boundary in one station and in two.
use crate::parts::{one_half, s_of, two_halves};
use crate::rows;
use crate::show::{show_night, show_night_bytes};
use anyhow::Result;
use arrayvec::ArrayVec;
use cases::records::{RecordBytes, Recorded};
use schema::index::{BindingKind, RouteDirection, TimingDomain};
use schema::row::Stored;
use schema::rows::{EnclaveImage, RouteImage};

// Room for a line of 144 records.
type Line = ArrayVec<u8, 9216>;

// A line of one station: so many reactors, each with its root scope, and under each scope from one number up to another the next one.
fn tall(reactors: u32, from: u32, to: u32, route: Option<RouteImage>) -> Result<Line> {
    let mut line = Line::new();
    line.try_extend_from_slice(&rows::federate(2, 0, 1).record())?;
    line.try_extend_from_slice(&rows::enclave_s().record())?;
    for i in 0..reactors {
        line.try_extend_from_slice(&rows::reactor(i, 0, 0).record())?;
    }
    line.try_extend_from_slice(&rows::port(1, 0).record())?;
    for i in 0..reactors {
        line.try_extend_from_slice(&rows::scope(i).record())?;
    }
    for parent in from..to {
        line.try_extend_from_slice(&rows::scope_under(parent).record())?;
    }
    if let Some(route) = route {
        line.try_extend_from_slice(&route.record())?;
    }
    line.try_extend_from_slice(&rows::binding_s().record())?;
    line.try_extend_from_slice(&rows::binding(2, BindingKind::Port).record())?;
    Ok(line)
}

fn show_tall(rt: &HostRuntime, name: &[u8], line: Result<Line>) -> Result<()> {
    show_night_bytes(rt, name, line?.as_slice(), b"abfd")
}

fn physical(direction: RouteDirection) -> RouteImage {
    RouteImage {
        timing_domain: TimingDomain::Physical,
        ..rows::route(3, direction)
    }
}

// S in a line, with another enclave.
fn one_enclave(rt: &HostRuntime, name: &[u8], enclave: EnclaveImage) -> Result<()> {
    let line = rows::federate(2, 0, 1);
    show_night(rt, name, line, &[&s_of(enclave)], b"abf")
}

// Lines with routes have the text `abcddf`: the boundary `d` is at 3 and at 4.
fn with_routes(rt: &HostRuntime, name: &[u8], stations: &[&[RecordBytes]]) -> Result<()> {
    let line = rows::federate(5, 0, stations.len() as u64);
    show_night(rt, name, line, stations, b"abcddf")
}

fn reactors_and_scopes(rt: &HostRuntime) -> Result<()> {
    one_enclave(rt, b"S at night", rows::enclave_s())?;
    let no_slots = rows::enclave(0, 1, 0, 0);
    one_enclave(rt, b"S at night, state slots 0", no_slots)?;
    show_tall(rt, b"64 reactors at night", tall(64, 0, 0, None))?;
    show_tall(rt, b"65 reactors at night", tall(65, 0, 0, None))?;
    show_tall(rt, b"eight ancestors at night", tall(1, 0, 8, None))?;
    show_tall(rt, b"nine ancestors at night", tall(1, 0, 9, None))?;
    let name = b"nine ancestors and a physical route at night";
    let route = Some(physical(RouteDirection::Inbound));
    show_tall(rt, name, tall(1, 0, 9, route))?;
    let name = b"65 reactors and nine ancestors at night";
    show_tall(rt, name, tall(65, 64, 73, None))
}

fn halves(rt: &HostRuntime) -> Result<()> {
    let (inbound, outbound) = (RouteDirection::Inbound, RouteDirection::Outbound);
    let (first, second) = (rows::enclave(0, 1, 1, 0), rows::enclave(1, 1, 1, 0));
    let together = two_halves(first, rows::route(3, inbound), rows::route(4, outbound));
    with_routes(rt, b"both halves in one station at night", &[&together])?;
    let lone_in = one_half(first, rows::route(3, inbound));
    let lone_out = one_half(second, rows::route(4, outbound));
    let name = b"halves in two stations at night";
    with_routes(rt, name, &[&lone_in, &lone_out])?;
    with_routes(rt, b"the inbound half alone at night", &[&lone_in])?;
    let lone_out = one_half(first, rows::route(4, outbound));
    with_routes(rt, b"the outbound half alone at night", &[&lone_out])?;
    let pair = two_halves(second, physical(inbound), physical(outbound));
    let name = b"a lone half, then a physical pair of the second station at night";
    let f = one_half(first, rows::route(5, inbound));
    with_routes(rt, name, &[&f, &pair])
}

pub fn cases(rt: &HostRuntime) -> Result<()> {
    reactors_and_scopes(rt)?;
    halves(rt)
}
