// The cases of a station.
use crate::parts::{one_half, s, s_of, two_deadlines, two_halves, two_scopes, uncovered_trigger};
use crate::rows;
use crate::show::{show_enclave, show_enclave_bytes};
use anyhow::Result;
use cases::records::{Pack, Recorded, append};
use schema::entries::ReactionTrigger;
use schema::index::{BindingKind, RouteDirection};
use schema::row::Stored;
use schema::rows::{ActionImage, DeadlineImage, EnclaveImage, ReactorImage, ScopeImage};

fn with_enclave(rt: &HostRuntime, name: &[u8], enclave: EnclaveImage, batch: &[u8]) -> Result<()> {
    show_enclave(rt, name, &s_of(enclave), batch)
}

fn with_bank(rt: &HostRuntime, name: &[u8], index: u32, total: u32) -> Result<()> {
    let reactor = rows::bank_reactor(index, total);
    let records = s(rows::enclave_s(), reactor, ScopeImage::empty());
    show_enclave(rt, name, &records, b"ab")
}

fn with_scopes(rt: &HostRuntime, name: &[u8], first: ScopeImage, second: ScopeImage) -> Result<()> {
    let records = two_scopes(rows::enclave_s(), first, second);
    show_enclave(rt, name, &records, b"ab")
}

// Reactor 0 has the modes 0+1, and reactor 1 an empty span.
fn with_spans(rt: &HostRuntime, name: &[u8], start: u64) -> Result<()> {
    let records = [
        rows::enclave_s().record(),
        rows::reactor(0, 0, 1).record(),
        rows::reactor(1, start, 0).record(),
        rows::mode(0, 2).record(),
        rows::scope(0).record(),
        rows::scope(1).record(),
        rows::mode_scope(0).record(),
        rows::binding_s().record(),
    ];
    show_enclave(rt, name, &records, b"ab")
}

fn with_action(
    rt: &HostRuntime,
    name: &[u8],
    enclave: EnclaveImage,
    action: ActionImage,
) -> Result<()> {
    let records = [
        enclave.record(),
        ReactorImage::empty().record(),
        action.record(),
        ScopeImage::empty().record(),
        rows::binding_s().record(),
    ];
    show_enclave(rt, name, &records, b"ab")
}

// An action and a port with the same trigger.
fn shared_trigger(rt: &HostRuntime) -> Result<()> {
    let records = [
        rows::enclave_one_action().record(),
        ReactorImage::empty().record(),
        rows::triggering_action(1).record(),
        rows::port(2, 1).record(),
        rows::reaction(3).record(),
        ScopeImage::empty().record(),
        ReactionTrigger::empty().record(),
        rows::binding_s().record(),
        rows::binding(2, BindingKind::Action).record(),
        rows::binding(3, BindingKind::Port).record(),
        rows::binding(4, BindingKind::Reaction).record(),
    ];
    let name = b"an action and a port with triggers 0+1";
    show_enclave(rt, name, &records, b"abcde")
}

fn slots_and_parents(rt: &HostRuntime) -> Result<()> {
    with_enclave(rt, b"S", rows::enclave_s(), b"ab")?;
    with_enclave(rt, b"S, state slots 0", rows::enclave(0, 1, 0, 0), b"ab")?;
    let without_reactor = [
        rows::enclave(0, 0, 1, 0).record(),
        ScopeImage::empty().record(),
        rows::binding_s().record(),
    ];
    let name = b"S without its reactor, identity empty";
    show_enclave(rt, name, &without_reactor, b"ab")?;
    let (root, under) = (ScopeImage::empty(), rows::scope_under(0));
    let own_parent = s(rows::enclave_s(), ReactorImage::empty(), under);
    show_enclave(rt, b"S, scope 0 its own parent", &own_parent, b"ab")?;
    with_scopes(rt, b"S and scope 1 under scope 0", root, under)?;
    with_scopes(rt, b"each the other's parent", rows::scope_under(1), under)
}

fn spans_and_banks(rt: &HostRuntime) -> Result<()> {
    with_spans(rt, b"modes 0+1, then 0+0", 0)?;
    with_spans(rt, b"modes 0+1, then 1+0", 1)?;
    with_bank(rt, b"bank index 0 of 0", 0, 0)?;
    with_bank(rt, b"bank index 3 of 3", 3, 3)?;
    with_bank(rt, b"bank index 2 of 3", 2, 3)
}

// The identity stands behind S's own text.
fn identities(rt: &HostRuntime) -> Result<()> {
    let two = rows::enclave(2, 2, 1, 0);
    let three = rows::enclave(2, 3, 1, 0);
    with_enclave(rt, b"identity ` a`", two, b"ab a")?;
    with_enclave(rt, b"identity U+00A0", two, b"ab\xC2\xA0")?;
    with_enclave(rt, b"identity `a b`", three, b"aba b")?;
    with_enclave(rt, b"identity U+200B", three, b"ab\xE2\x80\x8B")
}

fn actions(rt: &HostRuntime) -> Result<()> {
    let one = rows::enclave_one_action();
    let none = rows::enclave_s();
    let (timer, standard) = (rows::bound_timer(), ActionImage::empty());
    with_action(rt, b"a timer with a binding", one, timer)?;
    with_action(rt, b"a standard action without", one, standard)?;
    let name = b"a timer with a binding, action slots 0";
    with_action(rt, name, none, timer)?;
    let name = b"a standard action without, action slots 0";
    with_action(rt, name, none, standard)
}

// One half of the boundary `d`.
fn lone_half(rt: &HostRuntime, name: &[u8], direction: RouteDirection) -> Result<()> {
    let records = one_half(rows::enclave_s(), rows::route(3, direction));
    show_enclave(rt, name, &records, b"abcd")
}

// Two halves of the boundary `d`.
fn both_halves(
    rt: &HostRuntime,
    name: &[u8],
    first: RouteDirection,
    second: RouteDirection,
) -> Result<()> {
    let (first, second) = (rows::route(3, first), rows::route(3, second));
    let records = two_halves(rows::enclave_s(), first, second);
    show_enclave(rt, name, &records, b"abcd")
}

// The first bytes of S.
fn cut(rt: &HostRuntime, name: &[u8], len: usize) -> Result<()> {
    let mut pack = Pack::new();
    append(&mut pack, &s_of(rows::enclave_s()))?;
    pack.truncate(len);
    show_enclave_bytes(rt, name, pack.as_slice(), b"ab")
}

fn lengths(rt: &HostRuntime) -> Result<()> {
    cut(rt, b"63 bytes", 63)?;
    cut(rt, b"65 bytes", 65)?;
    let name = b"identity of length 0 at the text's end";
    with_enclave(rt, name, rows::enclave(2, 0, 1, 0), b"ab")
}

// Two reactions with the binding `c`, and two deadlines.
fn with_deadlines(
    rt: &HostRuntime,
    name: &[u8],
    first: DeadlineImage,
    second: DeadlineImage,
) -> Result<()> {
    let binding = rows::binding(2, BindingKind::Reaction);
    let records = two_deadlines(rows::enclave_s(), binding, first, second);
    show_enclave(rt, name, &records, b"abc")
}

fn deadlines(rt: &HostRuntime) -> Result<()> {
    let (first, second) = (rows::deadline(0, 1), rows::deadline(1, 1));
    let past = rows::deadline(2, 1);
    with_deadlines(rt, b"deadlines of reactions 0 and 1", first, second)?;
    with_deadlines(rt, b"a deadline of reaction 2 of 2", first, past)?;
    let name = b"two deadlines of one reaction";
    with_deadlines(rt, name, second, second)?;
    with_deadlines(rt, b"deadlines that fall", second, first)?;
    let name = b"a deadline of no nanoseconds";
    with_deadlines(rt, name, first, rows::deadline(1, 0))?;
    let name = b"a deadline of the reaction past the last, of no nanoseconds";
    with_deadlines(rt, name, first, rows::deadline(2, 0))?;
    let name = b"two deadlines of one reaction, the second of no nanoseconds";
    with_deadlines(rt, name, second, rows::deadline(1, 0))?;
    let name = b"deadlines that fall, the second of no nanoseconds";
    with_deadlines(rt, name, second, rows::deadline(0, 0))?;
    let name = b"a deadline of no nanoseconds, then one of reaction 2 of 2";
    with_deadlines(rt, name, rows::deadline(0, 0), past)
}

// What comes before deadlines: the identities of bindings, and the packing rules.
fn before_deadlines(rt: &HostRuntime) -> Result<()> {
    let zero = rows::deadline(0, 0);
    let again = rows::binding(1, BindingKind::Reaction);
    let records = two_deadlines(rows::enclave_s(), again, zero, zero);
    let name = b"a binding twice, then deadlines of no nanoseconds";
    show_enclave(rt, name, &records, b"ab")?;
    let mut unknown = [0; 64];
    unknown[0] = 26;
    let records = [rows::enclave_s().record(), zero.record(), unknown];
    show_enclave(rt, b"table 26 after table 25", &records, b"ab")
}

pub fn cases(rt: &HostRuntime) -> Result<()> {
    let (inbound, outbound) = (RouteDirection::Inbound, RouteDirection::Outbound);
    slots_and_parents(rt)?;
    spans_and_banks(rt)?;
    identities(rt)?;
    actions(rt)?;
    shared_trigger(rt)?;
    lone_half(rt, b"a lone route half, inbound", inbound)?;
    lone_half(rt, b"a lone route half, outbound", outbound)?;
    lengths(rt)?;
    let name = b"an entry that no range covers";
    show_enclave(rt, name, &uncovered_trigger(), b"ab")?;
    let name = b"equal boundaries, inbound first";
    both_halves(rt, name, inbound, outbound)?;
    let name = b"equal boundaries, outbound first";
    both_halves(rt, name, outbound, inbound)?;
    deadlines(rt)?;
    before_deadlines(rt)
}
