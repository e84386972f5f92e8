// The stations that both kinds of cases have, record by record.
use crate::rows;
use cases::records::{RecordBytes, Recorded};
use schema::entries::ReactionTrigger;
use schema::index::BindingKind;
use schema::row::Stored;
use schema::rows::{
    DeadlineImage, EnclaveImage, ReactorImage, RequiredBindingImage, RouteImage, ScopeImage,
};

// S with another enclave, reactor or scope.
pub fn s(enclave: EnclaveImage, reactor: ReactorImage, scope: ScopeImage) -> [RecordBytes; 4] {
    [
        enclave.record(),
        reactor.record(),
        scope.record(),
        rows::binding_s().record(),
    ]
}

// S with another enclave.
pub fn s_of(enclave: EnclaveImage) -> [RecordBytes; 4] {
    s(enclave, ReactorImage::empty(), ScopeImage::empty())
}

// S with another enclave and two scopes.
pub fn two_scopes(
    enclave: EnclaveImage,
    first: ScopeImage,
    second: ScopeImage,
) -> [RecordBytes; 5] {
    [
        enclave.record(),
        ReactorImage::empty().record(),
        first.record(),
        second.record(),
        rows::binding_s().record(),
    ]
}

// S with a trigger that no range covers, and no reaction.
pub fn uncovered_trigger() -> [RecordBytes; 5] {
    [
        rows::enclave_s().record(),
        ReactorImage::empty().record(),
        ScopeImage::empty().record(),
        ReactionTrigger::empty().record(),
        rows::binding_s().record(),
    ]
}

// S with another enclave, a port `c` and one half of a boundary.
pub fn one_half(enclave: EnclaveImage, half: RouteImage) -> [RecordBytes; 7] {
    [
        enclave.record(),
        ReactorImage::empty().record(),
        rows::port(1, 0).record(),
        ScopeImage::empty().record(),
        half.record(),
        rows::binding_s().record(),
        rows::binding(2, BindingKind::Port).record(),
    ]
}

// And with two halves.
pub fn two_halves(
    enclave: EnclaveImage,
    first: RouteImage,
    second: RouteImage,
) -> [RecordBytes; 8] {
    [
        enclave.record(),
        ReactorImage::empty().record(),
        rows::port(1, 0).record(),
        ScopeImage::empty().record(),
        first.record(),
        second.record(),
        rows::binding_s().record(),
        rows::binding(2, BindingKind::Port).record(),
    ]
}

// S with another enclave, two reactions with a binding of their own, and two deadlines.
pub fn two_deadlines(
    enclave: EnclaveImage,
    binding: RequiredBindingImage,
    first: DeadlineImage,
    second: DeadlineImage,
) -> [RecordBytes; 9] {
    [
        enclave.record(),
        ReactorImage::empty().record(),
        rows::reaction(1).record(),
        rows::reaction(1).record(),
        ScopeImage::empty().record(),
        rows::binding_s().record(),
        binding.record(),
        first.record(),
        second.record(),
    ]
}
