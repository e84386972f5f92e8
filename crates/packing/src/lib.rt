// The packing rules of a pack, record by record, and where each table of an enclave begins.
#![tactic(auto)]

pub mod clean;
pub mod rules;
pub mod shape;
pub mod starts;
pub mod walker;

#[derive(Clone, Copy, Debug, PartialEq, Eq)]
pub enum PackKind {
    Enclave,
    Federate,
}
