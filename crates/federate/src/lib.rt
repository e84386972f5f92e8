// The federate check: its own record, each enclave in turn, then the routes of all enclaves; the first check that fails decides.
#![tactic(auto)]

pub mod check;
pub mod enclaves;
pub mod metadata;
pub mod records;
pub mod walk;

// What the check of a federate accepts: so many enclaves, with the links of all.
#[derive(Clone, Copy, Debug, PartialEq, Eq)]
pub struct FederateAccepted {
    pub enclaves: u32,
    pub links: u64,
}
