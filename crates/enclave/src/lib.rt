// The enclave check: the passes in order, each over its items in order; the first check that fails decides.
#![tactic(auto, using(answers::proofs::Laws::list_laws))]

pub mod check;
pub mod passes;
