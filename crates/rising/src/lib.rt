// The second check of an enclave, whose levels must rise, and how many other reactions one reaction of such an enclave reaches.
#![tactic(auto)]

pub mod levels;
pub mod marks;
pub mod reach;
pub mod rising;
mod walk;
