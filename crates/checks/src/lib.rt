// Lookups, ranges, spans, level and lifecycle lists, identities: the checks that rows' checks are made of.
#![tactic(auto, unfolding(answers::specs::Checks::first))]

pub mod identities;
pub mod lists;
pub mod refs;
