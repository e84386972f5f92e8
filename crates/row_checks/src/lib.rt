// The checks of the rows of reactors, actions, ports, reactions and modes. A row goes with its key, which a refusal shows: the row is read once, and a struct
// of the two would be taken apart in each check. The passes go by `for`, with the ends of the row before at hand: `try_fold` would answer the ends after the
// last row, which nobody asks for, and one pass over all kinds would take each kind's row, check and ends as closures.
#![tactic(auto)]

pub mod actions;
pub mod bindings;
pub mod modes;
pub mod ports;
pub mod reactions;
pub mod reactors;
