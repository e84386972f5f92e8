// The checks of the rows of scopes with their six running ends, and the walk of their parents. A row goes with its key, which a refusal shows: the row is
// read once, and a struct of the two would be taken apart in each check. The pass goes by `for`, since its ends are lent to each row's check, which moves
// them on.
#![tactic(auto)]

pub mod ends;
pub mod links;
pub mod owners;
pub mod scopes;
