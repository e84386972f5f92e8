// The checks of list tables, routes and required bindings, entry by entry in the Rust's order, and of deadlines. Passes go by `for`, since an entry's place is
// shown; routes and bindings carry what the row before left, which `try_fold` would answer for the last row, where nobody asks. A key goes with what was read of
// its row, once for all of its entries.
#![tactic(auto)]

pub mod deadlines;
pub mod level_lists;
pub mod list_tables;
pub mod routes;
