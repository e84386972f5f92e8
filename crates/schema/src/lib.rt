// The rows of a pack's tables: their types, and how they are read from a record of a lent pack. Here and above, a number of 32 bits becomes an index
// by `as usize`, a length one of 64 bits by `as u64`, and a count one of 32 bits or a byte by `as u32` and `as u8`: std has no `From` for the first two, and
// the others are in range by proof. No library asks for memory. A type derives what is asked of it here or above, and no more.
#![tactic(auto)]

pub mod entries;
pub mod index;
pub mod keys;
pub mod lent;
pub mod record;
pub mod row;
pub mod rows;
