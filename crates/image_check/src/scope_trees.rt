// What a host asks of small scope trees: the first legal table of parents and the next after a given one, in bytes that the host lends.
ghost use Rattle.std.specs.Prelude.{◌≡◌};
ghost use Rattle.trees.specs.Answer.{first_answer, first_bytes, next_answer, next_bytes};
ghost use Rattle.image_check.specs.Answered.{Answered};
ghost use Rattle.image_check.specs.ScopeTrees.{first_numbers, next_numbers};

use crate::{put, put_refusal};
use trees::{Next, first_tree, next_tree};

// The first legal table of so many scopes, in the place of the lent bytes: 0 and 1, or the refusal's number. The result is how many of `numbers` hold it.
pub fn first_scope_tree(count: u32, table: &mut [u8], numbers: &mut [u64; 8]) -> u32
    ensures answer { Answered (first_numbers (first_answer count table.old)) result numbers.new }
    ensures table { table.new ≡ first_bytes count table.old }
{
    match first_tree(count, table) {
        Ok(()) => put(&[0, 1], numbers),
        Err(refusal) => put_refusal(refusal, numbers),
    }
}

// The next legal table after the one in the lent bytes, in its place: 0 and 1, 0 and 0 at the end, or the refusal's number. The result is how many of
// `numbers` hold it.
pub fn next_scope_tree(count: u32, table: &mut [u8], numbers: &mut [u64; 8]) -> u32
    ensures answer { Answered (next_numbers (next_answer count table.old)) result numbers.new }
    ensures table { table.new ≡ next_bytes count table.old }
{
    match next_tree(count, table) {
        Ok(Next::Table) => put(&[0, 1], numbers),
        Ok(Next::End) => put(&[0, 0], numbers),
        Err(refusal) => put_refusal(refusal, numbers),
    }
}
