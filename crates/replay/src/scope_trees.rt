// The case of a scope tree: the bytes that it lends hold a table, and stand at the end of its line as they are after the call.
use crate::input::{ReadError, Room, pass_over_parts, read_lent, read_u32};
use answers::Refusal;
use std::fmt;
use std::io::Read;
use trees::{Next, first_tree, next_tree};

#[derive(Clone, Copy)]
pub enum Wanted {
    First,
    Next,
}

// Which table is asked for, of how many scopes, and the bytes as they are lent.
#[derive(Drop)]
pub struct TreeCase<'a> {
    pub wanted: Wanted,
    pub count: u32,
    pub table: &'a mut [u8],
}

#[derive(Clone, Copy)]
pub enum TreeAnswer {
    First(Result<(), Refusal>),
    Next(Result<Next, Refusal>),
}

// Takes what follows the first byte of a tree's case; its three strings of bytes are passed over.
pub fn read_tree<'a, R: Read>(
    wanted: Wanted,
    input: &mut R,
    room: &'a mut Room,
) -> Result<TreeCase<'a>, ReadError> {
    pass_over_parts(input)?;
    let count = read_u32(input)?;
    let Room { lent, .. } = room;
    let len = read_lent(input, lent)?;
    Ok(TreeCase {
        wanted,
        count,
        table: &mut lent[..len],
    })
}

pub fn tree_answer(case: &mut TreeCase) -> TreeAnswer {
    let TreeCase {
        wanted,
        count,
        table,
    } = case;
    match *wanted {
        Wanted::First => TreeAnswer::First(first_tree(*count, table)),
        Wanted::Next => TreeAnswer::Next(next_tree(*count, table)),
    }
}

impl fmt::Display for TreeAnswer {
    fn fmt<W: fmt::Write>(&self, f: &mut fmt::Formatter<W>) -> fmt::Result {
        match *self {
            TreeAnswer::First(Ok(())) | TreeAnswer::Next(Ok(Next::Table)) => write!(f, "table"),
            TreeAnswer::Next(Ok(Next::End)) => write!(f, "end"),
            TreeAnswer::First(Err(refusal)) | TreeAnswer::Next(Err(refusal)) => {
                write!(f, "refused {refusal}")
            }
        }
    }
}
