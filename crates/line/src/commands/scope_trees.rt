// The legal tables of parents of so many scopes, in their order.
use crate::answer::{Ended, write_refused};
use std::io;
use std::io::Write;
use trees::{Next, first_tree, next_tree};

// Writes a table: for each scope 0 for no parent, or 1 more than its parent's number.
fn write_table<W: Write>(out: &mut W, table: &[u8]) -> io::Result<()> {
    write!(out, "table")?;
    for parent in table {
        write!(out, " {parent}")?;
    }
    writeln!(out)
}

// Writes each table on a line of its own.
pub(crate) fn list<W: Write>(out: &mut W, scopes: u32) -> io::Result<Ended> {
    let mut room = [0u8; 4];
    let len = (scopes as usize).min(4);
    let table = &mut room[..len];
    if let Err(refusal) = first_tree(scopes, table) {
        return write_refused(out, refusal);
    }
    for _ in 0..u64::MAX {
        write_table(out, table)?;
        match next_tree(scopes, table) {
            Ok(Next::Table) => {}
            Ok(Next::End) => break,
            Err(refusal) => return write_refused(out, refusal),
        }
    }
    Ok(Ended::Yes)
}
