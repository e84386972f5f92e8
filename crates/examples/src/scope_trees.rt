// Scope trees: the whole list for 1 to 4 scopes, every table of such bytes as the scopes of S, and what is refused.
use crate::rows;
use crate::show::{show_enclave_bytes, show_name};
use anyhow::Result;
use cases::records::{Pack, Recorded, append};
use schema::row::Stored;
use schema::rows::{ReactorImage, ScopeImage};
use std::io;
use trees::{Next, first_tree, next_tree};

// As many tables as there are of 4 bytes from 0 to 4: no list is longer.
const MOST: u32 = 625;

// A table, byte by byte.
fn show_table(rt: &HostRuntime, table: &[u8]) -> io::Result<()> {
    for byte in table {
        print!(rt; "{byte}")?;
    }
    Ok(())
}

// The tables after the first, to the end.
fn show_rest(rt: &HostRuntime, count: u32, table: &mut [u8]) -> Result<()> {
    let mut before = "";
    for _ in 0..MOST {
        print!(rt; "{before}")?;
        before = " ";
        show_table(rt, table)?;
        match next_tree(count, table) {
            Ok(Next::Table) => {}
            Ok(Next::End) => break,
            Err(refusal) => {
                print!(rt; " refused {refusal}")?;
                break;
            }
        }
    }
    println!(rt; "")?;
    Ok(())
}

// The list of the trees of so many scopes.
fn show_list(rt: &HostRuntime, name: &[u8], count: u32, table: &mut [u8]) -> Result<()> {
    show_name(rt, name)?;
    match first_tree(count, table) {
        Ok(()) => show_rest(rt, count, table),
        Err(refusal) => {
            println!(rt; "refused {refusal}")?;
            Ok(())
        }
    }
}

// Counts one on, the last byte first, up to so much in each; whether it did not come round to zeros.
fn count_on(table: &mut [u8], most: u8) -> bool {
    for byte in table.iter_mut().rev() {
        if *byte < most {
            *byte += 1;
            return true;
        }
        *byte = 0;
    }
    false
}

fn scope(byte: u8) -> ScopeImage {
    if byte == 0 {
        return ScopeImage::empty();
    }
    rows::scope_under(u32::from(byte) - 1)
}

// S with the scopes of a table.
fn show_in_s(rt: &HostRuntime, table: &[u8]) -> Result<()> {
    let mut pack = Pack::new();
    append(
        &mut pack,
        &[rows::enclave_s().record(), ReactorImage::empty().record()],
    )?;
    for byte in table {
        append(&mut pack, &[scope(*byte).record()])?;
    }
    append(&mut pack, &[rows::binding_s().record()])?;
    show_table(rt, table)?;
    show_enclave_bytes(rt, b" in S", pack.as_slice(), b"ab")
}

// Every table of bytes from 0 to so much, in S.
fn show_all_in_s(rt: &HostRuntime, most: u8, table: &mut [u8]) -> Result<()> {
    for _ in 0..MOST {
        show_in_s(rt, table)?;
        if !count_on(table, most) {
            break;
        }
    }
    Ok(())
}

// What next answers, and the bytes after it.
fn show_next(rt: &HostRuntime, name: &[u8], count: u32, table: &mut [u8]) -> Result<()> {
    show_name(rt, name)?;
    match next_tree(count, table) {
        Ok(Next::Table) => print!(rt; "table | ")?,
        Ok(Next::End) => print!(rt; "end | ")?,
        Err(refusal) => print!(rt; "refused {refusal} | ")?,
    }
    show_table(rt, table)?;
    println!(rt; "")?;
    Ok(())
}

// Each refusal, with the next ones at fault as well, and the end.
fn refusals(rt: &HostRuntime) -> Result<()> {
    show_list(rt, b"no scopes", 0, &mut [0; 0])?;
    show_list(rt, b"5 scopes", 5, &mut [0; 5])?;
    show_next(rt, b"5 scopes for 4 bytes over 5", 5, &mut [6; 4])?;
    show_next(rt, b"2 scopes for 3 bytes over 2", 2, &mut [3; 3])?;
    show_next(
        rt,
        b"scope 0 its own parent, scope 1 under scope 2 of 2",
        2,
        &mut [1, 3],
    )?;
    show_next(rt, b"each the other's parent", 2, &mut [2, 1])?;
    show_next(rt, b"after the last of 2 scopes", 2, &mut [2, 0])
}

pub fn cases(rt: &HostRuntime) -> Result<()> {
    show_list(rt, b"trees of 1 scope", 1, &mut [9; 1])?;
    show_list(rt, b"trees of 2 scopes", 2, &mut [9; 2])?;
    show_list(rt, b"trees of 3 scopes", 3, &mut [9; 3])?;
    show_list(rt, b"trees of 4 scopes", 4, &mut [9; 4])?;
    refusals(rt)?;
    show_all_in_s(rt, 1, &mut [0; 1])?;
    show_all_in_s(rt, 2, &mut [0; 2])?;
    show_all_in_s(rt, 3, &mut [0; 3])?;
    show_all_in_s(rt, 4, &mut [0; 4])
}
