// All small scope trees: the first legal table of parents, and the next after a given one.
#![tactic(auto)]

ghost use Rattle.std.specs.Prelude.{◌≡◌, ◌+◌, ◌≤◌, true, length, option_map};
ghost use Rattle.answers.specs.Checks.{first};
ghost use Rattle.scope_checks.specs.Links.{links_of};
ghost use Rattle.trees.specs.Trees.{parents_in, at_most, legal, number, table_of, total, first_from};
ghost use Rattle.trees.specs.Answer.{first_checks, next_checks, first_answer, first_bytes, next_answer, next_bytes};

use answers::Refusal;
use schema::index::ScopeIndex;

// The most scopes of a table.
const MOST: u32 = 4;

// What the lent bytes hold after a next table was asked for: one, or what they held, since none is left.
#[derive(Clone, Copy)]
pub enum Next {
    Table,
    End,
}

// The parent of a scope in a table: its byte is 0 for none, p + 1 for scope p.
#[tactic(auto, using(crate::proofs::TreeLaws::parent_laws))]
fn parent_in(table: &[u8], scope: ScopeIndex) -> Option<ScopeIndex>
    ensures { result ≡ parents_in table.now scope.0 }
{
    let byte = table.get(scope.0 as usize).copied().unwrap_or(0);
    if byte == 0 {
        return None;
    }
    Some(ScopeIndex::new(u32::from(byte) - 1))
}

// The links of a scope among so many: parents followed until none, or until as many as there are scopes.
#[tactic(auto, using(scope_checks::proofs::LinksLaws::followed_laws))]
fn links_of(table: &[u8], scopes: u32, scope: ScopeIndex) -> u32
    ensures { result ≡ links_of (parents_in table.now) scopes scope.0 }
{
    let mut at = scope;
    for followed in 0..scopes {
        let Some(parent) = parent_in(table, at) else {
            return followed;
        };
        at = parent;
    }
    scopes
}

// Whether the chain of parents of every scope ends.
#[tactic(auto, using(crate::proofs::TreeLaws::legal_laws))]
fn is_legal(table: &[u8], scopes: u32) -> bool
    ensures { result ≡ legal scopes table.now }
{
    for i in 0..scopes {
        if links_of(table, scopes, ScopeIndex::new(i)) >= scopes {
            return false;
        }
    }
    true
}

// Whether no byte is over the count.
#[tactic(auto, using(crate::proofs::TreeLaws::byte_laws))]
fn is_at_most(table: &[u8], scopes: u32) -> bool
    ensures { result ≡ at_most scopes table.now }
{
    for byte in table {
        if u32::from(*byte) > scopes {
            return false;
        }
    }
    true
}

// The number of a table: its bytes in base n + 1, the first leading.
#[tactic(auto, using(crate::proofs::NumberLaws::value_laws))]
fn number_of(table: &[u8]) -> u32
    requires scopes { length table.now ≤ 4 }
    requires bytes { at_most (length table.now) table.now ≡ true }
    ensures number { result ≡ number (length table.now) table.now }
    ensures within { result ≤ 624 }
{
    let base = table.len() as u32 + 1;
    let mut number = 0u32;
    for byte in table {
        number = number * base + u32::from(*byte);
    }
    number
}

// Writes the table of a number: its digits in base n + 1, the last first, which no `for` over the bytes has.
#[tactic(auto, using(crate::proofs::NumberLaws::digit_laws))]
fn write_table(table: &mut [u8], number: u32)
    requires { length table.old ≤ 4 }
    ensures { table.new ≡ table_of (length table.old) number }
{
    let base = table.len() as u32 + 1;
    let mut left = table.len();
    let mut rest = number;
    while 0 < left {
        left -= 1;
        table[left] = (rest % base) as u8;
        rest /= base;
    }
}

// Whether the table of a number is legal.
fn is_legal_number(scopes: u32, number: u32) -> bool
    requires { scopes ≤ 4 }
    ensures { result ≡ legal scopes (table_of scopes number) }
{
    let mut room = [0u8; MOST as usize];
    let table = &mut room[..scopes as usize];
    write_table(table, number);
    is_legal(table, scopes)
}

// How many tables of so many scopes there are.
#[tactic(auto, using(crate::proofs::NumberLaws::total_laws))]
fn total_of(scopes: u32) -> u32
    requires least { 1 ≤ scopes }
    requires most { scopes ≤ 4 }
    ensures { result ≡ total scopes }
{
    (scopes + 1).pow(scopes)
}

// The first number from one on whose table is legal.
#[tactic(auto, using(crate::proofs::ListLaws::first_laws))]
fn first_legal(scopes: u32, from: u32) -> Option<u32>
    requires least { 1 ≤ scopes }
    requires most { scopes ≤ 4 }
    ensures { option_map (λ v. table_of scopes v) result ≡ first_from scopes from }
{
    for number in from..total_of(scopes) {
        if is_legal_number(scopes, number) {
            return Some(number);
        }
    }
    None
}

// Whether the count is one of 1 to 4, and the bytes are as many.
#[tactic(auto, unfolding(answers::specs::Checks::first))]
fn check_count(count: u32, table: &[u8]) -> Result<(), Refusal>
    ensures { result ≡ first (first_checks count table.now) }
{
    if count < 1 || MOST < count {
        return Err(Refusal::ScopeCount);
    }
    if table.len() != count as usize {
        return Err(Refusal::ParentsLength);
    }
    Ok(())
}

// And whether they are a legal table.
#[tactic(auto, using(answers::proofs::Laws::list_laws), unfolding(answers::specs::Checks::first))]
fn check_table(count: u32, table: &[u8]) -> Result<(), Refusal>
    ensures { result ≡ first (next_checks count table.now) }
{
    check_count(count, table)?;
    if !is_at_most(table, count) {
        return Err(Refusal::ParentOutside);
    }
    if !is_legal(table, count) {
        return Err(Refusal::NotATree);
    }
    Ok(())
}

// The first legal table of so many scopes, in the place of the lent bytes.
#[tactic(auto, using(crate::proofs::AnswerLaws::first_laws))]
pub fn first_tree(count: u32, table: &mut [u8]) -> Result<(), Refusal>
    ensures answer { result ≡ first_answer count table.old }
    ensures bytes { table.new ≡ first_bytes count table.old }
{
    check_count(count, table)?;
    write_table(table, 0);
    Ok(())
}

// The next legal table after the one in the lent bytes, in its place; at the end the bytes stay.
#[tactic(auto, using(crate::proofs::AnswerLaws::next_laws))]
pub fn next_tree(count: u32, table: &mut [u8]) -> Result<Next, Refusal>
    ensures answer { result ≡ next_answer count table.old }
    ensures bytes { table.new ≡ next_bytes count table.old }
{
    check_table(count, table)?;
    match first_legal(count, number_of(table) + 1) {
        Some(number) => {
            write_table(table, number);
            Ok(Next::Table)
        }
        None => Ok(Next::End),
    }
}
