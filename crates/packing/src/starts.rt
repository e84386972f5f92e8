// Where each table of an enclave begins, in one pass over its records.
ghost use Rattle.std.specs.Prelude.{ℕ, ◌≡◌, ◌-◌, ◌<◌, ◌≤◌, ◌++◌, suc, true, length, take, drop, replicate, leb, MatchOption};
ghost use Rattle.schema.specs.Records.{records_of};
ghost use Rattle.schema.specs.Tables.{tables};
ghost use Rattle.packing.specs.Starts.{reaches, first_reaching, table_starts};

use identity::texts::Texts;
use schema::lent::{Enclave, Pack, TABLES, TableStarts, records_of};
use schema::record::Record;
use schema::row::Row;
use schema::rows::EnclaveImage;

// The table of record k, where that is a row of the enclave; none where the enclave ends, at another's record or past the pack.
fn row_table(p: &[u8], k: u32) -> Option<u8>
    ensures { MatchOption result ((t : ℕ) → reaches p.now t k ≡ true) (λ table. (t : ℕ) → reaches p.now t k ≡ leb t table) }
{
    if records_of(p) <= k {
        return None;
    }
    let record = Record {
        bytes: p,
        number: k as usize,
    };
    let table = record.table();
    if table <= EnclaveImage::TABLE {
        return None;
    }
    Some(table)
}

// Whether record k is table t's first in its enclave, or past it.
fn reaches(p: &[u8], t: usize, k: u32) -> bool
    ensures { result ≡ reaches p.now t k }
{
    match row_table(p, k) {
        Some(table) => t <= usize::from(table),
        None => true,
    }
}

// The first of the records from `from` on that reaches table t; where none does, the number of records, since there the table ends.
#[tactic(auto, using(crate::proofs::TableStarts::search_laws))]
fn first_reaching(p: &[u8], t: usize, from: u32) -> u32
    ensures { result ≡ first_reaching p.now t from (records_of p.now) }
{
    let mut k = from;
    while !reaches(p, t, k) {
        k += 1;
    }
    k
}

// Notes that the tables from t on begin at record k, up to table `end`.
fn note(firsts: &mut [u32; TABLES + 1], t: usize, end: usize, k: u32)
    requires order { t ≤ end }
    requires inside { end ≤ suc tables }
    ensures { firsts.new ≡ take t firsts.old ++ (replicate (end - t) k ++ drop end firsts.old) }
{
    firsts[t..end].fill(k);
}

// Notes where each table begins, from row to row: a row that reaches table t begins all tables from there up to its own, and the next to look at is the first
// that reaches a later one.
fn note_rows(p: &[u8], rows: u32, firsts: &mut [u32; TABLES + 1])
    ensures { firsts.new ≡ table_starts p.now rows }
{
    let mut t = 0;
    let mut k = rows;
    while let Some(table) = row_table(p, k) {
        let end = usize::from(table).min(TABLES) + 1;
        note(firsts, t, end, k);
        t = end;
        k = first_reaching(p, end, k + 1);
    }
    note(firsts, t, TABLES + 1, k);
}

// Notes the starts of the tables in the enclave whose rows start at record `rows`: where they are lent from, so that they are written once.
pub fn note_starts(p: &[u8], rows: u32, starts: &mut TableStarts)
    ensures { starts.new.firsts ≡ table_starts p.now rows }
{
    note_rows(p, rows, &mut starts.firsts);
}

// The starts by themselves.
pub fn table_starts(p: &[u8], rows: u32) -> TableStarts
    ensures { result.firsts ≡ table_starts p.now rows }
{
    let mut starts = TableStarts::none();
    note_starts(p, rows, &mut starts);
    starts
}

// The enclave that a pack with a record holds.
#[tactic(auto, using(crate::proofs::TableStarts::starts_inside))]
pub fn enclave<'a>(pack: Pack<'a>, starts: &'a TableStarts, texts: Texts<'a>) -> Enclave<'a>
    requires some { 0 < length pack.bytes.now }
    requires starts { starts.now.firsts ≡ table_starts pack.bytes.now 1 }
    ensures pack { result.pack ≡ pack.entry }
    ensures own { result.own ≡ 0 }
    ensures starts { result.starts ≡ starts.entry }
    ensures texts { result.texts ≡ texts.entry }
{
    Enclave {
        pack,
        own: 0,
        starts,
        texts,
    }
}
