// A lent pack of whole records, where the tables of an enclave begin in it, and a lent enclave.
ghost use Rattle.std.specs.Prelude.{◌≡◌, ◌+◌, ◌/◌, ◌^◌, ◌<◌, ◌≤◌, suc, length, replicate, MatchOption};
ghost use Rattle.schema.specs.Bytes.{Whole};
ghost use Rattle.schema.specs.Records.{records_of, is_of, count_below};
ghost use Rattle.schema.specs.Tables.{start_of, rows_of, IsRising, EndsInside, tables};

use crate::record::Record;
use identity::texts::Texts;

// At most so many bytes are a pack.
pub const PACK_LIMIT: usize = 4_194_304;

// Records of 64 bytes.
#[derive(Clone, Copy)]
pub struct Pack<'a> {
    pub bytes: &'a [u8],
    ghost whole: { Whole bytes.now },
}

impl<'a> Pack<'a> {
    // How many records the pack has.
    pub fn records(self) -> usize
        ensures { result ≡ length self.entry.bytes.now / 64 }
    {
        self.bytes.len() / 64
    }

    // Record n, where the pack has it.
    pub fn record(self, n: usize) -> Option<Record<'a>>
        ensures { MatchOption result (length self.entry.bytes.now / 64 ≤ n) (λ r. (r.bytes ≡ self.entry.bytes) × (r.number ≡ n)) }
    {
        Record::nth(self.bytes, n)
    }

    // Whether record n is of a table; past the pack a record is all zeros.
    #[tactic(auto, using(crate::specs::Past::byte_past))]
    pub fn is_of(self, table: u8, n: usize) -> bool
        ensures { result ≡ is_of self.entry.bytes.now table n }
    {
        match self.record(n) {
            Some(record) => record.table() == table,
            None => table == 0,
        }
    }

    // How many records of a table the pack has. Counted in 32 bits by the loop: `filter(..).count()` would count in 64 and be cast.
    #[tactic(auto, using(crate::proofs::Counts::count_laws))]
    pub fn count_of(self, table: u8) -> u32
        ensures count { let p = self.entry.bytes.now in result ≡ count_below (is_of p table) (records_of p) }
        ensures within { result ≤ length self.entry.bytes.now / 64 }
    {
        let mut found = 0;
        for n in 0..records_of(self.bytes) {
            if self.is_of(table, n as usize) {
                found += 1;
            }
        }
        found
    }
}

// How many records of a pack are looked at: all, and no more than fit the limit.
pub fn records_of(pack: &[u8]) -> u32
    ensures value { result ≡ records_of pack.now }
    ensures inside { result ≤ length pack.now / 64 }
    ensures few { result ≤ 65536 }
{
    (pack.len() / 64).min(PACK_LIMIT / 64) as u32
}

// How many tables there are, 0 to 25.
pub const TABLES: usize = 26;

// The record number of each table's first row in one enclave, and of the enclave's end: by table number, for which a named field each would be no plainer.
#[derive(Clone, Copy)]
pub struct TableStarts {
    pub firsts: [u32; TABLES + 1],
    ghost rising: { IsRising firsts },
}

// The record number of row i of a table, where the tables begin so. Beside `TableStarts::record`, since it holds of starts that need not rise. A range's start and a place in it are added up to i, so that it is below 2^33.
pub fn row_number(firsts: &[u32; TABLES + 1], table: u8, i: usize) -> usize
    requires known { table < tables }
    requires within { i < 2 ^ 33 }
    ensures { result ≡ start_of firsts.now table + i }
{
    firsts[usize::from(table)] as usize + i
}

impl TableStarts {
    // Where the tables of no enclave begin: for lending.
    pub fn none() -> TableStarts
        ensures { result.firsts ≡ replicate (suc tables) 0 }
    {
        TableStarts {
            firsts: [0; TABLES + 1],
        }
    }

    // How many rows a table has.
    pub fn rows(&self, table: u8) -> u32
        requires { table < tables }
        ensures { result ≡ rows_of self.now.firsts table }
    {
        let t = usize::from(table);
        self.firsts[t + 1] - self.firsts[t]
    }

    // The record number of row i of a table, whether or not the table has it.
    pub fn record(&self, table: u8, i: usize) -> usize
        requires known { table < tables }
        requires within { i < 2 ^ 33 }
        ensures { result ≡ start_of self.now.firsts table + i }
    {
        row_number(&self.firsts, table, i)
    }
}

// One enclave of a pack: the number of its own record, where its tables begin, and the two texts that its identities name parts of.
#[derive(Clone, Copy)]
pub struct Enclave<'a> {
    pub pack: Pack<'a>,
    pub own: usize,
    pub starts: &'a TableStarts,
    pub texts: Texts<'a>,
    ghost inside: { EndsInside pack.bytes.now starts.now.firsts },
}
