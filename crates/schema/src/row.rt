// What rows have in common: how one is read from a record, and the empty one; and the rows of a lent enclave.
ghost use Rattle.std.specs.Prelude.{◌≡◌, ◌+◌, ◌/◌, ◌^◌, ◌<◌, ℕ, List, length};
ghost use Rattle.schema.specs.Tables.{start_of, rows_of, tables};
ghost use Rattle.schema.specs.RowLaws.{PastIs};
ghost use Rattle.schema.specs.Rows.{index_at};

use crate::lent::{Enclave, Pack};
use crate::record::Record;

// What a record holds. `empty` is a type's `Default` where it has one: the trait says what it reads as, which `Default` does not.
pub trait Stored: Copy {
    // What record n of a pack holds.
    ghost at: { List ℕ → ℕ → Self };

    // What a record of zeros holds.
    ghost zeros: { Self };

    fn empty() -> Self
        ensures { result ≡ zeros };

    fn of(from: Record) -> Self
        ensures { result ≡ at from.entry.bytes.now from.entry.number };

    // A record past the pack counts as one of zeros.
    ghost past: { PastIs at zeros };

    // What record n holds; the empty row where the pack ends before it.
    final fn at(pack: Pack, n: usize) -> Self
        ensures { result ≡ at pack.entry.bytes.now n }
    {
        match pack.record(n) {
            Some(record) => Self::of(record),
            None => Self::empty(),
        }
    }
}

// A kind of row: what its records hold, and its table. A table is a number and no enum: it is byte 0 of a record and a place among the starts, and
// a reader finds it in the paper by that number. That it is one of a pack's tables is asked where it counts: `Entry` is a row for any number.
pub trait Row: Stored {
    ghost TABLE: { ℕ };

    const TABLE: u8;
}

// A key of a dense table. Its type says which table: a key of another table is a compile error.
pub trait Key: Copy {
    type Row: Row;

    ghost number: { Self → ℕ };

    fn number(self) -> u32
        ensures { result ≡ number self };

    // Its table is one of a pack's.
    ghost known: { Self.Row.TABLE < tables };
}

// A key that the records of lists hold: its number alone.
pub trait ListKey: Key + Stored {
    ghost stored: { (p : List ℕ) (n : ℕ) → Self.number (Self.at p n) ≡ index_at p n };
}

impl<'a> Enclave<'a> {
    // How many rows a table has: asked of the enclave, as records and rows are, so that the passes need not know where it keeps its starts.
    // Rows are walked by `for i in 0..`: a refusal shows the number, and a key is made of it.
    pub fn rows(&self, table: u8) -> u32
        requires { table < tables }
        ensures { result ≡ rows_of self.now.starts.now.firsts table }
    {
        self.starts.rows(table)
    }

    // The record of row i of a table, for the rows that `row_number` is for: before the enclave's end and a record of the pack, where the table has the row.
    pub fn record(&self, table: u8, i: usize) -> usize
        requires known { table < tables }
        requires within { i < 2 ^ 33 }
        ensures record { result ≡ start_of self.now.starts.now.firsts table + i }
        ensures inside { i < rows_of self.now.starts.now.firsts table → result < start_of self.now.starts.now.firsts tables }
        ensures there { i < rows_of self.now.starts.now.firsts table → result < length self.now.pack.bytes.now / 64 }
    {
        self.starts.record(table, i)
    }

    // The record of row i of a table that has it.
    pub fn record_within(&self, table: u8, i: u32) -> Record<'a>
        requires known { table < tables }
        requires within { i < rows_of self.now.starts.now.firsts table }
        ensures { (result.bytes ≡ self.now.pack.bytes) × (result.number ≡ start_of self.now.starts.now.firsts table + i) }
    {
        Record {
            bytes: self.pack.bytes,
            number: self.record(table, i as usize),
        }
    }

    // Row i of a table that has it.
    pub fn row_within<R: Row>(&self, i: u32) -> R
        requires known { R.TABLE < tables }
        requires within { i < rows_of self.now.starts.now.firsts R.TABLE }
        ensures { result ≡ R.at self.now.pack.bytes.now (start_of self.now.starts.now.firsts R.TABLE + i) }
    {
        R::of(self.record_within(R::TABLE, i))
    }

    // Row i of a table; the empty row where the pack ends before it.
    pub fn row_at<R: Row>(&self, i: usize) -> R
        requires known { R.TABLE < tables }
        requires within { i < 2 ^ 33 }
        ensures { result ≡ R.at self.now.pack.bytes.now (start_of self.now.starts.now.firsts R.TABLE + i) }
    {
        R::at(self.pack, self.record(R::TABLE, i))
    }

    // The row of a key, in its table.
    pub fn row<K: Key>(&self, key: K) -> K::Row
        ensures { result ≡ K.Row.at self.now.pack.bytes.now (start_of self.now.starts.now.firsts K.Row.TABLE + K.number key) }
    {
        self.row_at::<K::Row>(key.number() as usize)
    }
}
