// The pack in words, record by record.
pub(crate) mod fields;
pub(crate) mod names;
pub(crate) mod rows;
pub(crate) mod words;

use crate::image::Image;
use crate::show::rows::{RowText, Rows};
use std::io;
use std::io::Write;

// Which records are asked for: all, or those of a station by its place, of a table, of a row there.
#[derive(Clone, Copy)]
struct Wanted {
    station: Option<u32>,
    table: Option<u8>,
    row: Option<u32>,
}

impl Wanted {
    fn is_all(self) -> bool {
        self.station.is_none() && self.table.is_none() && self.row.is_none()
    }

    fn has(self, row: RowText) -> bool {
        let table = row.record.table();
        (self.station.is_none() || self.station == row.place())
            && self.table.is_none_or(|wanted| wanted == table)
            && self.row.is_none_or(|wanted| wanted == row.index)
    }
}

// Writes a line for each whole record that is asked for, and says whether there is any.
fn show_rows<W: Write>(out: &mut W, image: &Image, wanted: Wanted) -> io::Result<bool> {
    let mut found = false;
    for row in Rows::of(*image) {
        if wanted.has(row) {
            writeln!(out, "{row}")?;
            found = true;
        }
    }
    Ok(found)
}

// The pack, a line for each record: all of it, with how many bytes stand after its last whole record, or what is asked for; false where there is no such
// station, table or row.
pub(crate) fn show<W: Write>(
    out: &mut W,
    image: &Image,
    station: Option<u32>,
    table: Option<u8>,
    row: Option<u32>,
) -> io::Result<bool> {
    let wanted = Wanted {
        station,
        table,
        row,
    };
    let found = show_rows(out, image, wanted)?;
    if !wanted.is_all() {
        return Ok(found);
    }
    let left = image.pack.len() % 64;
    if left != 0 {
        writeln!(out, "{left} bytes are left, too few for a record")?;
    }
    Ok(true)
}
