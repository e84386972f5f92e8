// The station that is drawn, and how its rows are found: of any pack that is packed, so that a row that is named need not be there.
use crate::picture::boxes::Boxes;
use crate::picture::ports::Ports;
use crate::picture::refused::Refused;
use crate::picture::text::{Quoted, RowAt};
use range::SliceRange;
use schema::index::{BindingSlotIndex, ModeIndex, ScopeIndex};
use schema::lent::{Enclave, TABLES};
use schema::row::{Key, Row};
use schema::rows::{RequiredBindingImage, ScopeImage};
use std::io;
use std::io::Write;

// A station with more records is not drawn: Graphviz would take minutes, and nobody would find anything.
pub(crate) const LIMIT: usize = 4096;

// What every part of a picture looks at.
#[derive(Clone, Copy)]
pub(crate) struct Station<'a> {
    pub(crate) e: Enclave<'a>,
    pub(crate) refused: Refused<'a>,
    pub(crate) boxes: &'a Boxes,
    pub(crate) ports: &'a Ports,
}

// How many rows a table has.
pub(crate) fn rows_of(e: &Enclave, table: u8) -> u32 {
    if usize::from(table) < TABLES {
        return e.rows(table);
    }
    0
}

// Whether the row of a key is there.
pub(crate) fn has<K: Key>(e: &Enclave, key: K) -> bool {
    key.number() < e.rows(K::Row::TABLE)
}

// Whether a scope is the root of the reactor that it names.
pub(crate) fn is_root(e: &Enclave, key: ScopeIndex, row: ScopeImage) -> bool {
    has(e, row.reactor) && e.row(row.reactor).root_scope == key
}

// Whether a mode and its scope name each other: the scope's box is then the mode's.
pub(crate) fn has_box(e: &Enclave, mode: ModeIndex) -> bool {
    let scope = e.row(mode).scope;
    has(e, scope) && e.row(scope).mode == Some(mode)
}

// Whether it is the first mode of its reactor.
pub(crate) fn is_initial(e: &Enclave, mode: ModeIndex) -> bool {
    let reactor = e.row(mode).reactor;
    has(e, reactor) && e.row(reactor).initial_mode == Some(mode)
}

// Where the entries of a range that are in their table end.
pub(crate) fn end_in(e: &Enclave, table: u8, range: SliceRange) -> u32 {
    range.start.saturating_add(range.len).min(rows_of(e, table))
}

impl<'a> Station<'a> {
    // Whether a row is there.
    pub(crate) fn has_row(&self, row: RowAt) -> bool {
        row.index < rows_of(&self.e, row.table)
    }

    // Whether the refusal is about this row, or about the binding that it needs.
    pub(crate) fn is_refused(&self, row: RowAt, binding: BindingSlotIndex) -> bool {
        self.refused.marks(row) || self.refused.marks(RowAt::of(binding))
    }

    // The name that a binding has.
    pub(crate) fn write_name<W: Write>(
        &self,
        out: &mut W,
        key: BindingSlotIndex,
    ) -> io::Result<()> {
        if !has(&self.e, key) {
            return write!(out, "required_bindings[{}]: missing", key.0);
        }
        let row: RequiredBindingImage = self.e.row(key);
        write!(out, "{}", Quoted(self.e.texts.identity_text(row.id)))
    }

    // Ends a label and what else is said of a node, an arrow or a box; one of a refused row is marked.
    pub(crate) fn end_label<W: Write>(
        &self,
        out: &mut W,
        refused: bool,
        look: &str,
    ) -> io::Result<()> {
        if !refused {
            return write!(out, "\" {look}");
        }
        write!(out, "\\nrefused {}\" {look} ", self.refused.number())?;
        write!(out, "color=\"#d00000\" fontcolor=\"#d00000\" penwidth=4")
    }

    // Ends a node or an arrow.
    pub(crate) fn end_node<W: Write>(
        &self,
        out: &mut W,
        refused: bool,
        look: &str,
    ) -> io::Result<()> {
        self.end_label(out, refused, look)?;
        writeln!(out, "];")
    }
}
