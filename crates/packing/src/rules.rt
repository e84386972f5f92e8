// The packing rules: lengths, then record by record the table's place, stray bytes, and each identity's text.
ghost use Rattle.std.specs.Prelude.{◌≡◌, ◌/◌, ◌<◌, ◌≤◌, is_ok, IfErr, length, IfOk};
ghost use Rattle.answers.specs.Checks.{first, run};
ghost use Rattle.schema.specs.Bytes.{byte_of};
ghost use Rattle.packing.specs.Shape.{layout_of};
ghost use Rattle.packing.specs.Packing.{pack_fits, row_after, first_table, table_after, in_place, identity_at, identity_checks, record_checks, packing_checks, pack_outcome};

use crate::PackKind;
use crate::clean::{clean, past_clean};
use crate::shape::shape_of;
use crate::walker::walker_at;
use answers::Refusal;
use identity::IdentityPlace;
use identity::scan::is_utf8;
use identity::texts::Texts;
use schema::lent::{PACK_LIMIT, Pack, TABLES};
use schema::record::Record;
use schema::row::Row;
use schema::rows::{EnclaveImage, FederateImage};

pub const TEXT_LIMIT: usize = 65_536;

// Whether a record of `table` may follow one of `previous`.
fn row_after(previous: u8, table: u8) -> bool
    ensures { result ≡ row_after previous table }
{
    EnclaveImage::TABLE < table && usize::from(table) < TABLES && previous <= table
}

// The kinds of pack are document 01's two. In the rules they differ in the order of tables alone, which stands here: a check for each kind, or a type
// parameter for it, would be two copies of the rest.
impl PackKind {
    fn first_table(self) -> u8
        ensures { result ≡ first_table self }
    {
        match self {
            PackKind::Enclave => EnclaveImage::TABLE,
            PackKind::Federate => FederateImage::TABLE,
        }
    }

    // Whether a record of `table` may follow one of `previous` in such a pack.
    fn table_after(self, previous: u8, table: u8) -> bool
        ensures { result ≡ table_after self previous table }
    {
        match self {
            PackKind::Enclave => row_after(previous, table),
            PackKind::Federate => {
                table == EnclaveImage::TABLE
                    || (EnclaveImage::TABLE <= previous && row_after(previous, table))
            }
        }
    }
}

// Whether a record's table is in its place.
#[tactic(auto, using(crate::proofs::Packed::place_laws))]
pub fn in_place(kind: PackKind, item: Record) -> bool
    ensures { result ≡ in_place kind item.entry.bytes.now item.entry.number }
{
    if item.number == 0 {
        return item.table() == kind.first_table();
    }
    let previous = Record {
        bytes: item.bytes,
        number: item.number - 1,
    };
    kind.table_after(previous.table(), item.table())
}

// The place of identity j.
#[tactic(auto, using(crate::proofs::Tables::identity_laws))]
fn identity_at(item: Record, j: u8) -> IdentityPlace
    requires { j < (layout_of (byte_of item.bytes.now item.number 0)).identities }
    ensures { result ≡ identity_at item.entry.bytes.now item.entry.number j }
{
    item.place(item.has(u32::from(j)), 4 + 8 * usize::from(j))
}

// A record of a pack within the limit, and the texts that its identities are parts of.
#[derive(Clone, Copy)]
struct Named<'a> {
    item: Record<'a>,
    texts: Texts<'a>,
    ghost few: { length item.bytes.now ≤ 4194304 },
}

impl<'a> Named<'a> {
    // The record's number, as refusals carry it.
    fn number(self) -> u32
        ensures { result ≡ self.entry.item.number }
    {
        self.item.number as u32
    }

    // The checks of identity j.
    #[tactic(auto, unfolding(answers::specs::Checks::first, crate::specs::Packing::identity_checks))]
    fn check_identity(self, j: u8) -> Result<(), Refusal>
        requires { j < (layout_of (byte_of self.item.bytes.now self.item.number 0)).identities }
        ensures { let r = self.entry.item in let t = self.entry.texts in result ≡ first (identity_checks r.bytes.now t.batch.now t.house.now r.number j) }
    {
        let place = identity_at(self.item, j);
        if !self.texts.holds(place) {
            return Err(Refusal::IdentityOutside {
                record: self.number(),
            });
        }
        if !is_utf8(self.texts.identity_text(place)) {
            return Err(Refusal::NotUtf8 {
                record: self.number(),
            });
        }
        Ok(())
    }

    // The checks of the record's identities, `count` of them, in field order.
    #[tactic(auto, using(answers::proofs::Loops::run_laws))]
    fn check_identities(self, count: u8) -> Result<(), Refusal>
        requires { count ≡ (layout_of (byte_of self.item.bytes.now self.item.number 0)).identities }
        ensures { let r = self.entry.item in let t = self.entry.texts in let p = r.bytes.now
            in result ≡ first (run (identity_checks p t.batch.now t.house.now r.number) 0 count) }
    {
        for j in 0..count {
            self.check_identity(j)?;
        }
        Ok(())
    }

    // The checks of the record in a pack of that kind.
    #[tactic(auto, unfolding(answers::specs::Checks::first, crate::specs::Packing::record_checks))]
    fn check(self, kind: PackKind) -> Result<(), Refusal>
        ensures { let r = self.entry.item in let t = self.entry.texts in result ≡ first (record_checks kind r.bytes.now t.batch.now t.house.now r.number) }
    {
        if !in_place(kind, self.item) {
            return Err(Refusal::TableOutOfPlace {
                record: self.number(),
            });
        }
        if !clean(self.item) {
            return Err(Refusal::StrayByte {
                record: self.number(),
            });
        }
        self.check_identities(shape_of(self.item.table()).identities)
    }
}

// The checks of all records, as the walker yields them. Where a table has no identities, the clean records of it that follow pass: by `while let`, since
// such a run moves the walker on, which a `for` would hold. The pack goes beside its texts, which a record's check takes with each record.
#[tactic(auto, using(answers::proofs::Loops::run_laws))]
fn check_records(kind: PackKind, pack: Pack, texts: Texts) -> Result<(), Refusal>
    requires { length pack.bytes.now ≤ 4194304 }
    ensures { let p = pack.entry.bytes.now in let t = texts.entry
        in result ≡ first (run (record_checks kind p t.batch.now t.house.now) 0 (length p / 64)) }
{
    let mut walker = walker_at(pack.bytes, 0);
    while let Some(item) = walker.next() {
        let table = item.table();
        Named { item, texts }.check(kind)?;
        let shape = shape_of(table);
        if shape.identities == 0 {
            walker.place = past_clean(pack.bytes, walker.place, pack.records(), table);
        }
    }
    Ok(())
}

// The pack of these bytes, where they are whole records, one at least and no more than the limit.
pub fn whole_pack<'a>(bytes: &'a [u8]) -> Result<Pack<'a>, Refusal>
    ensures fits { is_ok result ≡ pack_fits bytes.now }
    ensures refused { IfErr result (λ r. r ≡ Refusal.Length) }
    ensures same { IfOk result (λ pack. pack.bytes.now ≡ bytes.now) }
    ensures some { IfOk result (λ pack. 0 < length pack.bytes.now) }
    ensures few { IfOk result (λ pack. length pack.bytes.now ≤ 4194304) }
{
    let len = bytes.len();
    if len == 0 || PACK_LIMIT < len || len % 64 != 0 {
        return Err(Refusal::Length);
    }
    Ok(Pack { bytes })
}

// The pack of these bytes, where it passes the packing rules over its two texts.
#[tactic(auto, unfolding(answers::specs::Checks::first, crate::specs::Packing::packing_checks))]
pub fn checked_pack<'a>(kind: PackKind, bytes: &'a [u8], texts: Texts) -> Result<Pack<'a>, Refusal>
    ensures outcome { pack_outcome result ≡ first (packing_checks kind bytes.now texts.entry.batch.now texts.entry.house.now) }
    ensures lent { IfOk result (λ pack. pack.bytes.now ≡ bytes.now) }
    ensures some { IfOk result (λ pack. 0 < length pack.bytes.now) }
    ensures few { IfOk result (λ pack. length pack.bytes.now ≤ 4194304) }
{
    let pack = whole_pack(bytes)?;
    if TEXT_LIMIT < texts.batch.len() {
        return Err(Refusal::TextTooLong { house: false });
    }
    if TEXT_LIMIT < texts.house.len() {
        return Err(Refusal::TextTooLong { house: true });
    }
    check_records(kind, pack, texts)?;
    Ok(pack)
}

// The packing rules of a pack over its two texts, without the pack for an answer. It takes the three as a host lends them.
pub fn check_packing(kind: PackKind, pack: &[u8], batch: &[u8], house: &[u8]) -> Result<(), Refusal>
    ensures { result ≡ first (packing_checks kind pack.now batch.now house.now) }
{
    checked_pack(kind, pack, Texts { batch, house })?;
    Ok(())
}
