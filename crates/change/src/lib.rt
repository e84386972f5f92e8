// One record of a line pack changed, or tried first: the answer is that of the new line, and nothing is written before all of it is accepted.
#![tactic(auto)]

ghost use Rattle.std.specs.Prelude.{◌≡◌, ◌/◌, ◌<◌, ◌≤◌, [], ◌∷◌, length};
ghost use Rattle.answers.specs.Checks.{first};
ghost use Rattle.federate.specs.Answer.{federate_numbers, federate_answer};
ghost use Rattle.change.specs.Change.{length_check, place_checks, changed, change_answer, pack_after};

use answers::Refusal;
use federate::FederateAccepted;
use federate::check::check_federate;
use schema::lent::PACK_LIMIT;
use schema::record::Record;

// A pack of up to so many bytes is copied into an array of this size, so that a small one does not pay for clearing a large array; a larger pack into one
// for any pack.
const FEW_BYTES: usize = 4_096;

const SOME_BYTES: usize = 65_536;

// A row is one record's bytes.
#[tactic(auto, unfolding(answers::specs::Checks::first))]
fn check_length(row: &[u8]) -> Result<(), Refusal>
    ensures { result ≡ first (length_check row.now ∷ []) }
{
    if row.len() != 64 {
        return Err(Refusal::RecordLength);
    }
    Ok(())
}

// The pack has the record, and the row is of its table.
#[tactic(auto, unfolding(answers::specs::Checks::first))]
fn check_place(pack: &[u8], number: u32, row: &[u8]) -> Result<(), Refusal>
    requires { length row.now ≡ 64 }
    ensures { result ≡ first (place_checks pack.now number row.now) }
{
    let Some(record) = Record::nth(pack, number as usize) else {
        return Err(Refusal::NoSuchRecord);
    };
    if row[0] != record.table() {
        return Err(Refusal::TableChanges);
    }
    Ok(())
}

// Writes the row over the record.
fn put(pack: &mut [u8], number: u32, row: &[u8])
    requires there { number < length pack.old / 64 }
    requires sized { length row.now ≡ 64 }
    ensures { pack.new ≡ changed pack.old number row.now }
{
    let at = number as usize * 64;
    pack[at..at + 64].copy_from_slice(row);
}

// The answer for a copy of the pack with the row written, in an array of ROOM bytes: a frame of its own, which smaller packs do not pay for.
#[inline(never)]
fn check_copy<const ROOM: usize>(
    pack: &[u8],
    batch: &[u8],
    house: &[u8],
    number: u32,
    row: &[u8],
) -> Result<FederateAccepted, Refusal>
    requires room { length pack.now ≤ ROOM }
    requires few { ROOM ≤ 4194304 }
    requires there { number < length pack.now / 64 }
    requires sized { length row.now ≡ 64 }
    ensures { federate_numbers result ≡ federate_answer (changed pack.now number row.now) batch.now house.now }
{
    let mut room = [0u8; ROOM];
    let copy = &mut room[..pack.len()];
    copy.copy_from_slice(pack);
    put(copy, number, row);
    check_federate(copy, batch, house)
}

// The answer for the pack with the row written, which a copy of it is.
fn check_changed(
    pack: &[u8],
    batch: &[u8],
    house: &[u8],
    number: u32,
    row: &[u8],
) -> Result<FederateAccepted, Refusal>
    requires few { length pack.now ≤ 4194304 }
    requires there { number < length pack.now / 64 }
    requires sized { length row.now ≡ 64 }
    ensures { federate_numbers result ≡ federate_answer (changed pack.now number row.now) batch.now house.now }
{
    if pack.len() <= FEW_BYTES {
        return check_copy::<FEW_BYTES>(pack, batch, house, number, row);
    }
    if pack.len() <= SOME_BYTES {
        return check_copy::<SOME_BYTES>(pack, batch, house, number, row);
    }
    check_copy::<PACK_LIMIT>(pack, batch, house, number, row)
}

// What `change_record` would answer of a copy of the pack. Nothing is written.
#[tactic(auto, using(crate::proofs::Steps::preview_laws))]
pub fn preview_record(
    pack: &[u8],
    batch: &[u8],
    house: &[u8],
    number: u32,
    row: &[u8],
) -> Result<FederateAccepted, Refusal>
    ensures { federate_numbers result ≡ change_answer pack.now batch.now house.now number row.now }
{
    check_length(row)?;
    check_federate(pack, batch, house)?;
    check_place(pack, number, row)?;
    check_changed(pack, batch, house, number, row)
}

// Writes a row over one record of a line pack where the line is accepted before and after, and answers for the line after; else a refusal, and the pack
// stays as it was.
#[tactic(auto, using(crate::proofs::After::change_laws))]
pub fn change_record(
    pack: &mut [u8],
    batch: &[u8],
    house: &[u8],
    number: u32,
    row: &[u8],
) -> Result<FederateAccepted, Refusal>
    ensures answer { federate_numbers result ≡ change_answer pack.old batch.now house.now number row.now }
    ensures pack { pack.new ≡ pack_after pack.old batch.now house.now number row.now }
{
    let accepted = preview_record(pack, batch, house, number, row)?;
    put(pack, number, row);
    Ok(accepted)
}
