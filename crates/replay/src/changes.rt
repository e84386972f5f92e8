// The case of a record that is changed or tried: its pack is lent to be written, and stands on the line as it then is.
use crate::answer::Answer;
use crate::input::{ReadError, Room, keep, read_lent, read_u32, take};
use change::{change_record, preview_record};
use std::io::Read;

// Longer packs are not printed: a case with one is of no known kind.
const LONGEST: u32 = 65_536;

// Whether the record is changed or only tried; the lent parts, the record's number, and the row.
#[derive(Drop)]
pub struct ChangeCase<'a> {
    pub writes: bool,
    pub pack: &'a mut [u8],
    pub batch: &'a [u8],
    pub house: &'a [u8],
    pub number: u32,
    pub row: &'a [u8],
}

// Takes what follows the first byte of such a case.
pub fn read_change<'a, R: Read>(
    writes: bool,
    input: &mut R,
    room: &'a mut Room,
) -> Result<ChangeCase<'a>, ReadError> {
    let pack_len = read_u32(input)?;
    let batch_len = read_u32(input)?;
    let house_len = read_u32(input)?;
    if pack_len > LONGEST {
        return Err(ReadError::UnknownKind);
    }
    let Room {
        pack,
        batch,
        house,
        lent,
    } = room;
    let kept = keep(input, pack, pack_len)?;
    let batch = take(input, batch, batch_len)?;
    let house = take(input, house, house_len)?;
    let number = read_u32(input)?;
    let row_len = read_lent(input, lent)?;
    Ok(ChangeCase {
        writes,
        pack: &mut pack[..kept],
        batch,
        house,
        number,
        row: &lent[..row_len],
    })
}

// Changes the record, or tries it.
pub fn change_answer(case: &mut ChangeCase) -> Answer {
    let pack = &mut *case.pack;
    if case.writes {
        let changed = change_record(pack, case.batch, case.house, case.number, case.row);
        return Answer::Federate(changed);
    }
    let tried = preview_record(pack, case.batch, case.house, case.number, case.row);
    Answer::Federate(tried)
}
