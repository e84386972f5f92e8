// The case of what a reaction reaches: the lent bytes are marked, and stand on the line as they then are.
use crate::answer::Answer;
use crate::input::{ReadError, Room, read_lent, read_u32, take};
use rising::marks::Marks;
use rising::rising::count_reached;
use std::io::Read;

// How the marks stand; the lent parts, the reaction's number, and the bytes for the marks.
#[derive(Drop)]
pub struct ReachedCase<'a> {
    pub kind: Marks,
    pub pack: &'a [u8],
    pub batch: &'a [u8],
    pub house: &'a [u8],
    pub reaction: u32,
    pub scratch: &'a mut [u8],
}

// Takes what follows the first byte of such a case.
pub fn read_reached<'a, R: Read>(
    kind: Marks,
    input: &mut R,
    room: &'a mut Room,
) -> Result<ReachedCase<'a>, ReadError> {
    let pack_len = read_u32(input)?;
    let batch_len = read_u32(input)?;
    let house_len = read_u32(input)?;
    let Room {
        pack,
        batch,
        house,
        lent,
    } = room;
    let pack = take(input, pack, pack_len)?;
    let batch = take(input, batch, batch_len)?;
    let house = take(input, house, house_len)?;
    let reaction = read_u32(input)?;
    let len = read_lent(input, lent)?;
    Ok(ReachedCase {
        kind,
        pack,
        batch,
        house,
        reaction,
        scratch: &mut lent[..len],
    })
}

// Marks what the reaction reaches, and counts it.
pub fn reached_answer(case: &mut ReachedCase) -> Answer {
    let scratch = &mut *case.scratch;
    let (pack, batch, house) = (case.pack, case.batch, case.house);
    Answer::Reached(count_reached(pack, batch, house, case.reaction, case.kind, scratch))
}
