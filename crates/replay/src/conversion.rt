// The case of a conversion: its texts are passed over, and its output is lent to be written.
use crate::input::{ReadError, Room, pass_over, read_lent, read_u32, take};
use answers::Refusal;
use convert::convert;
use packing::PackKind;
use std::io::Read;

// What the pack is, and the lent parts.
#[derive(Drop)]
pub struct Conversion<'a> {
    pub kind: PackKind,
    pub pack: &'a [u8],
    pub output: &'a mut [u8],
}

// Takes whether the pack is a station's or a line's.
fn read_pack_kind<R: Read>(input: &mut R) -> Result<PackKind, ReadError> {
    match read_u32(input)? {
        0 => Ok(PackKind::Enclave),
        1 => Ok(PackKind::Federate),
        _ => Err(ReadError::UnknownKind),
    }
}

// Takes what follows the first byte of such a case.
pub fn read_conversion<'a, R: Read>(
    input: &mut R,
    room: &'a mut Room,
) -> Result<Conversion<'a>, ReadError> {
    let pack_len = read_u32(input)?;
    let batch_len = read_u32(input)?;
    let house_len = read_u32(input)?;
    let Room { pack, lent, .. } = room;
    let pack = take(input, pack, pack_len)?;
    pass_over(input, batch_len as usize)?;
    pass_over(input, house_len as usize)?;
    let kind = read_pack_kind(input)?;
    let output_len = read_lent(input, lent)?;
    Ok(Conversion {
        kind,
        pack,
        output: &mut lent[..output_len],
    })
}

// Converts the pack into the output.
pub fn conversion_answer(case: &mut Conversion) -> Result<(), Refusal> {
    let output = &mut *case.output;
    convert(case.kind, case.pack, output)
}
