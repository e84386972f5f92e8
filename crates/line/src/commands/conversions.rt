// A pack from the other make of machine, or for it: read from one file and written to another.
ghost use Rattle.std.specs.Prelude.{◌≤◌};

use crate::answer::{Ended, write_no_answer, write_refused};
use crate::files::{put_in_place, read_file};
use anyhow::Result;
use convert::convert;
use packing::PackKind;
use std::io::Write;

// In a frame of its own, with room for so many bytes of each pack.
#[inline(never)]
pub(crate) fn convert_file<W: Write, const PACK: usize>(
    rt: &HostRuntime,
    out: &mut W,
    kind: PackKind,
    from: &str,
    to: &str,
) -> Result<Ended>
    requires { PACK ≤ 8388608 }
{
    let pack = &mut [0u8; PACK];
    let output = &mut [0u8; PACK];
    let len = match read_file(rt, from, pack) {
        Ok(len) => len,
        Err(error) => return Ok(write_no_answer(out, error)?),
    };
    if let Err(refusal) = convert(kind, &pack[..len], output) {
        return Ok(write_refused(out, refusal)?);
    }
    put_in_place(rt, to, None, &output[..len])?;
    writeln!(out, "converted")?;
    Ok(Ended::Yes)
}
