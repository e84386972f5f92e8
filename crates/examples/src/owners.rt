// The owners of modes.
use crate::rows;
use crate::show::show_owner;
use anyhow::Result;
use cases::records::{RecordBytes, Recorded};

// Reactor 0 has the mode 0, and reactor 1 an empty span.
fn moded(scope: u32) -> [RecordBytes; 8] {
    [
        rows::enclave_s().record(),
        rows::reactor(0, 0, 1).record(),
        rows::reactor(1, 1, 0).record(),
        rows::mode(0, scope).record(),
        rows::scope(0).record(),
        rows::scope(1).record(),
        rows::mode_scope(0).record(),
        rows::binding_s().record(),
    ]
}

pub fn cases(rt: &HostRuntime) -> Result<()> {
    show_owner(rt, b"the owner of mode 0", &moded(2), b"ab", 0)?;
    show_owner(rt, b"the mode after the last", &moded(2), b"ab", 1)?;
    show_owner(
        rt,
        b"the last mode of 32 bits",
        &moded(2),
        b"ab",
        4_294_967_295,
    )?;
    let name = b"a mode after the last, of a station that is refused";
    show_owner(rt, name, &moded(3), b"ab", 1)
}
