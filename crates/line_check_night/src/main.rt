// The operator's program for the night; run here on a line with a scope too deep, which the day accepts.
#![tactic(auto)]

use line_check::Profile;
use std::io;

fn main(rt: HostRuntime) -> io::Result<()> {
    line_check::run(&rt, Profile::Night)
}
