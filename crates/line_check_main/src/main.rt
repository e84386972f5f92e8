// The operator's program; run here on document 01's line.
#![tactic(auto)]

use line_check::Profile;
use std::io;

fn main(rt: HostRuntime) -> io::Result<()> {
    line_check::run(&rt, Profile::Day)
}
