// The commands: each has its answer written, and says how it ended.
pub(crate) mod changes;
pub(crate) mod conversions;
pub(crate) mod directory;
pub(crate) mod pictures;
pub(crate) mod scope_trees;
pub(crate) mod stations;
pub(crate) mod tallies;

use crate::answer::Ended;
use crate::arguments::{Command, Request};
use crate::show::names::list_names;
use anyhow::Result;
use std::io::Write;

// With room for a byte more than a pack and a text may have, by which a longer file is told.
pub(crate) fn answer<W: Write>(rt: &HostRuntime, out: &mut W, request: Request) -> Result<Ended> {
    match request.command {
        Command::InDirectory { dir, asked } => {
            directory::answer::<W, 4_194_305, 65_537>(rt, out, dir, asked, request.explain)
        }
        Command::Convert { kind, from, to } => {
            conversions::convert_file::<W, 4_194_305>(rt, out, kind, from, to)
        }
        Command::Trees { scopes } => Ok(scope_trees::list(out, scopes)?),
        Command::Tally { file } => tallies::tally_file(rt, out, file),
        Command::Names => {
            list_names(out)?;
            Ok(Ended::Yes)
        }
    }
}
