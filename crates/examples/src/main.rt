// Examples, a line for each with the answer: outside ones for texts and packs; the papers' lines tried by hand, and document 01's misreadings;
// lines at night, rising levels, records that are changed, conversions, scope trees, and tallies; the situations of the operator's files.
#![tactic(auto)]

mod changes;
mod conversions;
mod enclaves;
mod federates;
mod levels;
mod nights;
mod owners;
mod packs;
mod parts;
mod rows;
mod scope_trees;
mod show;
mod situations;
mod tallies;
mod texts;

use anyhow::Result;

fn main(rt: HostRuntime) -> Result<()> {
    texts::cases(&rt)?;
    packs::cases(&rt)?;
    enclaves::cases(&rt)?;
    federates::cases(&rt)?;
    nights::cases(&rt)?;
    owners::cases(&rt)?;
    conversions::cases(&rt)?;
    levels::cases(&rt)?;
    tallies::cases(&rt)?;
    changes::cases(&rt)?;
    scope_trees::cases(&rt)?;
    situations::cases(&rt)?;
    Ok(())
}
