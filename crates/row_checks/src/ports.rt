// The checks of the rows of ports.
#![tactic(auto, using(answers::proofs::Laws::list_laws), unfolding(answers::specs::Checks::first, crate::specs::Ports::port_row))]

ghost use Rattle.std.specs.Prelude.{◌≡◌};
ghost use Rattle.answers.specs.Checks.{first, run};
ghost use Rattle.checks.specs.Image.{image_of};
ghost use Rattle.row_checks.specs.Ports.{port_row, port_checks};

use crate::bindings::check_binding;
use answers::{Field, Refusal, RowField};
use checks::refs::{check_enclave_range, check_exists};
use schema::entries::ReactionTrigger;
use schema::index::{BindingKind, PortIndex};
use schema::lent::Enclave;
use schema::row::Row;
use schema::rows::PortImage;

// A row, where the triggers of the rows before end at `previous_end`.
fn check_port_row(
    e: &Enclave,
    key: PortIndex,
    row: PortImage,
    previous_end: u64,
) -> Result<(), Refusal>
    ensures { result ≡ first (port_row (image_of e.now) key.0 row previous_end) }
{
    let at = |field| RowField::of(key, field);
    check_binding(e, at(Field::Binding), BindingKind::Port, row.binding)?;
    check_exists(e.starts, at(Field::Scope), row.scope)?;
    check_enclave_range::<ReactionTrigger>(
        e.starts,
        at(Field::Triggers),
        row.triggers,
        previous_end,
    )
}

#[tactic(auto, using(answers::proofs::Loops::run_laws), unfolding(crate::specs::Ports::port_checks))]
pub fn check_ports(e: &Enclave) -> Result<(), Refusal>
    ensures { let m = image_of e.now in result ≡ first (run (port_checks m) 0 (m.rows 4)) }
{
    let mut previous_end = 0;
    for i in 0..e.rows(PortImage::TABLE) {
        let row = e.row_within::<PortImage>(i);
        check_port_row(e, PortIndex::new(i), row, previous_end)?;
        previous_end = row.triggers.saturating_end();
    }
    Ok(())
}
