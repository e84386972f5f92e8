// The checks of the rows of reactors.
#![tactic(auto, using(answers::proofs::Laws::list_laws), unfolding(answers::specs::Checks::first, crate::specs::Reactors::slot_checks, crate::specs::Reactors::root_scope_checks, crate::specs::Reactors::initial_mode_checks, crate::specs::Reactors::bank_checks))]

ghost use Rattle.std.specs.Prelude.{◌≡◌};
ghost use Rattle.answers.specs.Checks.{first, run};
ghost use Rattle.checks.specs.Image.{image_of};
ghost use Rattle.row_checks.specs.Reactors.{slot_checks, root_scope_checks, initial_mode_checks, bank_checks, reactor_row, reactor_checks};

use crate::bindings::check_binding;
use answers::{Field, Refusal, RowField};
use checks::refs::{check_enclave_span, check_ref};
use range::ModeSpan;
use schema::index::{BankInfoImage, BindingKind, ModeIndex, ReactorIndex, ScopeIndex};
use schema::lent::Enclave;
use schema::row::{Row, Stored};
use schema::rows::{EnclaveImage, ModeImage, ReactorImage};

// A slot is below its bound. By the table's number, since it holds of any table; its two callers have the key whose number they show.
pub fn check_slot(table: u8, bound: u32, index: u32, slot: u32) -> Result<(), Refusal>
    ensures { result ≡ first (slot_checks table bound index slot) }
{
    if slot < bound {
        return Ok(());
    }
    Err(Refusal::StorageBoundExceeded {
        table,
        index,
        slot,
        bound,
    })
}

// The root scope is the reactor's own, and no mode's.
fn check_root_scope(e: &Enclave, key: ReactorIndex, root: ScopeIndex) -> Result<(), Refusal>
    ensures { let m = image_of e.now in result ≡ first (root_scope_checks m.rows m.scopes key.0 root.0) }
{
    let at = RowField::of(key, Field::RootScope);
    let scope = check_ref(e.starts, at, root)?.row(e);
    if scope.reactor == key && scope.mode.is_none() {
        return Ok(());
    }
    Err(Refusal::OwnershipMismatch { at })
}

// The initial mode is there, and one of the reactor's.
fn check_initial_mode(
    e: &Enclave,
    key: ReactorIndex,
    modes: ModeSpan,
    initial: Option<ModeIndex>,
) -> Result<(), Refusal>
    ensures { let m = image_of e.now in result ≡ first (initial_mode_checks m.rows key.0 modes.0 initial) }
{
    let Some(initial) = initial else {
        return Ok(());
    };
    let at = RowField::of(key, Field::InitialMode);
    check_ref(e.starts, at, initial)?;
    if modes.0.contains(initial.0) {
        return Ok(());
    }
    Err(Refusal::OwnershipMismatch { at })
}

fn check_bank(key: ReactorIndex, bank: Option<BankInfoImage>) -> Result<(), Refusal>
    ensures { result ≡ first (bank_checks key.0 bank) }
{
    match bank {
        Some(BankInfoImage { index, total }) if total <= index => Err(Refusal::InvalidBankInfo {
            reactor: key.0,
            index,
            total,
        }),
        _ => Ok(()),
    }
}

// A row, where the modes of the rows before end at `previous_end`.
#[tactic(auto, using(answers::proofs::Laws::list_laws), unfolding(crate::specs::Reactors::reactor_row))]
fn check_reactor_row(
    e: &Enclave,
    key: ReactorIndex,
    row: ReactorImage,
    previous_end: u64,
) -> Result<(), Refusal>
    ensures { result ≡ first (reactor_row (image_of e.now) key.0 row previous_end) }
{
    let at = |field| RowField::of(key, field);
    let kind = BindingKind::StateInitializer;
    check_binding(e, at(Field::StateBinding), kind, row.state_binding)?;
    let bound = EnclaveImage::at(e.pack, e.own).storage_bounds.state_slots;
    check_slot(ReactorImage::TABLE, bound, key.0, row.state_slot)?;
    check_root_scope(e, key, row.root_scope)?;
    check_enclave_span::<ModeImage>(e.starts, at(Field::Modes), row.modes.0, previous_end)?;
    check_initial_mode(e, key, row.modes, row.initial_mode)?;
    check_bank(key, row.bank)
}

#[tactic(auto, using(answers::proofs::Loops::run_laws), unfolding(crate::specs::Reactors::reactor_checks))]
pub fn check_reactors(e: &Enclave) -> Result<(), Refusal>
    ensures { let m = image_of e.now in result ≡ first (run (reactor_checks m) 0 (m.rows 2)) }
{
    let mut previous_end = 0;
    for i in 0..e.rows(ReactorImage::TABLE) {
        let row = e.row_within::<ReactorImage>(i);
        check_reactor_row(e, ReactorIndex::new(i), row, previous_end)?;
        previous_end = row.modes.0.saturating_end();
    }
    Ok(())
}
