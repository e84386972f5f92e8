// Which reactor a mode of an accepted enclave belongs to, without another look at the reactors past it.
#![tactic(auto)]

ghost use Rattle.std.specs.Prelude.{◌≡◌, MatchOption};
ghost use Rattle.answers.specs.Checks.{first, passed};
ghost use Rattle.checks.specs.Image.{image_of};
ghost use Rattle.enclave.specs.Passes.{enclave_checks};
ghost use Rattle.accepted.specs.Modes.{holds};
ghost use Rattle.mode_owner.specs.Owner.{NoHolder, FirstHolder, image_owner, owner_answer, owner_numbers};

use answers::{Field, Refusal, RowField};
use checks::refs::check_exists;
use enclave::check::check_enclave_starts;
use identity::texts::Texts;
use packing::starts::enclave;
use schema::index::{ModeIndex, ReactorIndex};
use schema::lent::{Enclave, Pack, TableStarts};
use schema::row::Row;
use schema::rows::{ModeImage, ReactorImage};

// A reactor whose span holds a mode, and how many rows of reactors were read to find it.
#[derive(Clone, Copy)]
struct Holder {
    reactor: ReactorIndex,
    rows_read: u32,
}

// The first reactor whose span holds a mode. The rows are counted where they are read: no row past the reactor is.
fn first_holder(e: &Enclave, mode: ModeIndex) -> Option<Holder>
    ensures { let m = image_of e.now in
        MatchOption result (NoHolder (holds m mode.0) (m.rows 2)) (λ h. FirstHolder (holds m mode.0) (m.rows 2) h.reactor.0 h.rows_read) }
{
    let mut rows_read = 0u32;
    for i in 0..e.rows(ReactorImage::TABLE) {
        let reactor = ReactorIndex::new(i);
        let row = e.row(reactor);
        rows_read += 1;
        if row.modes.0.contains(mode.0) {
            return Some(Holder { reactor, rows_read });
        }
    }
    None
}

// The reactor of a mode of an accepted enclave, or that there is no such mode.
fn owner_in(e: &Enclave, mode: ModeIndex) -> Result<ReactorIndex, Refusal>
    requires accepted { first (enclave_checks (image_of e.now)) ≡ passed }
    ensures { owner_numbers result ≡ image_owner (image_of e.now) mode.0 }
{
    let at = RowField {
        table: ModeImage::TABLE,
        index: 0,
        field: Field::Mode,
    };
    check_exists(e.starts, at, mode)?;
    Ok(first_holder(e, mode).unwrap().reactor)
}

// The reactor that a mode of an enclave pack belongs to; the check's refusal, or that the enclave has no such mode.
pub fn mode_owner(
    pack: &[u8],
    batch: &[u8],
    house: &[u8],
    mode: u32,
) -> Result<ReactorIndex, Refusal>
    ensures { owner_numbers result ≡ owner_answer pack.now batch.now house.now mode }
{
    let mut starts = TableStarts::none();
    check_enclave_starts(pack, batch, house, &mut starts)?;
    let texts = Texts { batch, house };
    owner_in(
        &enclave(Pack { bytes: pack }, &starts, texts),
        ModeIndex::new(mode),
    )
}
