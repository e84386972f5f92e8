// The second check of an enclave pack, and the question what one of its reactions reaches.
ghost use Rattle.std.specs.Prelude.{◌≡◌, ◌≤◌, ◌<◌, length, IfOk};
ghost use Rattle.schema.specs.Bytes.{Whole};
ghost use Rattle.checks.specs.Image.{image_of};
ghost use Rattle.enclave.specs.Answer.{answer_numbers, starts_left};
ghost use Rattle.rising.specs.Rising.{LevelsRise, rising_answer};
ghost use Rattle.rising.specs.Answer.{image_reach, image_scratch, reach_answer, scratch_after};

use crate::levels::check_levels;
use crate::marks::Marks;
use crate::reach::count_from;
use answers::{Field, Refusal, RowField};
use checks::refs::check_exists;
use enclave::check::check_enclave_starts;
use identity::texts::Texts;
use packing::starts::enclave;
use schema::index::ReactionIndex;
use schema::lent::{Enclave, Pack, TableStarts};
use schema::row::Row;
use schema::rows::ReactionImage;

// The second check, with where the pack's tables begin left in `starts` where packing passes: for what is asked after it.
fn check_rising_starts(
    pack: &[u8],
    batch: &[u8],
    house: &[u8],
    starts: &mut TableStarts,
) -> Result<u64, Refusal>
    ensures answer { answer_numbers result ≡ rising_answer pack.now batch.now house.now }
    ensures starts { starts.new.firsts ≡ starts_left pack.now batch.now house.now starts.old.firsts }
    ensures packed { IfOk result (λ links. Whole pack.now × (0 < length pack.now)) }
{
    let links = check_enclave_starts(pack, batch, house, starts)?;
    let texts = Texts { batch, house };
    check_levels(&enclave(Pack { bytes: pack }, starts, texts))?;
    Ok(links)
}

// The answer of the check, and after it that of the levels, which must rise: the same links, or the first fault.
pub fn check_rising(pack: &[u8], batch: &[u8], house: &[u8]) -> Result<u64, Refusal>
    ensures { answer_numbers result ≡ rising_answer pack.now batch.now house.now }
{
    check_rising_starts(pack, batch, house, &mut TableStarts::none())
}

// What is asked of an enclave whose levels rise.
fn count_in(
    e: &Enclave,
    kind: Marks,
    scratch: &mut [u8],
    reaction: ReactionIndex,
) -> Result<u32, Refusal>
    requires rises { LevelsRise (image_of e.now) }
    requires few { (image_of e.now).rows 4 ≤ 65536 }
    ensures answer { answer_numbers result ≡ image_reach kind (image_of e.now) reaction.0 scratch.old }
    ensures scratch { scratch.new ≡ image_scratch kind (image_of e.now) reaction.0 scratch.old }
{
    let at = RowField {
        table: ReactionImage::TABLE,
        index: 0,
        field: Field::Reaction,
    };
    check_exists(e.starts, at, reaction)?;
    if scratch.len() < kind.room(e.rows(ReactionImage::TABLE)) {
        return Err(Refusal::ScratchTooShort);
    }
    Ok(count_from(e, kind, scratch, reaction))
}

// How many other reactions one reaches, in a pack that the second check accepts; the first bytes of `scratch` then mark them.
pub fn count_reached(
    pack: &[u8],
    batch: &[u8],
    house: &[u8],
    reaction: u32,
    kind: Marks,
    scratch: &mut [u8],
) -> Result<u32, Refusal>
    ensures answer { answer_numbers result ≡ reach_answer kind pack.now batch.now house.now reaction scratch.old }
    ensures scratch { scratch.new ≡ scratch_after kind pack.now batch.now house.now reaction scratch.old }
{
    let mut starts = TableStarts::none();
    check_rising_starts(pack, batch, house, &mut starts)?;
    let texts = Texts { batch, house };
    count_in(
        &enclave(Pack { bytes: pack }, &starts, texts),
        kind,
        scratch,
        ReactionIndex::new(reaction),
    )
}
