// Each record's table and stray bytes, refusals 3 and 4: looked at in the pack itself, since turning keeps what they look at.
ghost use Rattle.std.specs.Prelude.{◌≡◌, ◌/◌, ◌≤◌, length};
ghost use Rattle.answers.specs.Checks.{first, run};
ghost use Rattle.convert.specs.Convert.{shape_checks};

use answers::Refusal;
use packing::PackKind;
use packing::clean::clean;
use packing::rules::in_place;
use schema::lent::Pack;
use schema::record::Record;

// The checks of one record.
#[tactic(auto, unfolding(answers::specs::Checks::first, crate::specs::Convert::shape_checks))]
fn check_shape(kind: PackKind, item: Record) -> Result<(), Refusal>
    requires { length item.bytes.now ≤ 4194304 }
    ensures { result ≡ first (shape_checks kind item.entry.bytes.now item.entry.number) }
{
    if !in_place(kind, item) {
        return Err(Refusal::TableOutOfPlace {
            record: item.number as u32,
        });
    }
    if !clean(item) {
        return Err(Refusal::StrayByte {
            record: item.number as u32,
        });
    }
    Ok(())
}

// The checks of all records.
#[tactic(auto, using(answers::proofs::Loops::run_laws))]
pub fn check_shapes(kind: PackKind, pack: Pack) -> Result<(), Refusal>
    requires { length pack.bytes.now ≤ 4194304 }
    ensures { let p = pack.entry.bytes.now in result ≡ first (run (shape_checks kind p) 0 (length p / 64)) }
{
    let records = pack.records();
    for n in 0..records {
        let item = Record {
            bytes: pack.bytes,
            number: n,
        };
        check_shape(kind, item)?;
    }
    Ok(())
}
