// The night profile of the federate check: a stricter acceptance, after the day's (document 02, Wish 2).
#![tactic(auto)]

ghost use Rattle.std.specs.Prelude.{◌≡◌};
ghost use Rattle.answers.specs.Checks.{first};
ghost use Rattle.federate.specs.Answer.{federate_numbers};
ghost use Rattle.night.specs.Halves.{DayPairs};
ghost use Rattle.night.specs.Night.{night_checks, night_answer};

pub mod enclaves;
pub mod halves;

use answers::Refusal;
use enclaves::check_enclaves_at_night;
use federate::FederateAccepted;
use federate::check::check_federate;
use halves::check_halves;
use identity::texts::Texts;
use route_pairs::Federate;
use schema::lent::Pack;

// The night's own checks of a federate whose routes pass the day's.
#[tactic(auto, using(answers::proofs::Laws::list_laws), unfolding(crate::specs::Night::night_checks))]
fn check_rules(federate: Federate) -> Result<(), Refusal>
    requires { DayPairs federate }
    ensures { let f = federate.entry in result ≡ first (night_checks f.pack.bytes.now f.texts.batch.now f.texts.house.now) }
{
    check_enclaves_at_night(federate)?;
    check_halves(federate)
}

// The day's answer for a federate pack and its two texts, as a host lends them; an accepted one stands where the night's rules hold, and else the first fault
// against them is answered.
pub fn check_federate_night<'a>(
    pack: &'a [u8],
    batch: &'a [u8],
    house: &'a [u8],
) -> Result<FederateAccepted, Refusal>
    ensures { federate_numbers result ≡ night_answer pack.now batch.now house.now }
{
    let accepted = check_federate(pack, batch, house)?;
    let texts = Texts { batch, house };
    let pack = Pack { bytes: pack };
    check_rules(Federate { pack, texts })?;
    Ok(accepted)
}
