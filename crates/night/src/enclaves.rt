// What the night asks of each enclave of a federate: few reactors, no scope too deep, every route logical.
ghost use Rattle.std.specs.Prelude.{◌≡◌};
ghost use Rattle.answers.specs.Checks.{first, run};
ghost use Rattle.schema.specs.Records.{records_of};
ghost use Rattle.checks.specs.Image.{image_of};
ghost use Rattle.night.specs.Enclaves.{reactors_checks, depth_checks, domain_checks, night_enclave_checks, routes_at, night_record_checks};

use answers::Refusal;
use federate::records::{Enclaves, FederateEnclave, enclave_pack_to};
use identity::texts::Texts;
use packing::starts::{enclave, note_starts};
use route_pairs::Federate;
use schema::index::{ScopeIndex, TimingDomain};
use schema::lent::{Enclave, TableStarts};
use schema::row::Row;
use schema::rows::{ReactorImage, RouteImage, ScopeImage};
use scope_checks::links::links_by;

// At night an enclave has at most so many reactors, and a scope at most so many ancestors.
const MOST_REACTORS: u32 = 64;

const MOST_ANCESTORS: u32 = 8;

#[tactic(auto, unfolding(answers::specs::Checks::first, crate::specs::Enclaves::reactors_checks))]
fn check_reactors(e: &Enclave, enclave: u32) -> Result<(), Refusal>
    ensures { let m = image_of e.now in result ≡ first (reactors_checks enclave (m.rows 2)) }
{
    let reactors = e.rows(ReactorImage::TABLE);
    if MOST_REACTORS < reactors {
        return Err(Refusal::TooManyReactors { enclave, reactors });
    }
    Ok(())
}

// No depths are kept: the first walk over more than eight parents is the last one.
#[tactic(auto, using(crate::proofs::EnclaveLaws::known_empty), unfolding(answers::specs::Checks::first, crate::specs::Enclaves::depth_checks))]
fn check_depth(e: &Enclave, enclave: u32, scope: ScopeIndex) -> Result<(), Refusal>
    ensures { result ≡ first (depth_checks enclave (image_of e.now) scope.0) }
{
    if MOST_ANCESTORS < links_by(e, &[], scope) {
        return Err(Refusal::ScopeTooDeep {
            enclave,
            scope: scope.0,
        });
    }
    Ok(())
}

#[tactic(auto, using(answers::proofs::Loops::run_laws))]
fn check_depths(e: &Enclave, enclave: u32) -> Result<(), Refusal>
    ensures { let m = image_of e.now in result ≡ first (run (depth_checks enclave m) 0 (m.rows 7)) }
{
    for scope in 0..e.rows(ScopeImage::TABLE) {
        check_depth(e, enclave, ScopeIndex::new(scope))?;
    }
    Ok(())
}

#[tactic(auto, unfolding(answers::specs::Checks::first, crate::specs::Enclaves::domain_checks))]
fn check_domain(e: &Enclave, enclave: u32, route: u32) -> Result<(), Refusal>
    ensures { let routes = routes_at e.now.pack.bytes.now e.now.starts.now.firsts
        in result ≡ first (domain_checks enclave routes route) }
{
    if e.row_at::<RouteImage>(route as usize).timing_domain == TimingDomain::Physical {
        return Err(Refusal::PhysicalRoute { enclave, route });
    }
    Ok(())
}

#[tactic(auto, using(answers::proofs::Loops::run_laws))]
fn check_domains(e: &Enclave, enclave: u32) -> Result<(), Refusal>
    ensures { let routes = routes_at e.now.pack.bytes.now e.now.starts.now.firsts
        in let m = image_of e.now in result ≡ first (run (domain_checks enclave routes) 0 (m.rows 23)) }
{
    for route in 0..e.rows(RouteImage::TABLE) {
        check_domain(e, enclave, route)?;
    }
    Ok(())
}

// An enclave by its place among the federate's.
#[tactic(auto, using(answers::proofs::Laws::list_laws), unfolding(crate::specs::Enclaves::night_enclave_checks))]
fn check_enclave_at_night(e: &Enclave, enclave: u32) -> Result<(), Refusal>
    ensures { let routes = routes_at e.now.pack.bytes.now e.now.starts.now.firsts
        in result ≡ first (night_enclave_checks enclave (image_of e.now) routes) }
{
    check_reactors(e, enclave)?;
    check_depths(e, enclave)?;
    check_domains(e, enclave)
}

// The enclave of a record, by its own pack.
#[tactic(auto, using(federate::proofs::Ends::part_some, crate::proofs::EnclaveLaws::own_checks))]
fn check_own(own: FederateEnclave, texts: Texts) -> Result<(), Refusal>
    ensures { let t = texts.entry in result ≡ first (night_record_checks own.entry.pack.bytes.now t.batch.now t.house.now own.entry.number) }
{
    let part = enclave_pack_to(own.pack, own.number, own.end);
    let mut starts = TableStarts::none();
    note_starts(part.bytes, 1, &mut starts);
    check_enclave_at_night(&enclave(part, &starts, texts), own.place)
}

// Every enclave in turn.
#[tactic(auto, using(crate::proofs::EnclaveLaws::gap_laws))]
pub fn check_enclaves_at_night(federate: Federate) -> Result<(), Refusal>
    ensures { let f = federate.entry in let p = f.pack.bytes.now
        in result ≡ first (run (night_record_checks p f.texts.batch.now f.texts.house.now) 0 (records_of p)) }
{
    for own in Enclaves::of(federate.pack) {
        check_own(own, federate.texts)?;
    }
    Ok(())
}
