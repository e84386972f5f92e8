// The walk of the scopes' parents: the links followed, and the cycles. Each scope's links are found once: a walk ends at the first scope whose
// depth is known, and the depths of the scopes on its way are written after it. A depth is a scope's links + 1, or 0 where they are not known.
#![tactic(auto)]

ghost use Rattle.std.specs.Prelude.{◌≡◌, ◌+◌, ◌≤◌, get_or};
ghost use Rattle.checks.specs.Image.{image_of};
ghost use Rattle.scope_checks.specs.Links.{links_of, links, parents, cycle_checks};
ghost use Rattle.scope_checks.specs.Depths.{Known, all_parents};
ghost use Rattle.answers.specs.Checks.{first, run, answer_of};

use answers::Refusal;
use schema::index::ScopeIndex;
use schema::lent::Enclave;
use schema::row::Row;
use schema::rows::ScopeImage;

// Of so few scopes each walk is as short as to write depths and to look them up.
const FEWEST: usize = 8;

// Room for the depths of few scopes, of many, and of as many as a pack has records: 256 bytes, 16 KiB and 256 KiB of stack.
const FEW: usize = 64;

const MANY: usize = 4096;

const MOST: usize = 65536;

// The depth of a scope. None past the array is ever known: the answers are right with an array of any length. 0 stands for a depth that is not
// known, since an `Option`, of a `NonZeroU32` too, takes 8 bytes for 4 in the frame.
fn depth_of(depths: &[u32], scope: ScopeIndex) -> u32
    ensures { result ≡ get_or depths.now scope.0 0 }
{
    depths.get(scope.0 as usize).copied().unwrap_or(0)
}

// The parent of a scope.
pub fn parent_of(e: &Enclave, scope: ScopeIndex) -> Option<ScopeIndex>
    ensures { result ≡ parents (image_of e.now) scope.0 }
{
    e.row(scope).parent
}

// The links of a scope: parents followed until none, or until as many as there are scopes. It ends at the first whose depth is known; a caller may lend none.
#[tactic(auto, using(crate::proofs::LinksLaws::followed_laws), unfolding(crate::specs::Depths::Known))]
pub fn links_by(e: &Enclave, depths: &[u32], scope: ScopeIndex) -> u32
    requires { Known (image_of e.now) depths.now }
    ensures { let m = image_of e.now in result ≡ links_of (parents m) (m.rows 7) scope.0 }
{
    let scopes = e.rows(ScopeImage::TABLE);
    let mut at = scope;
    for followed in 0..scopes {
        let depth = depth_of(depths, at);
        if depth != 0 {
            return followed + (depth - 1).min(scopes - followed);
        }
        let Some(parent) = parent_of(e, at) else {
            return followed;
        };
        at = parent;
    }
    scopes
}

// The same where no depth is known.
#[tactic(auto, using(crate::proofs::DepthLaws::known_nowhere))]
pub fn links_of(e: &Enclave, scope: ScopeIndex) -> u32
    ensures { let m = image_of e.now in result ≡ links_of (parents m) (m.rows 7) scope.0 }
{
    links_by(e, &[], scope)
}

// Writes the depth of a scope and those of the scopes above it, up to the first that is known: from parent to parent, and
// no range or iterator has that order.
#[tactic(auto, using(crate::proofs::LinksLaws::followed_laws, crate::proofs::DepthLaws::known_set))]
fn settle(e: &Enclave, depths: &mut [u32], mut scope: ScopeIndex, mut depth: u32)
    requires known { Known (image_of e.now) depths.old }
    requires links { let m = image_of e.now in depth ≡ links_of (parents m) (m.rows 7) scope.0 + 1 }
    requires ends { let m = image_of e.now in depth ≤ m.rows 7 }
    ensures { Known (image_of e.now) depths.new }
{
    while (scope.0 as usize) < depths.len() && depths[scope.0 as usize] == 0 {
        depths[scope.0 as usize] = depth;
        let Some(parent) = parent_of(e, scope) else {
            return;
        };
        scope = parent;
        depth -= 1;
    }
}

// The parents of every scope. Scopes past the depths' array are walked to the end each time. By `for`: each step may refuse, and writes depths, which `sum`
// would leave to a closure.
#[tactic(auto, using(answers::proofs::Loops::run_laws, crate::proofs::LinksLaws::below_laws), unfolding(crate::specs::Links::links_below))]
#[inline(always)]
fn follow_parents(e: &Enclave, depths: &mut [u32]) -> Result<u64, Refusal>
    requires { Known (image_of e.now) depths.old }
    ensures { result ≡ all_parents (image_of e.now) }
{
    let scopes = e.rows(ScopeImage::TABLE);
    let mut links: u64 = 0;
    for i in 0..scopes {
        let followed = links_by(e, depths, ScopeIndex::new(i));
        if followed >= scopes {
            return Err(Refusal::ScopeParentCycle { scope: i });
        }
        settle(e, depths, ScopeIndex::new(i), followed + 1);
        links += u64::from(followed);
    }
    Ok(links)
}

// With room for N depths. The array is in this function's frame, and in no caller's: smaller images do not pay for it.
#[tactic(auto, using(crate::proofs::DepthLaws::known_none))]
#[inline(never)]
fn follow_with<const N: usize>(e: &Enclave) -> Result<u64, Refusal>
    requires { N ≤ 65536 }
    ensures { result ≡ all_parents (image_of e.now) }
{
    follow_parents(e, &mut [0u32; N])
}

// The parents of every scope: the links followed, or the first scope whose parents do not end. Each scope's links are found once, with room for
// as many depths as there are scopes, and with none for the fewest.
#[tactic(auto, using(crate::proofs::DepthLaws::known_nowhere))]
#[inline(always)]
pub fn check_parents(e: &Enclave) -> Result<u64, Refusal>
    ensures { let m = image_of e.now in result ≡ answer_of (first (run (cycle_checks m) 0 (m.rows 7))) (links m) }
{
    let scopes = e.rows(ScopeImage::TABLE) as usize;
    if scopes <= FEWEST {
        follow_parents(e, &mut [])
    } else if scopes <= FEW {
        follow_with::<FEW>(e)
    } else if scopes <= MANY {
        follow_with::<MANY>(e)
    } else {
        follow_with::<MOST>(e)
    }
}
