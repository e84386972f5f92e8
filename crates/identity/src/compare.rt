// The order of two texts by byte.
ghost use Rattle.std.specs.Prelude.{◌≡◌, ◌≤◌, length};
ghost use Rattle.identity.specs.Order.{compared};
ghost use Rattle.identity.specs.Scan.{every, same_at};

use std::cmp::Ordering;

// Whether the first 32 bytes of both are the same: no branch among them, so that they are compared at once.
// A `for`, since `==` of two slices is a call, which is not inlined, for each block.
#[tactic(auto, using(crate::proofs::Steps::block_laws))]
fn same_block(left: &[u8], right: &[u8]) -> bool
    requires left_inside { 32 ≤ length left.now }
    requires right_inside { 32 ≤ length right.now }
    ensures { result ≡ every (same_at left.now right.now) 0 32 }
{
    let mut same = true;
    for k in 0..32 {
        same &= left[k] == right[k];
    }
    same
}

// The order of two texts, by two places that move on together, each what is left of the part that both are long enough for: by blocks while they are the
// same, then byte by byte; at the end the shorter text comes first. Not `left.cmp(right)`: document 02 asks that a comparison keeps two running places.
#[tactic(auto, using(crate::proofs::Order::order_laws))]
pub fn compare_bytes(left: &[u8], right: &[u8]) -> Ordering
    ensures { result ≡ compared left.now right.now }
{
    let common = left.len().min(right.len());
    let mut a = &left[..common];
    let mut b = &right[..common];
    while 32 <= a.len() && same_block(a, b) {
        a = &a[32..];
        b = &b[32..];
    }
    while 0 < a.len() {
        if a[0] < b[0] {
            return Ordering::Less;
        }
        if b[0] < a[0] {
            return Ordering::Greater;
        }
        a = &a[1..];
        b = &b[1..];
    }
    left.len().cmp(&right.len())
}
