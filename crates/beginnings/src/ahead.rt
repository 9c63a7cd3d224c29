// Fewer neighbours, so that less is counted, and sooner. The scopes are taken in stages of a width,
// in the sequence in which they are met from the start on; a scope's neighbours in earlier stages
// are left out. A path then leaves a stage for good, and what lies behind is counted once for all
// paths that come to it. Where no step is cut, the count is not below what is counted so.
ghost use Rattle.std.specs.Prelude.{◌≡◌, ◌<◌, length};

use block::{single, taken};
use search::ALL;

// The scopes to take next: those at hand, or where there are none the neighbours not taken yet.
fn at_hand(layer: u64, beyond: u64, done: u64) -> u64 {
    if layer == 0 {
        return beyond ^ (beyond & done);
    }
    layer
}

// The scopes of this stage and of later ones: where a stage begins, those that are not taken yet.
fn not_earlier(left: u64, done: u64, i: u64, width: u64) -> u64
    requires width { 0 < width }
{
    if i % width == 0 {
        return ALL ^ (ALL & done);
    }
    left
}

// The neighbours of each scope that are not in an earlier stage; none for a scope that is not met.
pub(crate) fn ahead(near: &[u64], start: u64, width: u64) -> [u64; 64]
    requires near { length near.now ≡ 64 }
    requires start { start < 64 }
    requires width { 0 < width }
{
    let mut out = [0u64; 64];
    let mut layer = single(start);
    let mut beyond: u64 = 0;
    let mut done: u64 = 0;
    let mut left: u64 = 0;
    for i in 0..64 {
        layer = at_hand(layer, beyond, done);
        if layer == 0 {
            return out;
        }
        left = not_earlier(left, done, i, width);
        let u = u64::trailing_zeros(layer) as u64 % 64;
        out[u as usize] = near[u as usize] & left;
        beyond = beyond | near[u as usize];
        done = done | single(u);
        layer = taken(layer, u);
    }
    out
}
