// How far what is sought is from each place: hints, so promised is only that memory keeps its size.
ghost use Rattle.std.specs.Prelude.{◌≤◌, ◌<◌, length};

use crate::grow::{Way, first_edge, hinted, seed};
use crate::scan::{least_of, rest_of};
use block::{BACK, BEFORE, SIZE, back_label, back_scope, single};

// A graph with so many edges is dense: distances are counted there, and the nearest way is tried.
// With fewer that takes more than it saves, and a table is grown within what the start reaches.
pub const DENSE: u64 = 256;

// Eight bytes of 1; of 127, all bits below the top one; and with bit i alone in byte i.
const ONES: u64 = 72340172838076673;

const BELOW_TOP: u64 = 9187201950435737471;

const DIAGONAL: u64 = 9241421688590303745;

// Byte i of the answer is 1 if the set has number i, of the first eight.
fn bytes_of(set: u64) -> u64
    ensures small { result ≤ 72340172838076673 }
{
    let copies = set % 256 * ONES;
    let picked = copies & DIAGONAL;
    ((picked + BELOW_TOP) >> 7) & ONES
}

// The first eight states of the set noted at distance d in a cell: a byte for each state.
fn note_half(out: &mut [u64], at: usize, set: u64, d: u64)
    requires inside { at < length out.old }
    requires byte { d < 256 }
{
    out[at] = out[at] | bytes_of(set) * d;
}

// The states of the set at the scope noted at distance d: two cells for each scope, behind the
// table's 64 sets.
fn note_scope(out: &mut [u64], s: u64, set: u64, d: u64)
    requires size { 192 ≤ length out.old }
    requires scope { s < 64 }
    requires byte { d < 256 }
{
    let at = 64 + 2 * s as usize;
    note_half(out, at, set, d);
    note_half(out, at + 1, set / 256, d);
}

// The same of the scopes of `hot` in the layer.
fn note_layer(out: &mut [u64], layer: &[u64], hot: u64, d: u64)
    requires size { 192 ≤ length out.old }
    requires layer { 64 ≤ length layer.now }
    requires byte { d < 256 }
{
    let mut left = hot;
    while 0 < left {
        let s = least_of(left);
        note_scope(out, s, layer[s as usize], d);
        left = rest_of(left);
    }
}

// The places of an edge's scope from which it leads into the set, if they are new, among those held
// and in the next layer; answers the scope if there are some.
fn layer_edge(block: &[u64; SIZE], held: &mut [u64], next: &mut [u64], set: u64, p: u64) -> u64
    requires held { 64 ≤ length held.old }
    requires next { 64 ≤ length next.old }
{
    let x = block[BACK + (p % 512) as usize];
    let from = back_scope(x);
    let old = held[from as usize];
    let come = hinted(block, BEFORE, back_label(x), set);
    if come | old == old {
        return 0;
    }
    held[from as usize] = come | old;
    next[from as usize] = next[from as usize] | (come ^ (come & old));
    single(from)
}

// The same of each edge that leads to scope t; the scopes that got places.
fn layer_into(block: &[u64; SIZE], held: &mut [u64], next: &mut [u64], set: u64, t: u64) -> u64
    requires held { 64 ≤ length held.old }
    requires next { 64 ≤ length next.old }
    requires scope { t < 64 }
{
    let end = first_edge(block, Way::Back, t + 1);
    let mut new: u64 = 0;
    for p in first_edge(block, Way::Back, t)..end {
        new = new | layer_edge(block, held, next, set, p);
    }
    new
}

// The next layer, from the scopes of `hot` in this one.
fn layer_before(
    block: &[u64; SIZE],
    held: &mut [u64],
    layer: &[u64],
    hot: u64,
    next: &mut [u64],
) -> u64
    requires held { 64 ≤ length held.old }
    requires layer { 64 ≤ length layer.now }
    requires next { 64 ≤ length next.old }
{
    let mut new: u64 = 0;
    let mut left = hot;
    while 0 < left {
        let t = least_of(left);
        new = new | layer_into(block, held, next, layer[t as usize], t);
        left = rest_of(left);
    }
    new
}

// How far a place of `scopes` and `states` is from each place, layer by layer, behind the table's
// 64 sets; 0 where that is not found out.
pub(crate) fn put_distances(block: &[u64; SIZE], scopes: u64, states: u64, out: &mut [u64])
    requires size { 192 ≤ length out.old }
{
    let mut layer = [0u64; 64];
    let mut hot = seed(&mut layer, scopes, states);
    let mut held = layer;
    for d in 1..256 {
        note_layer(out, &layer, hot, d);
        let mut next = [0u64; 64];
        hot = layer_before(block, &mut held, &layer, hot, &mut next);
        if hot == 0 {
            return;
        }
        layer = next;
    }
}
