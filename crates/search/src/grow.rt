// Tables of places, grown along the edges. Whether a table is closed is tested by whoever takes it,
// so promised is only that it keeps what it held: which edges are looked at, when, and by which
// hints are matters of speed alone.
ghost use Rattle.std.specs.Prelude.{◌+◌, ◌≤◌, ◌<◌, length};
ghost use Rattle.block.specs.Layout.{SIZE};
ghost use Rattle.search.specs.Steps.{Kept, Holds};

use crate::closure::barred;
use crate::places::{ALL_STATES, add};
use crate::scan::{least_of, rest_of};
use block::{
    AFTER, BACK, BEFORE, EDGE, FIRST, INTO, LEAVING, SIZE, back_label, back_scope, edge_label,
    edge_scope, has,
};

// Against the edges, from where they lead to; or along them.
#[derive(Clone, Copy)]
pub enum Way {
    Back,
    On,
}

// By which steps a table grows: along the block's edges this way, between free scopes, but for those
// that stopping cuts at a scope of `cutting`. A scope that holds all of `most` can get no more.
#[derive(Clone, Copy)]
struct Growth<'a> {
    block: &'a [u64; SIZE],
    way: Way,
    cutting: u64,
    free: u64,
    most: u64,
}

// A scope comes back only with a new place, so 64 scopes and 64 * 16 places make no more turns.
const TURNS: u64 = 1088;

// A hint's states for a label and a set of states: those before the set, or those behind it.
pub(crate) fn hinted(block: &[u64; SIZE], hint: usize, label: u64, set: u64) -> u64
    requires hint { hint + 512 ≤ SIZE }
{
    let at = hint + (label % 8 * 64) as usize;
    let low = block[at + (set % 16) as usize];
    if set < 16 {
        return low;
    }
    low | block[at + 16 + (set / 16 % 16) as usize]
        | block[at + 32 + (set / 256 % 16) as usize]
        | block[at + 48 + (set / 4096 % 16) as usize]
}

// The states that a label leads to from a set, by the hint that stands above an edge's.
fn states_after(block: &[u64; SIZE], label: u64, set: u64) -> u64 {
    hinted(block, AFTER, label, set) >> LEAVING
}

// The table with the places from which edge number p leads into the set; the edge's scope if it got
// some. What stopping cuts is not added.
fn grow_edge(by: &Growth, table: &mut [u64], set: u64, p: u64) -> u64
    requires table { 64 ≤ length table.old }
    ensures kept { Kept table.old table.new }
{
    let x = by.block[BACK + (p % 512) as usize];
    let from = back_scope(x);
    let old = table[from as usize];
    if old | by.most == old || !has(by.free, from) {
        return 0;
    }
    let label = back_label(x);
    let bar = barred(by.block, by.cutting, from, label);
    let come = hinted(by.block, BEFORE, label, set);
    add(table, from, come ^ (come & bar))
}

// The table with the places that edge number p of scope t leads to from the set; the scope that it
// leads to if it got some. What stopping cuts does not lead on.
fn reach_edge(by: &Growth, table: &mut [u64], set: u64, t: u64, p: u64) -> u64
    requires table { 64 ≤ length table.old }
    requires scope { t < 64 }
    ensures kept { Kept table.old table.new }
{
    let x = by.block[EDGE + (p % 512) as usize];
    let to = edge_scope(x);
    let old = table[to as usize];
    if old | by.most == old || !has(by.free, to) {
        return 0;
    }
    let label = edge_label(x);
    let bar = barred(by.block, by.cutting, t, label);
    add(table, to, states_after(by.block, label, set ^ (set & bar)))
}

// One of the two.
fn spread_edge(by: &Growth, table: &mut [u64], set: u64, t: u64, p: u64) -> u64
    requires table { 64 ≤ length table.old }
    requires scope { t < 64 }
    ensures kept { Kept table.old table.new }
{
    match by.way {
        Way::Back => grow_edge(by, table, set, p),
        Way::On => reach_edge(by, table, set, t, p),
    }
}

// The number of scope t's first edge, as the way goes through them.
pub(crate) fn first_edge(block: &[u64; SIZE], way: Way, t: u64) -> u64
    requires scope { t ≤ 64 }
{
    match way {
        Way::Back => block[INTO + t as usize],
        Way::On => block[FIRST + t as usize],
    }
}

// The same of each edge of scope t; the scopes that got places.
fn spread_from(by: &Growth, table: &mut [u64], t: u64) -> u64
    requires table { 64 ≤ length table.old }
    requires scope { t < 64 }
    ensures kept { Kept table.old table.new }
{
    let set = table[t as usize];
    let end = first_edge(by.block, by.way, t + 1);
    let mut new: u64 = 0;
    for p in first_edge(by.block, by.way, t)..end {
        new = new | spread_edge(by, table, set, t, p);
    }
    new
}

// The same of the scopes of `hot` and of each that got places, until none is left.
fn spread(by: &Growth, table: &mut [u64], hot: u64)
    requires table { 64 ≤ length table.old }
    ensures kept { Kept table.old table.new }
{
    let mut left = hot;
    for _ in 0..TURNS {
        if left == 0 {
            return;
        }
        let t = least_of(left);
        let rest = rest_of(left);
        left = rest | spread_from(by, table, t);
    }
}

// The table with the places of `scopes` and `states`; the scopes that had not all of them.
pub fn seed(table: &mut [u64], scopes: u64, states: u64) -> u64
    requires table { 64 ≤ length table.old }
    ensures held { Holds scopes states table.new }
{
    let mut new: u64 = 0;
    let mut left = scopes;
    while 0 < left {
        new = new | add(table, least_of(left), states);
        left = rest_of(left);
    }
    new
}

// The table with the places of `scopes` and `states`, and those that steps by free scopes lead back
// to from there. `full` are the states from which a label may lead on.
pub fn grow(
    block: &[u64; SIZE],
    cutting: u64,
    free: u64,
    full: u64,
    scopes: u64,
    states: u64,
    table: &mut [u64],
)
    requires table { 64 ≤ length table.old }
    ensures held { Holds scopes states table.new }
{
    let hot = seed(table, scopes, states);
    let by = Growth {
        block,
        way: Way::Back,
        cutting,
        free,
        most: full,
    };
    spread(&by, table, hot & free);
}

// The states that a label leads to, with those that it leads from.
fn mentioned(block: &[u64; SIZE], full: u64) -> u64 {
    let mut out = full;
    for label in 0..8 {
        out = out | states_after(block, label, full);
    }
    out
}

// The places that the table lacks.
fn turn_over(table: &mut [u64])
    requires table { 64 ≤ length table.old }
{
    for s in 0..64 {
        table[s] = ALL_STATES ^ (table[s] & ALL_STATES);
    }
}

// The places that no steps by free scopes lead to from the start in state 0, in an empty table.
pub(crate) fn unreached(
    block: &[u64; SIZE],
    cutting: u64,
    free: u64,
    full: u64,
    start: u64,
    table: &mut [u64],
)
    requires table { 64 ≤ length table.old }
    requires scope { start < 64 }
{
    let hot = add(table, start, 1);
    let by = Growth {
        block,
        way: Way::On,
        cutting,
        free,
        most: mentioned(block, full),
    };
    spread(&by, table, hot);
    turn_over(table);
}
