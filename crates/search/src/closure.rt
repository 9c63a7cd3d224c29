// The test that a table of places is closed: by the edges and transitions themselves, so that
// nothing depends on how the table was made.
ghost use Rattle.std.specs.Prelude.{◌≡◌, true, false, ℕ, ◌≤◌, ◌<◌, length};
ghost use Rattle.scope_graph.specs.Turns.{Turned};
ghost use Rattle.block.specs.Sets.{has_scope, has_state};
ghost use Rattle.block.specs.Block.{Bounds, next_cell, hop_of};
ghost use Rattle.search.specs.Tables.{place_flag};
ghost use Rattle.search.specs.Conditions.{way_of};
ghost use Rattle.search.specs.Steps.{HopClosed, ScopeClosed, HopsClosed, Leading};

use crate::places::ALL_STATES;
use crate::scan::{least_of, rest_of};
use block::{
    SIZE, accept_set, edge_at, edge_label, edge_scope, edges_end, edges_from, has, has_state,
    next_state, pair, state_count,
};

// The first n states, as a set; all 16 from 16 on.
fn first_states(n: u64) -> u64
    ensures answer { (q : ℕ) → q < 16 → q < n → has_state result q ≡ true }
{
    if n < 16 { (1 << n) - 1 } else { ALL_STATES }
}

// The states from which a label may lead on. (That the block's cells are within bounds is asked by
// clauses, here and above, and kept by no type: the block is a plain array that is filled cell by
// cell, and has bounds only once it is whole.)
pub fn leading(block: &[u64; SIZE]) -> u64
    requires bounds { Bounds block.now }
    ensures leading { Leading block.now result }
{
    first_states(state_count(block))
}

// The states in which stopping cuts the label at the scope.
pub fn barred(block: &[u64; SIZE], cutting: u64, s: u64, label: u64) -> u64
    requires scope { s < 64 }
    requires label { label < 8 }
    ensures cut { (q : ℕ) (t : Turned) → t.label ≡ label → has_state result q ≡ true → way_of block.now cutting s q t ≡ false }
{
    if has(cutting, s) && pair(block, 0, label + 1) {
        accept_set(block)
    } else {
        0
    }
}

// Does the label lead from a state of `from` into the set?
fn leads_into(block: &[u64; SIZE], from: u64, set: u64, label: u64) -> bool
    requires label { label < 8 }
    ensures none { result ≡ false → (q : ℕ) → has_state from q ≡ true → has_state set (next_cell block.now q label) ≡ false }
{
    let mut left = from;
    while 0 < left {
        let q = least_of(left);
        if has_state(set, next_state(block, q % 16, label)) {
            return true;
        }
        left = rest_of(left);
    }
    false
}

// Does the table lack a place of the scope that the edge leads from? `full` are the states that
// matter.
fn edge_lacks(
    block: &[u64; SIZE],
    cutting: u64,
    free: u64,
    full: u64,
    table: &[u64],
    s: u64,
    x: u64,
) -> bool
    requires leading { Leading block.now full }
    requires table { 64 ≤ length table.now }
    requires scope { s < 64 }
    ensures closed { result ≡ false → HopClosed block.now (way_of block.now cutting) (has_scope free) (place_flag table.now) s (hop_of x) }
{
    let to = edge_scope(x);
    let set = table[to as usize];
    if set == 0 || !has(free, to) {
        return false;
    }
    let label = edge_label(x);
    let have = table[s as usize] | barred(block, cutting, s, label);
    leads_into(block, full ^ (full & have), set, label)
}

// Does the table lack no place of the scope? It lacks none if it holds all states that matter.
fn scope_closed(
    block: &[u64; SIZE],
    cutting: u64,
    free: u64,
    full: u64,
    table: &[u64],
    s: u64,
) -> bool
    requires leading { Leading block.now full }
    requires table { 64 ≤ length table.now }
    requires scope { s < 64 }
    ensures closed { result ≡ true → ScopeClosed block.now (way_of block.now cutting) (has_scope free) (place_flag table.now) s }
{
    let held = table[s as usize];
    if held | full == held {
        return true;
    }
    let end = edges_end(block, s);
    for p in edges_from(block, s)..end {
        if edge_lacks(block, cutting, free, full, table, s, edge_at(block, p)) {
            return false;
        }
    }
    true
}

// Does the table lack nothing that an edge leads from, of free scopes?
pub fn is_closed(block: &[u64; SIZE], cutting: u64, free: u64, full: u64, table: &[u64]) -> bool
    requires leading { Leading block.now full }
    requires table { 64 ≤ length table.now }
    ensures closed { result ≡ true → HopsClosed block.now (way_of block.now cutting) (has_scope free) (place_flag table.now) }
{
    let mut left = free;
    while 0 < left {
        if !scope_closed(block, cutting, free, full, table, least_of(left)) {
            return false;
        }
        left = rest_of(left);
    }
    true
}
