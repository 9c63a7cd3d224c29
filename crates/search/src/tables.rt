// The tables of places that a search skips by. A table is grown and then tested; only one that is
// closed is taken, and otherwise the table of all places, which is closed too. Which closed table
// it is is left open: any will do, and only time depends on it.
ghost use Rattle.std.specs.Prelude.{ℕ, ◌≤◌, ◌<◌, length};
ghost use Rattle.block.specs.Sets.{has_scope, places_of};
ghost use Rattle.block.specs.Block.{Bounds};
ghost use Rattle.search.specs.Live.{Closed};
ghost use Rattle.search.specs.Tables.{place_flag, table_board};
ghost use Rattle.search.specs.Conditions.{way_of, LiveAt, AwayAt};

use crate::ALL;
use crate::closure::{is_closed, leading};
use crate::grow::{grow, unreached};
use crate::near::{DENSE, put_distances};
use crate::places::all_places;
use block::{EDGES, SIZE, accept_set};

// The places worth entering on the way to a place of `scopes` and `states` by free scopes, but by
// no step that a scope of `cutting` cuts.
pub fn live_table(
    block: &[u64; SIZE],
    cutting: u64,
    scopes: u64,
    states: u64,
    free: u64,
) -> [u64; 64]
    requires bounds { Bounds block.now }
    ensures closed { (goal : ℕ) → Closed (table_board block.now goal) (places_of scopes states) (way_of block.now cutting) (has_scope free) (place_flag result) }
{
    let full = leading(block);
    let mut out = [0u64; 64];
    grow(block, cutting, free, full, scopes, states, &mut out);
    if is_closed(block, cutting, free, full, &out) {
        return out;
    }
    all_places()
}

// What a table of places starts with on the way to what is sought, with distances behind its sets:
// in a graph that is not dense those that are not reached from the start, in others none.
fn prepare(block: &[u64; SIZE], goal: u64, free: u64, full: u64, start: u64, out: &mut [u64])
    requires size { 192 ≤ length out.old }
    requires scope { start < 64 }
{
    if goal == 0 {
        return;
    }
    if block[EDGES] < DENSE {
        unreached(block, 0, free, full, start, out);
        return;
    }
    put_distances(block, goal, accept_set(block), out);
}

// The places worth entering on the way to what is sought from the start, by any step, and behind
// the 64 sets how far it is from each place: a byte for each state, two cells for each scope, 0
// where that was not found out. On the distances no answer depends, only which way is tried first.
pub fn goal_table(block: &[u64; SIZE], goal: u64, free: u64, start: u64) -> [u64; 192]
    requires bounds { Bounds block.now }
    requires scope { start < 64 }
    ensures live { LiveAt block.now goal (has_scope free) result }
{
    let full = leading(block);
    let mut out = [0u64; 192];
    prepare(block, goal, free, full, start, &mut out);
    grow(block, 0, free, full, goal, accept_set(block), &mut out);
    if is_closed(block, 0, free, full, &out) {
        return out;
    }
    all_places()
}

// The places that no steps lead to from the start in state 0, but those that are cut. Promised is
// that the table is closed, and no more: who uses it looks whether the start is in it.
pub fn away_table(block: &[u64; SIZE], goal: u64, start: u64) -> [u64; 64]
    requires bounds { Bounds block.now }
    requires scope { start < 64 }
    ensures away { AwayAt block.now goal result }
{
    let full = leading(block);
    let mut out = [0u64; 64];
    unreached(block, goal, ALL, full, start, &mut out);
    if is_closed(block, goal, ALL, full, &out) {
        return out;
    }
    all_places()
}
