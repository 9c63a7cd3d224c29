// The states of the smallest table, met breadth-first by label number.
ghost use Rattle.std.specs.Prelude.{◌≡◌, ◌<◌, ◌≤◌, length};
ghost use Rattle.path_rules.specs.Walk.{start_walk, to_state, to_new, arrived, reached, walk_turn, walk_to};

use crate::sets::LABELS;
use crate::vectors::{Positions, place_same, positions_after, same};

// How many states a table may have, and a cell for each by each of eight labels.
pub const STATES: usize = 16;

pub const CELLS: usize = STATES * LABELS;

// What stands in a cell that leads nowhere.
pub const NOWHERE: u64 = 16;

// States met so far, each with its set of positions, and where each leads by each label, at state *
// 8 + label, 16 for nowhere. The cells are numbers, as the theorem `numbered` speaks of them.
#[derive(Clone, Copy)]
pub struct Walk {
    pub states: usize,
    pub sets: [u64; STATES],
    pub next: [u64; CELLS],
}

fn start_walk(start: u64) -> Walk
    ensures answer { result ≡ start_walk start }
{
    let mut sets = [0; STATES];
    sets[0] = start;
    Walk {
        states: 1,
        sets,
        next: [NOWHERE; CELLS],
    }
}

fn to_state(mut w: Walk, k: usize, j: usize) -> Walk
    requires cell { k < 128 }
    ensures answer { result ≡ to_state w k j }
{
    w.next[k] = j as u64;
    w
}

fn to_new(mut w: Walk, k: usize, t: u64) -> Walk
    requires room { (k < 128) × (w.states < 16) }
    ensures answer { result ≡ to_new w k t }
{
    w.sets[w.states] = t;
    w.next[k] = w.states as u64;
    w.states += 1;
    w
}

// The set t is reached at cell k; `like` is the place of a state like it. None if it would be a
// seventeenth state.
#[tactic(auto, unfolding(crate::specs::Walk::arrived))]
fn arrive(w: Walk, k: usize, t: u64, like: Option<usize>) -> Option<Walk>
    requires cell { k < 128 }
    ensures answer { result ≡ arrived w k t like }
{
    match like {
        Some(j) => Some(to_state(w, k, j)),
        None if w.states < STATES => Some(to_new(w, k, t)),
        None => None,
    }
}

// The set t is reached at cell k. A set that meets no vector is dead, and no state.
#[tactic(auto, unfolding(crate::specs::Walk::reached))]
fn reach(vs: &[u64], w: Walk, k: usize, t: u64) -> Option<Walk>
    requires room { (k < 128) × (w.states ≤ 16) × (length w.sets ≡ 16) }
    ensures answer { result ≡ reached vs.now w k t }
{
    if same(vs, t, 0) {
        return Some(w);
    }
    let like = place_same(vs, &w.sets[..w.states], t);
    arrive(w, k, t, like)
}

// What cell k leads to, if its state is met already.
#[tactic(auto, unfolding(crate::specs::Walk::walk_turn))]
fn walk_turn(vs: &[u64], positions: &Positions, w: Walk, k: usize) -> Option<Walk>
    requires room { (k < 128) × (w.states ≤ 16) × (length w.sets ≡ 16) }
    ensures answer { result ≡ walk_turn vs.now positions.now.after positions.now.labels k w }
{
    if w.states <= k / LABELS {
        return Some(w);
    }
    let s = w.sets[k / LABELS];
    reach(vs, w, k, positions_after(positions, s, (k % LABELS) as u64))
}

// The whole walk; none if it meets a seventeenth state.
pub fn walk_all(vs: &[u64], positions: &Positions, start: u64) -> Option<Walk>
    ensures answer { result ≡ walk_to vs.now positions.now.after positions.now.labels start 128 }
{
    let mut w = start_walk(start);
    for k in 0..CELLS {
        w = walk_turn(vs, positions, w, k)?;
    }
    Some(w)
}
