// The automaton's tables: the next states and the states that accept, made of its rows; and of the
// block that these were put into, the states from which transitions lead on, and those in which an
// end is usable.
ghost use Rattle.std.specs.Prelude.{◌≡◌, Bool, ℕ, ◌≤◌, ◌<◌, length};
ghost use Rattle.block.specs.Sets.{has_state};
ghost use Rattle.block.specs.Block.{next_cell, accept_set};
ghost use Rattle.graph_table.specs.Sections.{rows_of};
ghost use Rattle.board.specs.Tables.{tabulate, transition_cells, accepted, leads_into, round_flag, round_set, states_below, hopeful_set, usable_flag, usable_states};
ghost use Rattle.board.specs.Places.{transition_place};

use block::{BETTER, DELTA, SIZE, accept_set, has_state, next_state};
use graph_table::{ROW, TransitionRow, first_value, transition_row};

// The first round gives the states that accept; 16 transitions are enough, as there are 16 states.
const ROUNDS: u64 = 17;

// Where the table has the row's next state: at state * 8 + label; a row out of range has no place.
fn place_of(row: TransitionRow) -> Option<usize>
    ensures answer { result ≡ transition_place row.state row.label }
{
    if row.state < 16 && row.label < 8 {
        Some((row.state * 8 + row.label) as usize)
    } else {
        None
    }
}

// The next state by state and label, at state * 8 + label; 16 for none. From the last row up, so
// that of two rows for one cell the first counts.
pub fn transition_table(rows: &[u64]) -> [u64; 128]
    ensures answer { result ≡ transition_cells (rows_of rows.now) }
{
    let mut t = [16; 128];
    for i in (0..rows.len() / ROW).rev() {
        let row = transition_row(rows, i * ROW);
        if let Some(place) = place_of(row) {
            t[place] = row.next;
        }
    }
    t
}

// The states that accept.
pub fn accepting(rows: &[u64]) -> u64
    ensures answer { (q : ℕ) → q < 16 → has_state result q ≡ accepted (rows_of rows.now) q }
{
    let mut out = 0;
    for i in 0..rows.len() / ROW {
        let q = first_value(rows, i * ROW);
        if q < 16 {
            out |= 1 << q;
        }
    }
    out
}

// The set of the states that pass the test.
fn states_where<F: Fn(u64) -> bool>(test: F) -> u64
    requires callable { (q : ℕ) → q < 16 → F.pre test q }
    ensures answer { (f : ℕ → Bool) → ((q : ℕ) (r : Bool) → q < 16 → F.post test q r → r ≡ f q) → result ≡ states_below f 16 }
{
    let mut out = 0;
    for q in 0..16 {
        if test(q) {
            out |= 1 << q;
        }
    }
    out
}

// The next state's cell, of the 128 cells of next states.
fn next_of(delta: &[u64], q: u64, l: u64) -> u64
    requires table { length delta.now ≡ 128 }
    requires state { q < 16 }
    requires label { l < 8 }
    ensures answer { result ≡ next_cell delta.now q l }
{
    delta[(q * 8 + l) as usize]
}

// Does a transition lead from the state into the set? None leads into the empty one, which every
// file's first round asks for.
fn leads(delta: &[u64], set: u64, q: u64) -> bool
    requires table { length delta.now ≡ 128 }
    requires state { q < 16 }
    ensures answer { result ≡ leads_into (next_cell delta.now) set q }
{
    if set == 0 {
        return false;
    }
    for l in (0..8).rev() {
        if has_state(set, next_of(delta, q, l)) {
            return true;
        }
    }
    false
}

// Does the state accept, or a transition lead from it into the set?
fn hopes(delta: &[u64], accept: u64, set: u64, q: u64) -> bool
    requires table { length delta.now ≡ 128 }
    requires state { q < 16 }
    ensures answer { result ≡ round_flag (next_cell delta.now) accept set q }
{
    has_state(accept, q) || leads(delta, set, q)
}

// One round: the states that accept, and those from which a transition leads into the set.
fn round(delta: &[u64], accept: u64, set: u64) -> u64
    requires table { length delta.now ≡ 128 }
    ensures answer { result ≡ round_set (next_cell delta.now) accept set }
{
    states_where(|q| hopes(delta, accept, set, q))
}

// The states from which transitions alone lead to one that accepts, by 128 cells of next states and
// the set of those that accept. A round that adds nothing is the last.
pub fn hopeful(delta: &[u64], accept: u64) -> u64
    requires table { length delta.now ≡ 128 }
    ensures answer { result ≡ hopeful_set (next_cell delta.now) accept }
{
    let mut set = 0;
    for _ in 0..ROUNDS {
        let next = round(delta, accept, set);
        if next == set {
            break;
        }
        set = next;
    }
    set
}

// Is the end usable in the state?
fn usable(block: &[u64; SIZE], hopes: u64, q: u64, end: u64) -> bool
    requires state { q < 16 }
    requires end { end < 9 }
    ensures answer { result ≡ usable_flag (next_cell block.now) (accept_set block.now) hopes q end }
{
    if end == 0 {
        return has_state(accept_set(block), q);
    }
    has_state(hopes, next_state(block, q, end - 1))
}

// For each end the states in which it is usable.
pub fn usable_table(block: &[u64; SIZE]) -> [u64; 9]
    ensures answer { result ≡ tabulate (usable_states (next_cell block.now) (accept_set block.now) (hopeful_set (next_cell block.now) (accept_set block.now))) 9 }
{
    let hopes = hopeful(&block[..BETTER], accept_set(block));
    let mut t = [0; 9];
    for (end, set) in t.iter_mut().enumerate() {
        *set = states_where(|q| usable(block, hopes, q, end as u64));
    }
    t
}

// One past the last state from which a label leads on.
pub fn states_of(block: &[u64; SIZE]) -> u64
    ensures still { (q l : ℕ) → result ≤ q → 16 ≤ next_cell block.now q l }
{
    for i in (0..128).rev() {
        if block[DELTA + i] < 16 {
            return (i / 8 + 1) as u64;
        }
    }
    0
}
