// The board's block: one lent block of cells in which a file's tables stand, made once for the
// file. Here is what is read of it; crate `board` fills it.
#![tactic(auto)]

mod ask;
mod edges;
mod layout;
mod parts;
mod sets;

ghost use Rattle.std.specs.Prelude.{◌≡◌, suc, ◌+◌, ◌<◌, ◌/◌, ◌%◌};
ghost use Rattle.block.specs.Block.{next_cell, accept_set, usable_set, letter_cell, scopes_cell, states_cell, pair_flag, first_edge, edge_cell, first_declaration};

pub use ask::{
    ASKSIZE, FROM, GOAL, HIGH, KIND, LOW, ask_goal, ask_high, ask_kind, ask_low, ask_start,
};
pub use edges::{edge_to, is_later, most_turn};
pub use layout::{
    ACCEPT, AFTER, BACK, BEFORE, BETTER, DECL, DELTA, EDGE, EDGES, FIRST, HINT, INTO, LEAVING,
    LETTER, SCOPES, SIZE, START, STATES, TURN, USABLE,
};
pub use parts::{
    TURN_UNIT, back_label, back_scope, edge_label, edge_scope, edge_turn, packed_back, packed_edge,
};
pub use sets::{has, has_state, single, taken};

// The state after label l in state q; 16 or above for none.
pub fn next_state(block: &[u64; SIZE], q: u64, l: u64) -> u64
    requires state { q < 16 }
    requires label { l < 8 }
    ensures answer { result ≡ next_cell block.now q l }
{
    block[DELTA + (q * 8 + l) as usize]
}

// The accepting states.
pub fn accept_set(block: &[u64; SIZE]) -> u64
    ensures answer { result ≡ accept_set block.now }
{
    block[ACCEPT]
}

// The states in which the end with number e is usable.
pub fn usable_set(block: &[u64; SIZE], e: u64) -> u64
    requires end { e < 9 }
    ensures answer { result ≡ usable_set block.now e }
{
    block[USABLE + e as usize]
}

// The label's letter.
pub fn letter(block: &[u64; SIZE], l: u64) -> u64
    requires label { l < 8 }
    ensures answer { result ≡ letter_cell block.now l }
{
    block[LETTER + l as usize]
}

// The number of scopes.
pub fn scope_count(block: &[u64; SIZE]) -> u64
    ensures answer { result ≡ scopes_cell block.now }
{
    block[SCOPES]
}

// Is the end with number a preferred to the one with number c?
pub fn pair(block: &[u64; SIZE], a: u64, c: u64) -> bool
    ensures answer { result ≡ pair_flag block.now a c }
{
    a < 9 && c < 9 && (block[BETTER + c as usize] >> a) % 2 == 1
}

// The number of the scope's first edge, and of the first behind its last.
pub fn edges_from(block: &[u64; SIZE], s: u64) -> u64
    requires scope { s < 64 }
    ensures answer { result ≡ first_edge block.now s }
{
    block[FIRST + s as usize]
}

pub fn edges_end(block: &[u64; SIZE], s: u64) -> u64
    requires scope { s < 64 }
    ensures answer { result ≡ first_edge block.now (suc s) }
{
    block[FIRST + s as usize + 1]
}

// Edge number p, as a cell: `parts` takes it apart.
pub fn edge_at(block: &[u64; SIZE], p: u64) -> u64
    ensures answer { result ≡ edge_cell block.now p }
{
    block[EDGE + (p % 512) as usize]
}

// Where the scope's declarations start in the graph table, and where they end.
pub fn declared_from(block: &[u64; SIZE], s: u64) -> u64
    requires scope { s < 64 }
    ensures answer { result ≡ first_declaration block.now s }
{
    block[DECL + s as usize]
}

pub fn declared_end(block: &[u64; SIZE], s: u64) -> u64
    requires scope { s < 64 }
    ensures answer { result ≡ first_declaration block.now (suc s) }
{
    block[DECL + s as usize + 1]
}

// One past the last state from which a label leads on.
pub fn state_count(block: &[u64; SIZE]) -> u64
    ensures answer { result ≡ states_cell block.now }
{
    block[STATES]
}
