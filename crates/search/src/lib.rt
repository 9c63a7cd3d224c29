// The search over the board's block: places worth entering, whether what is sought lies behind a
// node, and which ends are cut there.
#![tactic(auto)]

mod closure;
mod ends;
mod exists;
mod grow;
mod hops;
mod later;
mod near;
mod places;
mod scan;
mod straight;
mod tables;

pub use ends::learn;
pub use exists::{Table, is_goal};
pub use hops::{entered, next_hop, worth};
pub use later::edge_cut;
pub use places::place;
pub use tables::{away_table, goal_table, live_table};

// Where a walk stands: the scopes that are not on its path, how many hops it may still enter, and
// the scope and state that it has come to. (That these are within the tables is asked by clauses, as
// `Inside n`, and is no ghost field: with one `entered`, which takes any state, would ask for more
// than it does.)
#[derive(Clone, Copy)]
pub struct Node {
    pub free: u64,
    pub left: usize,
    pub scope: u64,
    pub state: u64,
}

// What is known of the ends at a node, and whether the end that was asked about is cut there.
#[derive(Clone, Copy)]
pub struct Learnt {
    pub known: u64,
    pub cut: bool,
}

// All eight labels, as a set: hops by any label are asked for.
pub const ALL_LABELS: u64 = 255;

// All scopes, as a set.
pub const ALL: u64 = 18446744073709551615;

// Nothing is known of the ends of a node that was only just come to.
pub const NOTHING_KNOWN: u64 = 0;
