// A gym as one array of small numbers: first what it is made by, then its file's sections in their
// sequence, each with a place for every row that there can be. A place holds 0 where there is no
// such row. There is room for 16 scopes, of which a gym has at most 6: the others are for its
// completions.
use crate::enumerator::cells::at;

pub const SIZE: usize = 1376;

// What the gym is made by, see `setting` where gyms are drawn (module `drawn`).
pub const SETTINGS: usize = 0;

// Two ranks of each end.
pub const RANKS: usize = 16;

// The letter of each label.
pub const LETTERS: usize = 32;

// By the two ends; an end is 0 for `$` and n + 1 for label n.
pub const PAIRS: usize = 48;

// By state and label: the next state and 1.
pub const MOVES: usize = 64;

pub const ACCEPTS: usize = 80;

pub const SCOPES: usize = 84;

// By scope and step; a step is 16 times the label and the scope that it goes to.
pub const EDGES: usize = 128;

// By scope, name and which of the four marks.
pub const MARKS: usize = 1152;

// By scope and end.
pub const OPEN: usize = 1280;

// By start and name.
pub const QUERIES: usize = 1344;

// The section that a place belongs to.
pub fn section(k: usize) -> usize {
    if k < RANKS {
        return SETTINGS;
    }
    if k < LETTERS {
        return RANKS;
    }
    if k < PAIRS {
        return LETTERS;
    }
    if k < MOVES {
        return PAIRS;
    }
    if k < ACCEPTS {
        return MOVES;
    }
    if k < SCOPES {
        return ACCEPTS;
    }
    if k < EDGES {
        return SCOPES;
    }
    if k < MARKS {
        return EDGES;
    }
    if k < OPEN {
        return MARKS;
    }
    if k < QUERIES {
        return OPEN;
    }
    QUERIES
}

pub fn labels(g: &[u8]) -> usize {
    at(g, 0)
}

pub fn states(g: &[u8]) -> usize {
    at(g, 1)
}

pub fn scopes(g: &[u8]) -> usize {
    at(g, SCOPES)
}

pub fn letter(g: &[u8], label: usize) -> usize {
    at(g, LETTERS + label % 4)
}

pub fn preferred(g: &[u8], a: usize, b: usize) -> bool {
    at(g, PAIRS + a % 4 * 4 + b % 4) != 0
}

// The next state and 1, or 0.
pub fn moved(g: &[u8], state: usize, label: usize) -> usize {
    at(g, MOVES + state % 4 * 4 + label % 4)
}

pub fn accepts(g: &[u8], state: usize) -> bool {
    at(g, ACCEPTS + state % 4) != 0
}

pub fn label_of(step: usize) -> usize {
    step / 16 % 4
}

pub fn scope_of(step: usize) -> usize {
    step % 16
}

pub fn step(label: usize, scope: usize) -> usize {
    label % 4 * 16 + scope % 16
}

pub fn edge_place(from: usize, step: usize) -> usize {
    EDGES + from % 16 * 64 + step % 64
}

pub fn mark_place(scope: usize, name: usize, mark: usize) -> usize {
    MARKS + scope % 16 * 8 + name % 2 * 4 + mark % 4
}

// 1 or 0.
pub fn declared(g: &[u8], scope: usize, name: usize, mark: usize) -> usize {
    at(g, mark_place(scope, name, mark)) % 2
}

// How many of the scope's declarations have the name.
pub fn declarations(g: &[u8], scope: usize, name: usize) -> usize {
    declared(g, scope, name, 0) % 2
        + declared(g, scope, name, 1) % 2
        + declared(g, scope, name, 2) % 2
        + declared(g, scope, name, 3) % 2
}
