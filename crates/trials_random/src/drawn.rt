// Gyms drawn by chance, of a sequence of numbers that is the same in every run.
use crate::enumerator::cells::{at, minus, set};
use crate::enumerator::gym::{
    ACCEPTS, EDGES, LETTERS, MARKS, MOVES, OPEN, PAIRS, QUERIES, RANKS, SCOPES, SIZE, label_of,
    labels, scope_of, scopes, section, states,
};

// The number after x in the sequence of Park and Miller, from 1 to 2147483646.
fn next(x: usize) -> usize {
    x % 2147483647 * 48271 % 2147483647
}

// A number below n, of a number drawn.
fn below(r: usize, n: usize) -> usize {
    if n == 0 {
        return 0;
    }
    r % n
}

// 1 in so many of a hundred cases, else 0.
fn chance(r: usize, percent: usize) -> usize {
    if r % 100 < percent { 1 } else { 0 }
}

// The step from one letter to the next, so that three letters differ: 1 to 12 or 14 to 25.
fn stride(r: usize) -> usize {
    1 + r % 12 + r / 12 % 2 * 13
}

// How many labels, states and scopes; ten times the edges that leave a scope on average; the per
// cent of declarations and of open rows; which two names; the kind of order; the first letter and
// the step to the next.
fn setting(k: usize, r: usize) -> usize {
    match k {
        0 => 1 + r % 3,
        1 => 1 + r % 3,
        2 => 2 + r % 5,
        3 => 8 + r % 5 * 7,
        4 => 5 + r % 5 * 7,
        5 => r % 4 * 8,
        6 => r % 2,
        7 => r % 6,
        8 => r % 26,
        9 => stride(r),
        _ => 0,
    }
}

// The first rank of an end, and the second. An end is preferred to another if both its ranks are
// less: such an order is transitive, and every order of four ends can be had so. Of six kinds of
// order three have the same rank twice, so that most ends are in a pair, and one has no pair at
// all.
fn rank(g: &[u8], i: usize, r: usize) -> usize {
    if at(g, 7) == 5 {
        return 0;
    }
    if 4 <= i && at(g, 7) < 3 {
        return at(g, RANKS + i % 4);
    }
    r % 8
}

// The letter of a label: the first, then on by the stride, past Z from A.
fn letter(g: &[u8], i: usize) -> usize {
    let first = at(g, 8) % 26;
    let on = at(g, 9) % 26;
    if labels(g) <= i {
        return 0;
    }
    match i {
        0 => 65 + first,
        1 => 65 + (first + on) % 26,
        _ => 65 + (first + on + on) % 26,
    }
}

fn pair(g: &[u8], a: usize, b: usize) -> usize {
    if labels(g) < a || labels(g) < b {
        return 0;
    }
    if at(g, RANKS + a % 4) < at(g, RANKS + b % 4)
        && at(g, RANKS + 4 + a % 4) < at(g, RANKS + 4 + b % 4)
    {
        1
    } else {
        0
    }
}

fn transition(g: &[u8], state: usize, label: usize, r: usize) -> usize {
    if states(g) <= state || labels(g) <= label || chance(r, 85) == 0 {
        return 0;
    }
    1 + below(r / 128, states(g)) % 4
}

fn accept(g: &[u8], state: usize, r: usize) -> usize {
    if states(g) <= state {
        return 0;
    }
    chance(r, 75)
}

// How many steps from a scope there can be: each label to each scope.
fn steps(g: &[u8]) -> usize {
    let n = scopes(g) % 16;
    match labels(g) {
        1 => n,
        2 => n + n,
        _ => n + n + n,
    }
}

// So many of a hundred steps are edges that as many leave a scope as the setting says.
fn edge_chance(g: &[u8]) -> usize {
    let n = steps(g);
    if n == 0 {
        return 0;
    }
    at(g, 3) % 256 * 10 / n
}

fn edge(g: &[u8], from: usize, step: usize, r: usize) -> usize {
    if scopes(g) <= from || labels(g) <= label_of(step) || scopes(g) <= scope_of(step) {
        return 0;
    }
    chance(r, edge_chance(g))
}

// The fourth mark is nobody's.
fn declaration(g: &[u8], scope: usize, mark: usize, r: usize) -> usize {
    if scopes(g) <= scope || mark == 3 {
        return 0;
    }
    chance(r, at(g, 4))
}

fn open(g: &[u8], scope: usize, end: usize, r: usize) -> usize {
    if scopes(g) <= scope || labels(g) < end {
        return 0;
    }
    chance(r, at(g, 5))
}

fn query(g: &[u8], scope: usize) -> usize {
    if scopes(g) <= scope { 0 } else { 1 }
}

fn count(g: &[u8], i: usize) -> usize {
    if i == 0 { at(g, 2) } else { 0 }
}

// What a place of a section holds.
fn drawn(g: &[u8], s: usize, i: usize, r: usize) -> usize {
    match s {
        RANKS => rank(g, i, r),
        LETTERS => letter(g, i),
        PAIRS => pair(g, i / 4, i % 4),
        MOVES => transition(g, i / 4, i % 4, r),
        ACCEPTS => accept(g, i, r),
        SCOPES => count(g, i),
        EDGES => edge(g, i / 64, i % 64, r),
        MARKS => declaration(g, i / 8, i % 4, r),
        OPEN => open(g, i / 4, i % 4, r),
        QUERIES => query(g, i / 2),
        _ => setting(i, r),
    }
}

// All places in their sequence, each by the next number and by what stands before it; the last
// number drawn.
pub fn draw(g: &mut [u8], seed: usize) -> usize {
    let mut x = seed;
    for k in 0..SIZE {
        x = next(x);
        let s = section(k);
        let v = drawn(g, s, minus(k, s), x / 256);
        set(g, k, v);
    }
    x
}
