// A plain enumerator, written from document 01, "Paths": all paths from a scope are listed, those
// that a query reaches are kept, and each of them is compared with each. A path is 16 bytes: the
// number of its steps, its start, the steps; the last byte says later whether it is visible.
use crate::enumerator::cells::{at, part, plus, put_all, set};
use crate::enumerator::gym::{
    accepts, declarations, edge_place, label_of, moved, preferred, scope_of,
};

// The most reached paths that are kept, and the most paths that are looked at; what has more is
// left out of the trial.
pub const MOST: usize = 1024;

const MOST_LISTED: usize = 20000;

// The bytes of so many paths.
pub const ROOM: usize = 16384;

fn steps(p: &[u8]) -> usize {
    at(p, 0)
}

fn step_at(p: &[u8], i: usize) -> usize {
    at(p, plus(i, 2))
}

// The scope after the last step, the start if there is none.
pub fn last(p: &[u8]) -> usize {
    scope_of(at(p, plus(steps(p), 1)))
}

// Is the scope on the path?
fn meets(p: &[u8], scope: usize) -> bool {
    (0..plus(steps(p), 1)).any(|i| scope_of(at(p, plus(i, 1))) == scope)
}

// May the path go on by this step? There is such an edge, and no scope occurs twice.
fn goes_on(g: &[u8], p: &[u8], step: usize) -> bool {
    at(g, edge_place(last(p), step)) != 0 && !meets(p, scope_of(step))
}

// The first step, of those from a number on, that the path may go on by; 64 if there is none. Steps
// are numbered by label, then scope.
fn next_step(g: &[u8], p: &[u8], from: usize) -> usize {
    (from..64).find(|k| goes_on(g, p, *k)).unwrap_or(64)
}

fn push(p: &mut [u8], step: usize) {
    let n = steps(p);
    set(p, plus(n, 2), step);
    set(p, 0, plus(n, 1));
}

// The path without its last step; that step.
fn pop(p: &mut [u8]) -> usize {
    let n = steps(p);
    if n == 0 {
        return 64;
    }
    let k = at(p, plus(n, 1));
    set(p, 0, n - 1);
    k
}

// The next path in the listing's order: one step more, or, as often as there is none, one step back
// and there the next one. A path here has at most 8 steps.
fn advance(g: &[u8], p: &mut [u8]) -> bool {
    let mut from = 0;
    for _ in 0..16 {
        let k = next_step(g, p, from);
        if k < 64 {
            push(p, k);
            return true;
        }
        from = plus(pop(p), 1);
    }
    false
}

// Do the path's labels lead from state 0 to an accepting state?
fn lawful(g: &[u8], p: &[u8]) -> bool {
    let n = steps(p);
    let mut state = 0;
    for i in 0..n {
        let next = moved(g, state, label_of(step_at(p, i)));
        if next == 0 {
            return false;
        }
        state = next - 1;
    }
    accepts(g, state)
}

fn reached(g: &[u8], p: &[u8], name: usize) -> bool {
    declarations(g, last(p), name) != 0 && lawful(g, p)
}

// The path at a place of the table.
pub fn path(table: &[u8], i: usize) -> &[u8] {
    let k = i % MOST * 16;
    part(table, k, k + 16)
}

// How many paths a table holds.
pub fn count(table: &[u8]) -> usize {
    table.len() / 16
}

// The table's first n paths.
pub fn first(table: &[u8], n: usize) -> &[u8] {
    part(table, 0, n % (2 * MOST) * 16)
}

// The table with the path put at its end if it is reached; the paths in it.
fn kept(g: &[u8], p: &[u8], name: usize, table: &mut [u8], n: usize) -> usize {
    if !reached(g, p, name) {
        return n;
    }
    if MOST <= n {
        return MOST + 1;
    }
    put_all(table, n * 16, p);
    n + 1
}

// All paths from p on: those reached are put into the table. How many there are, or more than the
// table has room for.
fn list(g: &[u8], name: usize, p: &mut [u8], table: &mut [u8]) -> usize {
    let mut n = 0;
    for _ in 0..MOST_LISTED {
        n = kept(g, p, name, table, n);
        if !advance(g, p) {
            return n;
        }
    }
    MOST + 1
}

// How many steps both paths have in common at the beginning.
fn shared(p: &[u8], q: &[u8]) -> usize {
    let n = steps(p).min(steps(q));
    (0..n)
        .find(|i| step_at(p, *i) != step_at(q, *i))
        .unwrap_or(n)
}

// What the path goes on by after so many steps.
fn end_after(p: &[u8], i: usize) -> usize {
    if steps(p) <= i {
        return 0;
    }
    plus(label_of(step_at(p, i)), 1)
}

// Is p more specific than q? They have the same start.
fn more_specific(g: &[u8], p: &[u8], q: &[u8]) -> bool {
    let i = shared(p, q);
    preferred(g, end_after(p, i), end_after(q, i))
}

// Is any of the n paths more specific than this one?
fn shadowed(g: &[u8], table: &[u8], n: usize, q: &[u8]) -> bool {
    (0..n).any(|i| more_specific(g, path(table, i), q))
}

fn visible(g: &[u8], table: &[u8], n: usize, i: usize) -> usize {
    if shadowed(g, table, n, path(table, i)) {
        0
    } else {
        1
    }
}

// Each path's last byte is set to 1 if it is visible, to 0 if it is not.
fn compare_all(g: &[u8], table: &mut [u8], n: usize) {
    for i in 0..n {
        let v = visible(g, table, n, i);
        set(table, i % MOST * 16 + 15, v);
    }
}

pub fn is_visible(p: &[u8]) -> bool {
    at(p, 15) == 1
}

// The paths that a query reaches, in the listing's order, each with its standing; how many, or more
// than MOST.
pub fn resolve(g: &[u8], start: usize, name: usize, table: &mut [u8]) -> usize {
    let mut p = [0u8; 16];
    set(&mut p, 1, start);
    let n = list(g, name, &mut p, table);
    if MOST < n {
        return n;
    }
    compare_all(g, table, n);
    n
}

// The entries of a path: one for each declaration if it is visible.
fn entries_of(g: &[u8], p: &[u8], name: usize) -> usize {
    if is_visible(p) {
        declarations(g, last(p), name)
    } else {
        0
    }
}

pub fn entries(g: &[u8], name: usize, table: &[u8]) -> usize {
    let mut sum = 0;
    for i in 0..count(table) {
        sum = plus(sum, entries_of(g, path(table, i), name));
    }
    sum
}

fn shows(p: &[u8], scope: usize) -> bool {
    is_visible(p) && last(p) == scope
}

// Does a visible path end at the scope?
fn sees(table: &[u8], scope: usize) -> bool {
    (0..count(table)).any(|i| shows(path(table, i), scope))
}

// The declarations of the name at a scope, if the query sees them.
fn seen_at(g: &[u8], name: usize, table: &[u8], scope: usize) -> usize {
    if sees(table, scope) {
        declarations(g, scope, name)
    } else {
        0
    }
}

// The different declarations that the entries have (02, K2), however many routes lead to each.
pub fn seen(g: &[u8], name: usize, table: &[u8]) -> usize {
    let mut sum = 0;
    for s in 0..16 {
        sum = plus(sum, seen_at(g, name, table, s));
    }
    sum
}
