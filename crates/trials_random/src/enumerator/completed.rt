// What a query awaits, by trying completions. For each open pair one completion is made that adds
// at this pair alone, and its entries are compared with the gym's. For `$` it adds a declaration of
// the name with a mark that is nobody's. For a label it adds an edge to a chain of new scopes, as
// many as there are states, which all declare the name and are linked by every label.
//
// If the entries differ, the pair is decisive: this is such a completion. If they differ in any
// completion that adds at this pair alone, then also in this one: there some new path is visible,
// for what is lost is shadowed by a new path. Up to the pair it goes along edges of the gym, and
// from there on by a new edge, or ends at a new declaration. The path that goes the same way up to
// there is reached here too, along the chain, since from each state the shortest word to an
// accepting one has fewer letters than there are states. An old path that is more specific than
// this one differs from it at the pair or before, and would shadow the other one as well. So what
// is visible at or above this path is new.
use crate::enumerator::cells::{at, part, plus, put_all, set};
use crate::enumerator::gym::{OPEN, SIZE, edge_place, mark_place, scopes, states, step};
use crate::enumerator::paths::{MOST, ROOM, first, resolve};
use crate::enumerator::rows::put_rows;

// The bytes of the rows that are kept.
pub const ROWS: usize = 16384;

// No pair, and a trial that is left out.
pub const NONE: usize = 64;

pub const TOO_MANY: usize = 65;

// A new scope of the chain: it declares the name, and every label leads to the next one, if there
// is one.
fn add_scope(h: &mut [u8], name: usize, scope: usize, is_last: bool) {
    set(h, mark_place(scope, name, 0), 1);
    if is_last {
        return;
    }
    let to = plus(scope, 1);
    set(h, edge_place(scope, step(0, to)), 1);
    set(h, edge_place(scope, step(1, to)), 1);
    set(h, edge_place(scope, step(2, to)), 1);
}

fn add_chain(h: &mut [u8], name: usize, first: usize, n: usize) {
    for i in 0..n {
        add_scope(h, name, plus(first, i), plus(i, 1) == n);
    }
}

// The completion of the gym at an open pair.
fn complete(h: &mut [u8], name: usize, scope: usize, end: usize) {
    if end == 0 {
        set(h, mark_place(scope, name, 3), 1);
        return;
    }
    let first = scopes(h);
    let n = states(h);
    set(h, edge_place(scope, step(end - 1, first)), 1);
    add_chain(h, name, first, n);
}

// The rows of a query's entries; their length, or more than there is room for.
pub fn rows_of(g: &[u8], start: usize, name: usize, table: &mut [u8], rows: &mut [u8]) -> usize {
    let n = resolve(g, start, name, table);
    if MOST < n {
        return ROWS + 1;
    }
    put_rows(rows, g, name, first(table, n))
}

// Does the query have other entries in this completion? 0 for no, 1 for yes, 2 if there is no room
// to tell. The rows in the gym are given.
fn changed(h: &[u8], start: usize, name: usize, due: &[u8]) -> usize {
    let mut table = [0u8; ROOM];
    let mut rows = [0u8; ROWS];
    let n = rows_of(h, start, name, &mut table, &mut rows);
    if ROWS < n {
        return 2;
    }
    if check::same(part(&rows, 0, n), due) {
        0
    } else {
        1
    }
}

fn is_open(g: &[u8], pair: usize) -> bool {
    at(g, OPEN + pair % 64) != 0
}

// The same for the completion at one pair: a pair that is not open changes nothing.
fn decides(g: &[u8], start: usize, name: usize, pair: usize, due: &[u8]) -> usize {
    if !is_open(g, pair) {
        return 0;
    }
    let mut h = [0u8; SIZE];
    put_all(&mut h, 0, g);
    complete(&mut h, name, pair / 4, pair % 4);
    changed(&h, start, name, due)
}

fn complete_if_open(h: &mut [u8], name: usize, pair: usize) {
    if is_open(h, pair) {
        complete(h, name, pair / 4, pair % 4);
    }
}

fn complete_all(h: &mut [u8], name: usize) {
    for pair in 0..64 {
        complete_if_open(h, name, pair);
    }
}

// The same for the completion at all open pairs at once.
pub fn unsettled(g: &[u8], start: usize, name: usize, due: &[u8]) -> usize {
    let mut h = [0u8; SIZE];
    put_all(&mut h, 0, g);
    complete_all(&mut h, name);
    changed(&h, start, name, due)
}

// The first open pair, by scope and then by end, whose completion changes the entries, whose rows
// are given. A pair is four times the scope, and the end.
pub fn awaited(g: &[u8], start: usize, name: usize, due: &[u8]) -> usize {
    for pair in 0..64 {
        let d = decides(g, start, name, pair, due);
        if d == 1 {
            return pair;
        }
        if d == 2 {
            return TOO_MANY;
        }
    }
    NONE
}
