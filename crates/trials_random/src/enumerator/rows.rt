// The rows of a query's entries.
use crate::enumerator::cells::{at, plus, put};
use crate::enumerator::gym::{declared, label_of, letter, scope_of};
use crate::enumerator::paths::{count, is_visible, last, path};
use crate::enumerator::text::{mark, put_field, put_number};

fn put_step(out: &mut [u8], n: usize, g: &[u8], step: usize) -> usize {
    let m = put(out, n, letter(g, label_of(step)));
    put_number(out, m, scope_of(step))
}

fn put_steps(out: &mut [u8], n: usize, g: &[u8], p: &[u8]) -> usize {
    let mut m = n;
    for i in 0..at(p, 0) {
        m = put_step(out, m, g, at(p, plus(i, 2)));
    }
    m
}

// A path row.
fn put_path(out: &mut [u8], n: usize, g: &[u8], p: &[u8], m: usize) -> usize {
    let a = put_field(out, n, mark(m), 32);
    let b = put_number(out, a, at(p, 1));
    put_steps(out, b, g, p)
}

// The entry of a visible path with one of the four marks, if there is one.
fn put_entry(out: &mut [u8], n: usize, g: &[u8], name: usize, p: &[u8], m: usize) -> usize {
    if declared(g, last(p), name, m) == 0 {
        return n;
    }
    let a = put_path(out, n, g, p, m);
    put(out, a, 10)
}

fn put_entries(out: &mut [u8], n: usize, g: &[u8], name: usize, p: &[u8]) -> usize {
    if !is_visible(p) {
        return n;
    }
    let mut a = n;
    for m in 0..4 {
        a = put_entry(out, a, g, name, p, m);
    }
    a
}

// The rows of the paths of a table; their length.
pub fn put_rows(out: &mut [u8], g: &[u8], name: usize, table: &[u8]) -> usize {
    let mut m = 0;
    for i in 0..count(table) {
        m = put_entries(out, m, g, name, path(table, i));
    }
    m
}
