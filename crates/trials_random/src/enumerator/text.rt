// A gym's file.
use crate::enumerator::cells::{at, minus, plus, put, put_all, word};
use crate::enumerator::gym::{
    ACCEPTS, EDGES, LETTERS, MARKS, MOVES, OPEN, PAIRS, QUERIES, RANKS, SCOPES, SETTINGS, SIZE,
    label_of, letter, scope_of, section,
};

fn put_digit(out: &mut [u8], n: usize, v: usize, unit: usize) -> usize {
    if unit == 0 || v < unit {
        return n;
    }
    put(out, n, 48 + v / unit % 10)
}

// A number below 100,000.
pub fn put_number(out: &mut [u8], n: usize, v: usize) -> usize {
    let mut m = n;
    let mut unit: usize = 10000;
    while unit > 1 {
        m = put_digit(out, m, v, unit);
        unit = unit / 10;
    }
    put(out, m, 48 + v % 10)
}

// A number, and the space or LF after it.
pub fn put_field(out: &mut [u8], n: usize, v: usize, after: usize) -> usize {
    let m = put_number(out, n, v);
    put(out, m, after)
}

// What stands behind a column of so many in all: a space, behind the last one LF.
fn after(k: usize, columns: usize) -> usize {
    if plus(k, 1) == columns { 10 } else { 32 }
}

// The byte of an end: `$` or its label's letter.
pub fn end_byte(g: &[u8], end: usize) -> usize {
    if end == 0 {
        return 36;
    }
    letter(g, end - 1)
}

// The names of a gym: of the second kind they differ past the eighth byte alone. One is a prefix of
// the other.
pub fn put_name(out: &mut [u8], n: usize, g: &[u8], name: usize) -> usize {
    let k = at(g, 6) % 2 * 2 + name % 2;
    put_all(out, n, word(b"max|max_2|lane_max|lane_max_weight1", k))
}

// The four marks ascend as numbers and not as text.
pub fn mark(m: usize) -> usize {
    match m {
        0 => 0,
        1 => 9,
        2 => 10,
        _ => 65535,
    }
}

// What stands in a column of a row.
#[derive(Clone, Copy)]
enum Column {
    Number(usize),
    Byte(usize),
    Name(usize),
}

// Column k of a transition or an edge: from, label, to.
fn move_column(g: &[u8], from: usize, label: usize, to: usize, k: usize) -> Column {
    match k {
        0 => Column::Number(from),
        1 => Column::Byte(letter(g, label)),
        _ => Column::Number(to),
    }
}

// Of a pair of ends.
fn pair_column(g: &[u8], a: usize, b: usize, k: usize) -> Column {
    match k {
        0 => Column::Byte(end_byte(g, a)),
        _ => Column::Byte(end_byte(g, b)),
    }
}

// Of a declaration.
fn declaration_column(scope: usize, name: usize, m: usize, k: usize) -> Column {
    match k {
        0 => Column::Number(scope),
        1 => Column::Name(name),
        _ => Column::Number(mark(m)),
    }
}

// Of an open pair.
fn open_column(g: &[u8], scope: usize, end: usize, k: usize) -> Column {
    match k {
        0 => Column::Number(scope),
        _ => Column::Byte(end_byte(g, end)),
    }
}

// Of the row of place i of any section, which holds v. A query's columns are a declaration's
// without its mark.
fn column_of(g: &[u8], s: usize, i: usize, v: usize, k: usize) -> Column {
    match s {
        LETTERS => Column::Byte(letter(g, i)),
        PAIRS => pair_column(g, i / 4, i % 4, k),
        MOVES => move_column(g, i / 4, i % 4, minus(v, 1), k),
        ACCEPTS => Column::Number(i),
        EDGES => move_column(g, i / 64, label_of(i), scope_of(i), k),
        MARKS => declaration_column(i / 8, i / 4 % 2, i % 4, k),
        OPEN => open_column(g, i / 4, i % 4, k),
        QUERIES => declaration_column(i / 2, i % 2, 0, k),
        _ => Column::Number(v),
    }
}

// How many columns a section's rows have; what is before the file's sections has no rows.
fn columns(s: usize) -> usize {
    match s {
        SETTINGS => 0,
        RANKS => 0,
        LETTERS => 1,
        ACCEPTS => 1,
        SCOPES => 1,
        PAIRS => 2,
        OPEN => 2,
        QUERIES => 2,
        _ => 3,
    }
}

fn put_column(out: &mut [u8], n: usize, g: &[u8], c: Column) -> usize {
    match c {
        Column::Number(v) => put_number(out, n, v),
        Column::Byte(x) => put(out, n, x),
        Column::Name(name) => put_name(out, n, g, name),
    }
}

// The row of a section's place, which holds v.
fn put_row(out: &mut [u8], n: usize, g: &[u8], s: usize, i: usize, v: usize) -> usize {
    let all = columns(s);
    let mut m = n;
    for k in 0..all {
        m = put_column(out, m, g, column_of(g, s, i, v, k));
        m = put(out, m, after(k, all));
    }
    m
}

// Which section of the file begins at a place; 9, which is none, where none does.
fn begun(k: usize) -> usize {
    match k {
        LETTERS => 0,
        PAIRS => 1,
        MOVES => 2,
        ACCEPTS => 3,
        SCOPES => 4,
        EDGES => 5,
        MARKS => 6,
        OPEN => 7,
        QUERIES => 8,
        _ => 9,
    }
}

// The names line of the section that begins at a place, if one does.
fn put_names(out: &mut [u8], n: usize, k: usize) -> usize {
    let s = begun(k);
    let m = put_all(
        out,
        n,
        word(b"label\n|less more\n|state label next\n|accept\n", s),
    );
    let graph = b"|scopes\n|from label to\n|at name mark\n|at open\n|start seek\n";
    put_all(out, m, word(graph, minus(s, 3)))
}

// A place: its section's names line where it is the first one, and its row where there is one.
fn put_place(out: &mut [u8], n: usize, g: &[u8], k: usize) -> usize {
    let m = put_names(out, n, k);
    let v = at(g, k);
    if v == 0 {
        return m;
    }
    let s = section(k);
    put_row(out, m, g, s, minus(k, s), v)
}

pub fn put_gym(out: &mut [u8], g: &[u8]) -> usize {
    let mut n = 0;
    for k in 0..SIZE {
        n = put_place(out, n, g, k);
    }
    n
}
