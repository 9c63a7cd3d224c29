// The listing that is due.
use crate::enumerator::cells::{put, put_all, word};
use crate::enumerator::completed::NONE;
use crate::enumerator::text::{end_byte, put_field, put_name, put_number};

// What a query finds, by number.
pub const FOUND_NONE: usize = 0;

pub const FOUND_ONE: usize = 1;

pub const FOUND_SEVERAL: usize = 2;

// What is found where so many declarations are seen.
pub fn found_of(seen: usize) -> usize {
    match seen {
        0 => FOUND_NONE,
        1 => FOUND_ONE,
        _ => FOUND_SEVERAL,
    }
}

fn put_awaits(out: &mut [u8], n: usize, g: &[u8], pair: usize) -> usize {
    if pair == NONE {
        return put_all(out, n, b"-\n");
    }
    let m = put_number(out, n, pair / 4);
    let k = put(out, m, end_byte(g, pair % 4));
    put(out, k, 10)
}

// The listing of a query, by what is found; the rows are given, and the pair awaited.
pub fn put_listing(
    out: &mut [u8],
    g: &[u8],
    start: usize,
    name: usize,
    found: usize,
    pair: usize,
    rows: &[u8],
) -> usize {
    let a = put_all(out, 0, b"start seek found awaits\n");
    let b = put_field(out, a, start, 32);
    let c = put_name(out, b, g, name);
    let d = put_all(out, c, word(b" none | one | several ", found));
    let e = put_awaits(out, d, g, pair);
    let f = put_all(out, e, b"mark path\n");
    put_all(out, f, rows)
}
