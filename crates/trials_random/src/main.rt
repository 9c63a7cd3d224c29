// Draws small gyms by chance, and compares for each of their queries what `resolution` answers with
// what a plain enumerator finds (module `enumerator`).
#![tactic(auto)]

mod drawn;
mod enumerator;
mod say;

use crate::enumerator::cells::{part, plus};
use crate::enumerator::completed::{NONE, ROWS, TOO_MANY};
use crate::enumerator::gym::SIZE;
use crate::enumerator::paths::{MOST, ROOM};
use crate::enumerator::{completed, due, gym, paths, rows, text};
use resolution::listing;
use text_field::Refusal;

const GYMS: usize = 6000;

// The bytes of a listing or a gym's text that are kept.
const TEXT: usize = 17408;

// The place in the counts of what is awaited.
fn awaits_place(pair: usize) -> usize {
    if pair == NONE {
        return say::SETTLED;
    }
    if pair % 4 == 0 {
        return say::END;
    }
    say::LABEL
}

// What the library answered and wrote, held to what is due.
fn compare_answer(
    counts: &mut [u64],
    text: &[u8],
    due: &[u8],
    a: Result<usize, Refusal>,
    out: &[u8],
) {
    match a {
        Ok(n) => say::compare(counts, text, due, part(out, 0, n)),
        Err(_) => say::compare(counts, text, due, b"refused\n"),
    }
}

// The library's listing of query i, in lent memory.
fn compare_listing(counts: &mut [u64], text: &[u8], i: usize, due: &[u8], out: &mut [u8]) {
    let a = listing(text, i, out);
    compare_answer(counts, text, due, a, out);
}

// A pair is awaited exactly if the completion at all open pairs at once has other entries: else the
// enumerator is at odds with itself, and that is a difference too.
fn compare_settled(counts: &mut [u64], text: &[u8], due: &[u8], pair: usize, all: usize) {
    if pair == NONE && all == 0 {
        return;
    }
    if pair != NONE && all == 1 {
        return;
    }
    say::difference(counts, text, due, b"all open pairs at once\n");
}

fn count_query(counts: &mut [u64], found: usize, pair: usize) {
    say::add(counts, say::QUERIES, 1);
    say::add(counts, plus(say::FOUND, found), 1);
    say::add(counts, awaits_place(pair), 1);
}

// The listing that is due of query i, by what is found, the pair that is awaited and the rows.
fn listing_due(
    counts: &mut [u64],
    g: &[u8],
    text: &[u8],
    i: usize,
    found: usize,
    pair: usize,
    rows: &[u8],
) {
    let mut due = [0u8; TEXT];
    let n = due::put_listing(&mut due, g, i / 2, i % 2, found, pair, rows);
    let mut out = [0u8; TEXT];
    compare_listing(counts, text, i, part(&due, 0, n), &mut out);
}

// Query i, by what is found; the rows of its entries are given.
fn entries_due(counts: &mut [u64], g: &[u8], text: &[u8], i: usize, found: usize, rows: &[u8]) {
    let pair = completed::awaited(g, i / 2, i % 2, rows);
    let all = completed::unsettled(g, i / 2, i % 2, rows);
    if pair == TOO_MANY || all == 2 {
        say::add(counts, say::LEFT_OUT, 1);
        return;
    }
    count_query(counts, found, pair);
    listing_due(counts, g, text, i, found, pair, rows);
    compare_settled(counts, text, rows, pair, all);
}

// Query i, whose reached paths are in the table.
fn query_due(counts: &mut [u64], g: &[u8], text: &[u8], i: usize, table: &[u8]) {
    let mut rows = [0u8; ROWS];
    let m = rows::put_rows(&mut rows, g, i % 2, table);
    if ROWS < m {
        say::add(counts, say::LEFT_OUT, 1);
        return;
    }
    let found = due::found_of(paths::seen(g, i % 2, table));
    entries_due(counts, g, text, i, found, part(&rows, 0, m));
}

// Query i, unless there are too many paths.
fn query(counts: &mut [u64], g: &[u8], text: &[u8], i: usize) {
    let mut room = [0u8; ROOM];
    let n = paths::resolve(g, i / 2, i % 2, &mut room);
    if MOST < n {
        say::add(counts, say::LEFT_OUT, 1);
        return;
    }
    let table = paths::first(&room, n);
    say::add(counts, say::PATHS, n);
    say::add(counts, say::ENTRIES, paths::entries(g, i % 2, table));
    query_due(counts, g, text, i, table)
}

// All queries of a gym.
fn queries(counts: &mut [u64], g: &[u8], text: &[u8]) {
    let n = gym::scopes(g) % 16 * 2;
    for i in 0..n {
        query(counts, g, text, i);
    }
}

// The gym that is drawn from a number on; the last number drawn.
fn one_gym(counts: &mut [u64], seed: usize) -> usize {
    let mut g = [0u8; SIZE];
    let x = drawn::draw(&mut g, seed);
    let mut text = [0u8; TEXT];
    let n = text::put_gym(&mut text, &g);
    say::add(counts, say::GYMS, 1);
    queries(counts, &g, part(&text, 0, n));
    x
}

fn gyms(counts: &mut [u64]) {
    let mut x = 20260114;
    for _ in 0..GYMS {
        x = one_gym(counts, x);
    }
}

fn main() {
    let mut counts = [0u64; say::COUNTS];
    gyms(&mut counts);
    say::all(&counts);
}
