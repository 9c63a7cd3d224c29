// Tests whether an edge row ascends and repeats no edge so far. A file has many edges, so their key
// is compared as a tuple here, without looking its places up in the format.
ghost use Rattle.std.specs.Prelude.{◌≡◌, not, ◌&&◌, ◌+◌, ◌≤◌, length, drop};
ghost use Rattle.graph_rows.specs.Format.{section_at, edge_section};
ghost use Rattle.graph_rows.specs.Admission.{row_of, key_less, ascends, same_source, repeats};
ghost use Rattle.graph_rows.specs.Table.{rows_back};
ghost use Rattle.graph_rows.specs.LookBack.{edge_key, found_looking_back, quick_repeats, Ascended};

use crate::rows::{row_before, value_at};

// The places of an edge row's values: the scope it leaves, its label, the scope it leads to, its
// turn.
const FROM: usize = 0;

const LABEL: usize = 1;

const TO: usize = 2;

const TURN: usize = 3;

// What an edge row is sorted by: from, label, turn and to.
fn edge_key(table: &[u64], p: usize) -> (u64, u64, u64, u64)
    requires room { p + 6 ≤ length table.now }
    ensures answer { result ≡ edge_key (row_of (drop p table.now)) }
{
    (
        value_at(table, p, FROM),
        value_at(table, p, LABEL),
        value_at(table, p, TURN),
        value_at(table, p, TO),
    )
}

// Does the edge row at place q stand before the one at place p?
fn edge_less(table: &[u64], q: usize, p: usize) -> bool
    requires room { (q + 6 ≤ length table.now) × (p + 6 ≤ length table.now) }
    ensures answer { result ≡ key_less (section_at edge_section).key (row_of (drop q table.now)) (row_of (drop p table.now)) }
{
    edge_key(table, q) < edge_key(table, p)
}

// Does the edge row at place p ascend from the one before it? The first edge does.
fn edge_ascends(table: &[u64], p: usize, rows: u32) -> bool
    requires room { p + 6 ≤ length table.now }
    ensures answer { result ≡
        ascends (section_at edge_section).key (rows_back rows p table.now) (row_of (drop p table.now)) }
{
    if rows == 0 {
        return true;
    }
    edge_less(table, row_before(p), p)
}

// Do the edges at places q and p leave the same scope by the same label?
fn same_source(table: &[u64], q: usize, p: usize) -> bool
    requires room { (q + 6 ≤ length table.now) × (p + 6 ≤ length table.now) }
    ensures answer { result ≡ same_source (row_of (drop q table.now)) (row_of (drop p table.now)) }
{
    value_at(table, q, FROM) == value_at(table, p, FROM)
        && value_at(table, q, LABEL) == value_at(table, p, LABEL)
}

// Is the edge of the row at place p among the rows directly above it that leave the same scope by
// the same label? The admitted ones among them lead to different scopes, so there are at most 64.
fn stands_above(table: &[u64], p: usize, rows: u32) -> bool
    requires room { p + 6 ≤ length table.now }
    ensures answer { result ≡ found_looking_back (rows_back rows p table.now) (row_of (drop p table.now)) }
{
    let mut q = p;
    for _ in 0..rows {
        q = row_before(q);
        if !same_source(table, q, p) {
            return false;
        }
        if value_at(table, q, TO) == value_at(table, p, TO) {
            return true;
        }
    }
    false
}

// The quick test whether the edge row at place p repeats one above it, at whatever turn. Where rows
// ascend, one of turn 0 repeats none, so files without turns pay for no look back.
fn repeats(table: &[u64], p: usize, rows: u32) -> bool
    requires room { p + 6 ≤ length table.now }
    ensures answer { result ≡ quick_repeats (rows_back rows p table.now) (row_of (drop p table.now)) }
{
    0 < value_at(table, p, TURN) && stands_above(table, p, rows)
}

// Does the edge row at place p ascend, and has no row of the section so far its from, label and to?
// The rows so far ascend, and then the quick test tells.
pub fn stands_apart(table: &[u64], p: usize, rows: u32) -> bool
    requires room { p + 6 ≤ length table.now }
    requires ascended { Ascended (section_at edge_section).key (rows_back rows p table.now) }
    ensures answer { result ≡
        (ascends (section_at edge_section).key (rows_back rows p table.now) (row_of (drop p table.now))
        && not (repeats (rows_back rows p table.now) (row_of (drop p table.now)))) }
{
    edge_ascends(table, p, rows) && !repeats(table, p, rows)
}
