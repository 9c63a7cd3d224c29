// Refusal 6: the order pairs of a graph table, which follow its labels.
ghost use Rattle.std.specs.Prelude.{◌≡◌, ◌+◌, ◌*◌, drop};
ghost use Rattle.graph_rows.specs.Admission.{row_of};
ghost use Rattle.graph_rows.specs.Order.{some_row, same_ends, gap, pair_fault, order_fault};
ghost use Rattle.graph_rows.specs.Table.{pairs_at};

use crate::rows::row_at;

// Order pair i.
fn pair_at(table: &[u64], labels: u32, i: u32) -> [u64; 5]
    ensures answer { result ≡ row_of (drop (1 + 6 * labels + 6 * i) table.now) }
{
    row_at(table, 1 + 6 * (labels as usize) + 6 * (i as usize))
}

// Has the pair these ends?
fn same_ends(a: u64, b: u64, pair: [u64; 5]) -> bool
    ensures answer { result ≡ same_ends a b pair }
{
    pair[0] == a && pair[1] == b
}

// Is there a pair with these ends?
fn has_pair(table: &[u64], labels: u32, pairs: u32, a: u64, b: u64) -> bool
    ensures answer { result ≡ some_row (same_ends a b) (pairs_at labels pairs table.now) }
{
    (0..pairs).any(|i| same_ends(a, b, pair_at(table, labels, i)))
}

// After a pair a, b: is this a pair b, c such that there is no a, c?
fn is_gap(table: &[u64], labels: u32, pairs: u32, a: u64, b: u64, pair: [u64; 5]) -> bool
    ensures answer { result ≡ gap (pairs_at labels pairs table.now) a b pair }
{
    pair[0] == b && !has_pair(table, labels, pairs, a, pair[1])
}

// Does a gap follow the pair a, b?
fn has_gap(table: &[u64], labels: u32, pairs: u32, a: u64, b: u64) -> bool
    ensures answer { result ≡ some_row (gap (pairs_at labels pairs table.now) a b)
        (pairs_at labels pairs table.now) }
{
    (0..pairs).any(|i| is_gap(table, labels, pairs, a, b, pair_at(table, labels, i)))
}

// Has the pair equal ends, or does a gap follow it?
fn is_fault(table: &[u64], labels: u32, pairs: u32, pair: [u64; 5]) -> bool
    ensures answer { result ≡ pair_fault (pairs_at labels pairs table.now) pair }
{
    let a = pair[0];
    let b = pair[1];
    a == b || has_gap(table, labels, pairs, a, b)
}

// Does refusal 6 hold of the table's order pairs?
pub fn order_fault(table: &[u64], labels: u32, pairs: u32) -> bool
    ensures answer { result ≡ order_fault (pairs_at labels pairs table.now) }
{
    (0..pairs).any(|i| is_fault(table, labels, pairs, pair_at(table, labels, i)))
}
