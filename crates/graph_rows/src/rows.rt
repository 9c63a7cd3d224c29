// The rows of a graph table.
ghost use Rattle.std.specs.Prelude.{◌≡◌, ◌∷◌, ◌+◌, ◌-◌, ◌<◌, ◌≤◌, length, drop};
ghost use Rattle.text_field.specs.Buffer.{Buf, puts};
ghost use Rattle.graph_rows.specs.Admission.{row_of, value, place};
ghost use Rattle.graph_rows.specs.Table.{letters_at};
ghost use Rattle.graph_rows.specs.Counting.{counts_after};

use crate::format::{COUNT, LABELS, PAIRS};
use text_field::get_or;

// The values of a row, which follow its section's number.
pub const VALUES: usize = 5;

// What has been counted of the rows so far: the labels, the order pairs, the scopes that the file
// says it has, the rows of this section.
#[derive(Clone, Copy, Default)]
pub struct Counts {
    pub labels: u32,
    pub pairs: u32,
    pub scopes: u64,
    pub rows: u32,
}

// The counts after a row of section k whose first value is v.
#[tactic(auto, unfolding(crate::specs::Counting::counts_after, crate::specs::Admission::counted))]
pub fn counts_after(k: usize, c: Counts, v: u64) -> Counts
    requires few { (c.labels < 4096) × (c.pairs < 4096) × (c.rows < 4096) }
    ensures answer { result ≡ counts_after k c v }
{
    let c = Counts {
        rows: c.rows + 1,
        ..c
    };
    match k {
        LABELS => Counts {
            labels: c.labels + 1,
            ..c
        },
        PAIRS => Counts {
            pairs: c.pairs + 1,
            ..c
        },
        COUNT => Counts { scopes: v, ..c },
        _ => c,
    }
}

// The value at a place of the row whose section number stands at place p of the table, which holds
// all of it.
pub fn value_at(table: &[u64], p: usize, c: usize) -> u64
    requires room { p + 6 ≤ length table.now }
    ensures answer { result ≡ value (row_of (drop p table.now)) c }
{
    if c < VALUES { table[p + 1 + c] } else { 0 }
}

// The place of the row before the one at p.
pub fn row_before(p: usize) -> usize
    ensures answer { result ≡ p - 6 }
{
    p.saturating_sub(6)
}

// The row whose section number stands at place p of the table.
pub fn row_at(table: &[u64], p: usize) -> [u64; 5]
    ensures answer { result ≡ row_of (drop p table.now) }
{
    if table.len() <= p {
        return [0; 5];
    }
    [
        get_or(table, p + 1, 0),
        get_or(table, p + 2, 0),
        get_or(table, p + 3, 0),
        get_or(table, p + 4, 0),
        get_or(table, p + 5, 0),
    ]
}

// The number of the label whose letter is x; how many labels there are, if x is no label's.
pub fn label_place(table: &[u64], labels: u32, x: u64) -> u32
    ensures answer { result ≡ place x (letters_at labels (drop 1 table.now)) }
{
    for i in 0..labels {
        if get_or(table, 1 + 6 * (i as usize) + 1, 0) == x {
            return i;
        }
    }
    labels
}

// Puts a row of section k at place n of the table, which has room for its six cells.
pub fn put_row(table: &mut [u64], n: usize, k: u64, row: [u64; 5])
    requires room { n + 6 ≤ length table.old }
    ensures written { ◌≡◌ {A = Buf} (table.new, n + 6) (puts (table.old, n) (k ∷ row)) }
{
    table[n] = k;
    table[n + 1..n + 6].copy_from_slice(&row);
}
