// Cells and rows put into a table that has room for them.
ghost use Rattle.std.specs.Prelude.{◌≡◌, ℕ, ◌+◌, ◌*◌, ◌≤◌, ◌<◌, false, List, length, get_or};
ghost use Rattle.std.specs.Option.{option_to_list};
ghost use Rattle.std.specs.declared.option.Option.{Option};
ghost use Rattle.text_field.specs.Buffer.{Buf, puts};
ghost use Rattle.graph_rows.specs.Admission.{Row};
ghost use Rattle.graph_rows.specs.Formed.{cells_of};
ghost use Rattle.ruled.specs.Ruled.{rows_to, transition_at, accept_at};

use graph_table::{ROW, put_row};
use path_rules::{LABELS, NOWHERE, Rules};

// The cells from place n on: the place after them.
pub fn put_cells(cells: &[u64], table: &mut [u64], n: usize) -> usize
    requires room { n + length cells.now ≤ length table.old }
    ensures written { ◌≡◌ {A = Buf} (table.new, result) (puts (table.old, n) cells.now) }
    ensures place { result ≡ n + length cells.now }
{
    let end = n + cells.len();
    table[n..end].copy_from_slice(cells);
    end
}

// The row of cell k of the transitions, if it leads to a state by a label.
#[tactic(auto, unfolding(crate::specs::Ruled::transition_at, crate::specs::Ruled::is_transition, graph_rows::specs::Decode::kept_if))]
pub fn transition_row(r: &Rules, labels: usize, k: usize) -> Option<[u64; 5]>
    requires cell { k < 128 }
    ensures answer { option_to_list result ≡ transition_at r.now.states labels k (get_or r.now.next k 0) }
{
    let to = r.next[k];
    if k / LABELS < r.states && k % LABELS < labels && to < NOWHERE {
        let state = (k / LABELS) as u64;
        let label = (k % LABELS) as u64;
        Some([state, label, to, 0, 0])
    } else {
        None
    }
}

// The row of state q, if it accepts.
#[tactic(auto, unfolding(crate::specs::Ruled::accept_at, crate::specs::Ruled::is_accepting, graph_rows::specs::Decode::kept_if))]
pub fn accept_row(r: &Rules, q: usize) -> Option<[u64; 5]>
    requires cell { q < 16 }
    ensures answer { option_to_list result ≡ accept_at r.now.states q (get_or r.now.accepts q false) }
{
    if q < r.states && r.accepts[q] {
        Some([q as u64, 0, 0, 0, 0])
    } else {
        None
    }
}

// The rows of a section by their numbers, each of which may have none: the place after them.
pub fn put_rows<F: Fn(usize) -> Option<[u64; 5]>>(
    section: usize,
    count: usize,
    row_of: F,
    table: &mut [u64],
    n: usize,
) -> usize
    requires room { n + 6 * count ≤ length table.old }
    requires callable { (k : ℕ) → k < count → F.pre row_of k }
    ensures written { (f : ℕ → List Row) → ((k : ℕ) (o : Option Row) → k < count → F.post row_of k o → option_to_list o ≡ f k)
        → ◌≡◌ {A = Buf} (table.new, result) (puts (table.old, n) (cells_of section (rows_to f count))) }
    ensures place { result ≤ n + 6 * count }
{
    let mut at = n;
    for k in 0..count {
        if let Some(row) = row_of(k) {
            put_row(table, at, section as u64, row);
            at += ROW;
        }
    }
    at
}
