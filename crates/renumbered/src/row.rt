// A row under the new scope numbers.
ghost use Rattle.std.specs.Prelude.{◌≡◌, ◌+◌, ◌≤◌, ◌<◌, length, get_or, drop};
ghost use Rattle.scope_graph.specs.Renamed.{new_number};
ghost use Rattle.graph_rows.specs.Format.{shape_at};
ghost use Rattle.graph_rows.specs.Admission.{row_of};
ghost use Rattle.graph_rows.specs.Tested.{form_in};
ghost use Rattle.renumbered.specs.Renumbered.{value_under, row_under};

use graph_table::EDGES;

// The new number of scope x: where it first stands in the list.
pub fn new_number(was: &[u64], x: u64) -> u64
    ensures answer { result ≡ new_number was.now x }
{
    was.iter().position(|old| *old == x).unwrap_or(was.len()) as u64
}

// A value under its new number if it is a scope, else as it is.
#[tactic(auto, using(crate::proofs::Numbers::value_steps))]
fn new_value(was: &[u64], scope: bool, v: u64) -> u64
    ensures answer { result ≡ value_under (new_number was.now) scope v }
{
    if scope { new_number(was, v) } else { v }
}

// The row at place p of the table, under the list's numbers. From the edges on every row stands at
// a scope; an edge leads to another.
pub fn new_row(table: &[u64], p: usize, was: &[u64]) -> [u64; 5]
    requires whole { p + 6 ≤ length table.now }
    requires section { get_or table.now p 0 < 9 }
    ensures answer { result ≡ row_under (new_number was.now) (shape_at (form_in table.now) (get_or table.now p 0)).row
        (row_of (drop p table.now)) }
{
    let k = table[p];
    let first = new_value(was, EDGES as u64 <= k, table[p + 1]);
    let third = new_value(was, k == EDGES as u64, table[p + 3]);
    [first, table[p + 2], third, table[p + 4], table[p + 5]]
}
