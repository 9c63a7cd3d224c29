// Whether a table has an edge already, at whatever turn. `find` tells edges of different turns
// apart, as their key does, but a file may have an edge only once (document 02, K12).
ghost use Rattle.std.specs.Prelude.{◌≡◌, ◌+◌, ◌≤◌, length, drop};
ghost use Rattle.graph_rows.specs.Format.{edge_section};
ghost use Rattle.graph_rows.specs.Admission.{repeats};
ghost use Rattle.graph_rows.specs.Decode.{rows_in};
ghost use Rattle.graph_change.specs.Place.{is_edge};

use graph_table::{EDGES, ROW, edge_row, first_row, in_section};

// Is the row at place p an edge with the from, label and to of the row given?
#[tactic(auto, using(crate::proofs::EdgeLaws::edge_steps))]
fn is_edge(cells: &[u64], p: usize, row: [u64; 5]) -> bool
    requires whole { p + 6 ≤ length cells.now }
    ensures answer { result ≡ is_edge row (drop p cells.now) }
{
    if !in_section(cells, p, EDGES as u64) {
        return false;
    }
    let edge = edge_row(cells, p);
    edge.from == row[0] && (edge.label == row[1] && edge.to == row[2])
}

// Has an edge of the table the from, label and to of the row given, at whatever turn? Then the
// table with that row too is refused by 4.
#[tactic(auto, using(crate::proofs::EdgeLaws::among_steps))]
pub fn has_edge(cells: &[u64], row: [u64; 5]) -> bool
    ensures answer { result ≡ repeats (rows_in edge_section cells.now) row }
{
    let first = first_row(cells);
    for i in 0..(cells.len() - first) / ROW {
        if is_edge(cells, first + i * ROW, row) {
            return true;
        }
    }
    false
}
