// Edges by their turns (document 02, K12): looked up, and compared.
ghost use Rattle.std.specs.Prelude.{◌≡◌, ◌<◌};
ghost use Rattle.scope_graph.specs.Language.{by};
ghost use Rattle.scope_graph.specs.Turns.{later_step};
ghost use Rattle.block.specs.Block.{turn_cell, hop_of, goes, edge_to};

use crate::parts::{edge_label, edge_scope, edge_turn};
use crate::{SIZE, TURN, edge_at, edges_end, edges_from};

// No edge's turn is above this one.
pub fn most_turn(block: &[u64; SIZE]) -> u64
    ensures answer { result ≡ turn_cell block.now }
{
    block[TURN]
}

// Have the two edges one label, and the first the higher turn?
pub fn is_later(x: u64, y: u64) -> bool
    ensures answer { result ≡ later_step (by (hop_of x).step) (by (hop_of y).step) }
{
    edge_label(x) == edge_label(y) && edge_turn(y) < edge_turn(x)
}

// Does the edge go by the label to the scope?
fn is_edge(x: u64, label: u64, to: u64) -> bool
    ensures answer { result ≡ goes label to (hop_of x) }
{
    edge_label(x) == label && edge_scope(x) == to
}

// The number of the first edge that leaves scope s by the label to the scope; if there is none, the
// number behind the scope's last edge.
pub fn edge_to(block: &[u64; SIZE], s: u64, label: u64, to: u64) -> u64
    requires scope { s < 64 }
    ensures answer { result ≡ edge_to block.now s label to }
{
    let end = edges_end(block, s);
    let from = edges_from(block, s);
    for p in from..end {
        if is_edge(edge_at(block, p), label, to) {
            return p;
        }
    }
    from.max(end)
}
