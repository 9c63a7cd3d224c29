// The turn of a step, looked up in the board's edges.
ghost use Rattle.std.specs.Prelude.{◌≡◌};
ghost use Rattle.scope_graph.specs.Order.{turn_meaning};
ghost use Rattle.scope_graph.specs.Turns.{turn_by};
ghost use Rattle.block.specs.Block.{block_hops};

use block::{SIZE, edge_at, edge_to, edge_turn, edges_end};

// A file has no more scopes, so no edge leaves one with this number or a greater one.
const SCOPES: u64 = 64;

// The turn of the step that leaves scope s by the label to the scope `to`: that of its edge row, or
// none where no row goes there.
pub fn step_turn(block: &[u64; SIZE], s: u64, label: u64, to: u64) -> Option<u64>
    ensures answer { turn_meaning result ≡ turn_by (block_hops block.now s) label to }
{
    if SCOPES <= s {
        return None;
    }
    let p = edge_to(block, s, label, to);
    if edges_end(block, s) <= p {
        return None;
    }
    Some(edge_turn(edge_at(block, p)))
}
