// One step of a path row: whether an edge goes there, the state after it, and the node behind it.
ghost use Rattle.std.specs.Prelude.{◌≡◌, ◌<◌};
ghost use Rattle.block.specs.Block.{block_hops};
ghost use Rattle.search.specs.Conditions.{Inside};
ghost use Rattle.judge.specs.Steps.{hop_to, has_hop, state_on, state_along, Behind};

use crate::limits::{LABELS, NO_STATE, SCOPES};
use block::{SIZE, edge_to, edges_end, has, next_state, taken};
use search::Node;

// Does an edge that leaves scope s go by the label to the scope `to`?
fn has_edge(block: &[u64; SIZE], s: u64, label: u64, to: u64) -> bool
    requires scope { s < 64 }
    ensures answer { result ≡ has_hop (hop_to block.now s label to) (block_hops block.now s) }
{
    edge_to(block, s, label, to) < edges_end(block, s)
}

// The state after a hop from the node to a free scope; 16 or above for none.
pub fn state_on(block: &[u64; SIZE], n: Node, label: u64, to: u64) -> u64
    requires inside { Inside n }
    ensures answer { result ≡ state_on block.now n (hop_to block.now n.scope label to) }
{
    if SCOPES <= to || !has(n.free, to) || LABELS <= label {
        return NO_STATE;
    }
    next_state(block, n.state, label)
}

// The state after a hop to a free scope along an edge that leaves the node's scope; 16 or above for
// none.
pub fn state_along(block: &[u64; SIZE], n: Node, label: u64, to: u64) -> u64
    requires inside { Inside n }
    ensures answer { result ≡ state_along block.now n (hop_to block.now n.scope label to) }
{
    if !has_edge(block, n.scope, label, to) {
        return NO_STATE;
    }
    state_on(block, n, label, to)
}

// The node behind a hop to the scope, in the state, with `left` hops that may still be entered.
pub fn behind(n: Node, to: u64, state: u64, left: usize) -> Node
    requires scope { to < 64 }
    ensures answer { Behind n to state left result }
{
    Node {
        free: taken(n.free, to),
        left,
        scope: to,
        state,
    }
}
