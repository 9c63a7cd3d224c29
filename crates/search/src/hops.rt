// The hops of a node that are worth entering.
ghost use Rattle.std.specs.Prelude.{◌≡◌, ◌<◌, ◌≤◌, length};
ghost use Rattle.block.specs.Block.{hop_of};
ghost use Rattle.search.specs.Conditions.{Inside};
ghost use Rattle.search.specs.Steps.{worth_state, next_hop, Entered};

use crate::Node;
use crate::places::place;
use block::{SIZE, edge_at, edge_label, edge_scope, edges_end, has, next_state, taken};

// The state after edge x's hop if its label is asked for and it is worth entering, else 16. Whether
// the scope is free comes first, as the cheapest test.
pub fn worth(block: &[u64; SIZE], table: &[u64], n: Node, labels: u64, x: u64) -> u64
    requires table { 64 ≤ length table.now }
    requires inside { Inside n }
    ensures answer { result ≡ worth_state block.now table.now n.free n.state labels (hop_of x) }
{
    let to = edge_scope(x);
    if !has(n.free, to) {
        return 16;
    }
    let label = edge_label(x);
    if !has(labels, label) {
        return 16;
    }
    let r = next_state(block, n.state, label);
    if place(table, to, r) { r } else { 16 }
}

// The next edge, from number p on, of the node's scope whose hop is asked for and worth entering. If
// there is none, the number behind the scope's last edge, or p if that is behind it already.
pub fn next_hop(block: &[u64; SIZE], table: &[u64], n: Node, labels: u64, p: u64) -> u64
    requires table { 64 ≤ length table.now }
    requires inside { Inside n }
    ensures answer { result ≡ next_hop block.now table.now n labels p }
{
    let end = edges_end(block, n.scope);
    for i in p..end {
        if worth(block, table, n, labels, edge_at(block, i)) < 16 {
            return i;
        }
    }
    end.max(p)
}

// The node behind edge x's hop, in state r.
pub fn entered(n: Node, x: u64, r: u64) -> Node
    requires left { 0 < n.left }
    ensures answer { Entered n (hop_of x) r result }
{
    let scope = edge_scope(x);
    let free = taken(n.free, scope);
    let left = n.left - 1;
    Node {
        free,
        left,
        scope,
        state: r,
    }
}
