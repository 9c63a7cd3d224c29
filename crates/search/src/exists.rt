// Is what is sought at the end of a path that goes on from a node? Two functions that call each
// other: one for a node, one for its hops.
ghost use Rattle.std.specs.Prelude.{◌≡◌, suc, ◌<◌, ◌≤◌, length};
ghost use Rattle.block.specs.Block.{Bounds, accept_set, hops_on};
ghost use Rattle.block.specs.Sets.{has_scope, places_of};
ghost use Rattle.search.specs.Board.{exists_from};
ghost use Rattle.search.specs.Tables.{table_board};
ghost use Rattle.search.specs.Conditions.{Inside, LiveAt};
ghost use Rattle.search.specs.Steps.{leads_by};

use crate::hops::{entered, next_hop, worth};
use crate::tables::live_table;
use crate::{ALL_LABELS, Node};
use block::{SIZE, accept_set, edge_at, edges_end, edges_from, has, has_state};

// Is what is sought at the place?
pub fn is_goal(block: &[u64; SIZE], goal: u64, s: u64, q: u64) -> bool
    requires scope { s < 64 }
    ensures answer { result ≡ places_of goal (accept_set block.now) s q }
{
    has(goal, s) && has_state(accept_set(block), q)
}

// The table at hand: the one handed down, or one made anew for the scopes that are free at the
// node.
#[derive(Clone, Copy)]
pub enum Table {
    Handed,
    Anew,
}

// Is what is sought at the node itself or behind it?
#[cycle(exists_at_exists_from)]
pub(crate) fn exists_at(block: &[u64; SIZE], goal: u64, live: &[u64], n: Node) -> bool
    requires bounds { Bounds block.now }
    requires table { 64 ≤ length live.now }
    requires inside { Inside n }
    requires live { LiveAt block.now goal (has_scope n.free) live.now }
    ensures answer { result ≡ exists_from (table_board block.now goal) (suc n.left) (has_scope n.free) n.scope n.state }
{
    if is_goal(block, goal, n.scope, n.state) {
        return true;
    }
    exists_from(
        block,
        goal,
        live,
        n,
        ALL_LABELS,
        Table::Handed,
        edges_from(block, n.scope),
    )
}

// Is it behind a hop that is asked for, by the node's edges from number p on? A hop entered in vain
// shows that the table hopes too much: before another is entered it is made anew, once for the
// node.
#[cycle(exists_at_exists_from)]
pub fn exists_from(
    block: &[u64; SIZE],
    goal: u64,
    live: &[u64],
    n: Node,
    labels: u64,
    made: Table,
    p: u64,
) -> bool
    requires bounds { Bounds block.now }
    requires table { 64 ≤ length live.now }
    requires inside { Inside n }
    requires live { LiveAt block.now goal (has_scope n.free) live.now }
    ensures answer { result ≡ leads_by (table_board block.now goal) n labels (hops_on block.now n.scope p) }
{
    if n.left == 0 {
        return false;
    }
    let end = edges_end(block, n.scope);
    let i = next_hop(block, live, n, labels, p);
    if end <= i {
        return false;
    }
    let x = edge_at(block, i);
    let r = worth(block, live, n, labels, x);
    if exists_at(block, goal, live, entered(n, x, r)) {
        return true;
    }
    if let Table::Anew = made {
        return exists_from(block, goal, live, n, labels, Table::Anew, i + 1);
    }
    let j = next_hop(block, live, n, labels, i + 1);
    if end <= j {
        return false;
    }
    let new = live_table(block, 0, goal, accept_set(block), n.free);
    exists_from(block, goal, &new, n, labels, Table::Anew, j)
}
