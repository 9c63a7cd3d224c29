// Which edges' steps are cut at a node: as their labels are, or by a later hop of the label
// (document 02, K12).
ghost use Rattle.std.specs.Prelude.{◌≡◌, ◌&&◌, ◌≤◌, length};
ghost use Rattle.scope_graph.specs.Language.{by};
ghost use Rattle.scope_graph.specs.Turns.{later_step};
ghost use Rattle.block.specs.Block.{Bounds, edge_cell, hop_of, block_hops};
ghost use Rattle.block.specs.Sets.{has_scope};
ghost use Rattle.search.specs.Board.{hop_leads, cut_here};
ghost use Rattle.search.specs.Tables.{table_order, table_board};
ghost use Rattle.search.specs.Conditions.{Inside, LiveAt, Known};
ghost use Rattle.search.specs.Steps.{later_leads};

use crate::ends::learn;
use crate::exists::exists_at;
use crate::hops::{entered, worth};
use crate::{ALL_LABELS, Learnt, Node};
use block::{SIZE, edge_at, edge_label, edge_turn, edges_end, edges_from, is_later, most_turn};

// Is edge number p later than edge x, and does its hop lead from the node to what is sought?
fn later_edge(block: &[u64; SIZE], goal: u64, live: &[u64], n: Node, x: u64, p: u64) -> bool
    requires bounds { Bounds block.now }
    requires table { 64 ≤ length live.now }
    requires inside { Inside n }
    requires live { LiveAt block.now goal (has_scope n.free) live.now }
    ensures answer { result ≡ (later_step (by (hop_of (edge_cell block.now p)).step) (by (hop_of x).step) && hop_leads (table_board block.now goal) n.left (has_scope n.free) n.state (hop_of (edge_cell block.now p))) }
{
    let y = edge_at(block, p);
    if !is_later(y, x) {
        return false;
    }
    if n.left == 0 {
        return false;
    }
    let r = worth(block, live, n, ALL_LABELS, y);
    if 15 < r {
        return false;
    }
    exists_at(block, goal, live, entered(n, y, r))
}

// Does a hop of edge x's label and a higher turn lead from the node to what is sought?
fn later_leads(block: &[u64; SIZE], goal: u64, live: &[u64], n: Node, x: u64) -> bool
    requires bounds { Bounds block.now }
    requires table { 64 ≤ length live.now }
    requires inside { Inside n }
    requires live { LiveAt block.now goal (has_scope n.free) live.now }
    ensures answer { result ≡ later_leads (table_board block.now goal) n (hop_of x).step (block_hops block.now n.scope) }
{
    let end = edges_end(block, n.scope);
    for p in edges_from(block, n.scope)..end {
        if later_edge(block, goal, live, n, x, p) {
            return true;
        }
    }
    false
}

// Is edge x's step cut at the node? What was learnt of its ends is handed on, as `learn` does. An
// edge whose turn no other is above, as all are in a file without turns, is cut as its label is. Of
// which ends `known` tells more is left open: whatever it tells is so, and saves a later question.
pub fn edge_cut(block: &[u64; SIZE], goal: u64, live: &[u64], n: Node, known: u64, x: u64) -> Learnt
    requires bounds { Bounds block.now }
    requires table { 64 ≤ length live.now }
    requires inside { Inside n }
    requires live { LiveAt block.now goal (has_scope n.free) live.now }
    requires known { Known block.now goal n known }
    ensures known { Known block.now goal n result.known }
    ensures cut { result.cut ≡ cut_here (table_board block.now goal) (table_order block.now) n.left (has_scope n.free) n.scope n.state (by (hop_of x).step) }
{
    let told = learn(block, goal, live, n, known, edge_label(x) + 1);
    if told.cut {
        return told;
    }
    if most_turn(block) <= edge_turn(x) {
        return told;
    }
    let cut = later_leads(block, goal, live, n, x);
    Learnt {
        known: told.known,
        cut,
    }
}
