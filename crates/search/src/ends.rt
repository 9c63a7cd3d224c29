// Which ends are cut at a node, and what is learnt of its ends on the way.
ghost use Rattle.std.specs.Prelude.{◌≡◌, ℕ, ◌<◌, ◌≤◌, length};
ghost use Rattle.scope_graph.specs.Order.{end_of};
ghost use Rattle.block.specs.Block.{Bounds, pair_flag};
ghost use Rattle.block.specs.Sets.{has_bit, has_scope};
ghost use Rattle.search.specs.Board.{cut_here};
ghost use Rattle.search.specs.Tables.{plain_end, table_order, table_board};
ghost use Rattle.search.specs.Conditions.{Inside, LiveAt, Known, behind_end};

use crate::exists::{Table, exists_from, is_goal};
use crate::straight::straight;
use crate::{Learnt, Node};
use block::{BETTER, SIZE, edges_from, has, single};

// Does what is sought lie at the end with number a: here, or behind a hop with its label? The
// nearest way is tried first.
fn end_leads(block: &[u64; SIZE], goal: u64, live: &[u64], n: Node, a: u64) -> bool
    requires bounds { Bounds block.now }
    requires table { 64 ≤ length live.now }
    requires inside { Inside n }
    requires live { LiveAt block.now goal (has_scope n.free) live.now }
    requires end { a < 9 }
    ensures answer { result ≡ behind_end (table_board block.now goal) n.left (has_scope n.free) n.scope n.state a }
{
    if a == 0 {
        return is_goal(block, goal, n.scope, n.state);
    }
    let labels = single(a - 1);
    if straight(block, goal, live, n, labels) {
        return true;
    }
    exists_from(
        block,
        goal,
        live,
        n,
        labels,
        Table::Handed,
        edges_from(block, n.scope),
    )
}

// The ends that are preferred to the end with number c, as a set.
fn better(block: &[u64; SIZE], c: u64) -> u64
    requires end { c < 9 }
    ensures answer { (a : ℕ) → has_bit result a ≡ pair_flag block.now a c }
{
    block[BETTER + c as usize] % 512
}

// Is the end with number c cut at the node, by its label alone? Only ends that are preferred to it
// are asked about, and each once for all questions at the node: what was learnt is handed on. Of
// which ends `known` tells more is left open: whatever it tells is so, and saves a later question.
pub fn learn(block: &[u64; SIZE], goal: u64, live: &[u64], n: Node, known: u64, c: u64) -> Learnt
    requires bounds { Bounds block.now }
    requires table { 64 ≤ length live.now }
    requires inside { Inside n }
    requires live { LiveAt block.now goal (has_scope n.free) live.now }
    requires known { Known block.now goal n known }
    ensures known { Known block.now goal n result.known }
    ensures cut { result.cut ≡ cut_here (table_board block.now goal) (table_order block.now) n.left (has_scope n.free) n.scope n.state (plain_end (end_of c)) }
{
    if 8 < c {
        return Learnt { known, cut: false };
    }
    let first = better(block, c);
    if known & first != 0 {
        return Learnt { known, cut: true };
    }
    let ask = first ^ (first & (known >> 16));
    if ask == 0 {
        return Learnt { known, cut: false };
    }
    let mut out = known;
    for a in 0..9 {
        if !has(ask, a) {
            continue;
        }
        if end_leads(block, goal, live, n, a) {
            return Learnt {
                known: out | single(a),
                cut: true,
            };
        }
        out = out | single(16 + a);
    }
    Learnt {
        known: out,
        cut: false,
    }
}
