// The way from place to nearest place. In a dense graph most searches end on it, where going
// through the paths would try many in vain.
ghost use Rattle.std.specs.Prelude.{◌≡◌, true, suc, ◌<◌, ◌≤◌, length};
ghost use Rattle.block.specs.Block.{first_edge, hop_of, block_hops};
ghost use Rattle.search.specs.Tables.{table_board};
ghost use Rattle.search.specs.Conditions.{Inside};
ghost use Rattle.search.specs.Steps.{worth_state, HopAt, leads_by};

use crate::exists::is_goal;
use crate::hops::{entered, worth};
use crate::near::DENSE;
use crate::{ALL_LABELS, Node};
use block::{EDGES, SIZE, edge_at, edge_scope, edges_end, edges_from};

// How far what is sought is from the place, by what is noted behind a table's sets; 256 where
// nothing is noted: a table made anew has no distances.
fn distance(live: &[u64], s: u64, q: u64) -> u64 {
    let k = 64 + (s % 64 * 2 + q / 8 % 2) as usize;
    if live.len() <= k {
        return 256;
    }
    let d = (live[k] >> (q % 8 * 8)) % 256;
    if d == 0 { 256 } else { d }
}

// The distance of the place that edge x's hop comes to, if it is asked for and worth entering; else
// 256.
fn hop_distance(block: &[u64; SIZE], live: &[u64], n: Node, labels: u64, x: u64) -> u64
    requires table { 64 ≤ length live.now }
    requires inside { Inside n }
    ensures worth { result < 256 → worth_state block.now live.now n.free n.state labels (hop_of x) < 16 }
{
    let r = worth(block, live, n, labels, x);
    if 15 < r {
        return 256;
    }
    distance(live, edge_scope(x), r)
}

// The node's edge whose hop, of those asked for, comes to the nearest place; past its edges if none
// comes to a place with a distance.
fn nearest(block: &[u64; SIZE], live: &[u64], n: Node, labels: u64) -> u64
    requires table { 64 ≤ length live.now }
    requires inside { Inside n }
    ensures hop { result < first_edge block.now (suc n.scope) → HopAt block.now live.now n labels result }
{
    let end = edges_end(block, n.scope);
    let mut best = end;
    let mut least: u64 = 256;
    for p in edges_from(block, n.scope)..end {
        let d = hop_distance(block, live, n, labels, edge_at(block, p));
        if least <= d {
            continue;
        }
        least = d;
        best = p;
    }
    best
}

// Does the way that goes on from place to nearest place, by a hop that is asked for, come to what
// is sought? If so it is there; if not, nothing is known.
pub fn straight(block: &[u64; SIZE], goal: u64, live: &[u64], n: Node, labels: u64) -> bool
    requires table { 64 ≤ length live.now }
    requires inside { Inside n }
    ensures leads { result ≡ true → leads_by (table_board block.now goal) n labels (block_hops block.now n.scope) ≡ true }
{
    if block[EDGES] < DENSE {
        return false;
    }
    let mut m = n;
    let mut by = labels;
    while 0 < m.left {
        let p = nearest(block, live, m, by);
        if edges_end(block, m.scope) <= p {
            return false;
        }
        let x = edge_at(block, p);
        let r = worth(block, live, m, by, x);
        m = entered(m, x, r);
        if is_goal(block, goal, m.scope, m.state) {
            return true;
        }
        by = ALL_LABELS;
    }
    false
}
