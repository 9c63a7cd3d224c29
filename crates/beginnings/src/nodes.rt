// How many places are followed from a node on: two functions that call each other, one for a node,
// one for its edges.
ghost use Rattle.std.specs.Prelude.{◌≡◌, ℕ, suc, ◌+◌, ◌≤◌, ◌<◌, length};
ghost use Rattle.block.specs.Sets.{has_scope};
ghost use Rattle.block.specs.Block.{Bounds};
ghost use Rattle.block.specs.Ask.{ask_goal};
ghost use Rattle.search.specs.Conditions.{Inside, LiveAt, WorthAt, Known};
ghost use Rattle.follow.specs.Steps.{FollowedEdge};
ghost use Rattle.beginnings.specs.Beginnings.{MOST, capped};
ghost use Rattle.beginnings.specs.Tables.{hopes_in};
ghost use Rattle.beginnings.specs.Steps.{ALL_SCOPES, Few, Tells, own_place, behind, behind_edges, MemoRight};

use crate::MOST;
use crate::memo::{look_up, slot_of, store};
use crate::near::flood;
use block::{ASKSIZE, SIZE, edge_at, edges_end, has_state};
use follow::{first_followed, next_followed};
use search::{ALL_LABELS, NOTHING_KNOWN, Node, entered, worth};

// A place counts itself if its state can still lead to acceptance.
fn own_place(hopes: u64, q: u64) -> u64
    ensures own { result ≡ own_place hopes q }
{
    if has_state(hopes, q) {
        return 1;
    }
    0
}

// The sum, or the most that is counted.
fn added(so: u64, more: u64) -> u64
    requires so { so ≤ MOST }
    requires more { more ≤ MOST }
    ensures sum { result ≡ capped (so + more) }
{
    let sum = so + more;
    if sum < MOST {
        return sum;
    }
    MOST
}

// The places from a node on. What lies behind it depends only on the free scopes that can be come
// to from it, so the others are let go first, and what was counted with these is looked up.
#[cycle(count_at_count_from)]
pub fn count_at(
    block: &[u64; SIZE],
    ask: &[u64; ASKSIZE],
    onward: &[u64],
    near: &[u64],
    hopes: u64,
    node: Node,
    memo: &mut [u64],
) -> u64
    requires bounds { Bounds block.now }
    requires live { LiveAt block.now (ask_goal ask.now) (has_scope node.free) ask.now }
    requires table { 64 ≤ length onward.now }
    requires worth { WorthAt block.now (ask_goal ask.now) ALL_SCOPES (hopes_in block.now) (has_scope node.free) onward.now }
    requires near { length near.now ≡ 64 }
    requires hopes { hopes ≡ hopes_in block.now }
    requires inside { Inside node }
    requires few { Few node.left (has_scope node.free) }
    requires memo { MemoRight block.now near.now ask.now memo.old }
    ensures memo { MemoRight block.now near.now ask.now memo.new }
    ensures told { Tells block.now near.now (ask_goal ask.now) (behind block.now ask.now (suc node.left) (has_scope node.free) node.scope node.state) result }
{
    let free = flood(near, node.free, node.scope);
    let at = slot_of(free, node.scope, node.state);
    let had = look_up(memo, at, free, node.scope, node.state);
    if had != 0 {
        return had;
    }
    let n = Node {
        free,
        left: node.left,
        scope: node.scope,
        state: node.state,
    };
    let own = own_place(hopes, node.state);
    let next = first_followed(block, ask, onward, n, NOTHING_KNOWN);
    let i = next.at;
    if edges_end(block, node.scope) <= i {
        return own;
    }
    let all = count_from(block, ask, onward, near, hopes, n, next.known, i, own, memo);
    store(memo, at, free, node.scope, node.state, all);
    all
}

// With those behind the node's edges from number p on, of which p itself is followed: `so` were
// counted before. Once the most is counted nothing more matters.
#[cycle(count_at_count_from)]
fn count_from(
    block: &[u64; SIZE],
    ask: &[u64; ASKSIZE],
    onward: &[u64],
    near: &[u64],
    hopes: u64,
    node: Node,
    known: u64,
    p: u64,
    so: u64,
    memo: &mut [u64],
) -> u64
    requires bounds { Bounds block.now }
    requires live { LiveAt block.now (ask_goal ask.now) (has_scope node.free) ask.now }
    requires table { 64 ≤ length onward.now }
    requires worth { WorthAt block.now (ask_goal ask.now) ALL_SCOPES (hopes_in block.now) (has_scope node.free) onward.now }
    requires near { length near.now ≡ 64 }
    requires hopes { hopes ≡ hopes_in block.now }
    requires inside { Inside node }
    requires few { Few node.left (has_scope node.free) }
    requires memo { MemoRight block.now near.now ask.now memo.old }
    requires known { Known block.now (ask_goal ask.now) node known }
    requires followed { FollowedEdge block.now ask.now onward.now node p }
    requires so { so ≤ MOST }
    ensures memo { MemoRight block.now near.now ask.now memo.new }
    ensures told { (x : ℕ) → Tells block.now near.now (ask_goal ask.now) x so → Tells block.now near.now (ask_goal ask.now) (x + behind_edges block.now ask.now node p) result }
{
    let x = edge_at(block, p);
    let behind = entered(node, x, worth(block, onward, node, ALL_LABELS, x));
    let n = added(so, count_at(block, ask, onward, near, hopes, behind, memo));
    if MOST <= n {
        return n;
    }
    let end = edges_end(block, node.scope);
    let further = next_followed(block, ask, onward, node, known, p + 1);
    let j = further.at;
    if end <= j {
        return n;
    }
    count_from(
        block,
        ask,
        onward,
        near,
        hopes,
        node,
        further.known,
        j,
        n,
        memo,
    )
}
