// The walk from a node on: two functions that call each other, one for a node, one for its edges.
ghost use Rattle.std.specs.Prelude.{◌≡◌, not, ◌||◌, suc, ◌+◌, ◌<◌, ◌≤◌, length};
ghost use mathlib.Core.List.{[], ◌∷◌, ◌++◌, flat_map};
ghost use Rattle.scope_graph.specs.Order.{end_of};
ghost use Rattle.block.specs.Sets.{has_scope, places_of};
ghost use Rattle.block.specs.Block.{Bounds, hop_of, hops_on};
ghost use Rattle.block.specs.Ask.{ask_goal};
ghost use Rattle.search.specs.Tables.{plain_end};
ghost use Rattle.search.specs.Conditions.{Inside, LiveAt, WorthAt, Known};
ghost use Rattle.follow.specs.Tally.{State, take_rows};
ghost use Rattle.follow.specs.Walk.{path_hops, rows_from};
ghost use Rattle.follow.specs.Steps.{NoRoom, own_rows, hop_rows, end_cut, FollowedEdge};

use crate::count::{is_done, put_place};
use crate::next::{Next, first_followed, next_followed};
use crate::rows::put_entries;
use crate::{Aim, Path, Setting, Tally, Task};
use block::{ask_goal, edge_at, edges_end, has, has_state};
use search::{ALL_LABELS, Learnt, NOTHING_KNOWN, Node, Table, entered, learn, live_table, worth};

// The path with edge x's hop more.
fn pushed(path: Path, x: u64) -> Path
    requires room { path.depth < 64 }
    ensures depth { result.depth ≡ suc path.depth }
    ensures hops { path_hops result ≡ path_hops path ++ (hop_of x ∷ []) }
{
    let mut hops = path.hops;
    hops[path.depth] = (x % 65536) as u16;
    Path {
        hops,
        depth: path.depth + 1,
    }
}

// Is the node's place asked for?
fn is_asked(aim: Aim, n: Node) -> bool
    requires inside { Inside n }
    ensures answer { result ≡ places_of aim.scopes aim.states n.scope n.state }
{
    has(aim.scopes, n.scope) && has_state(aim.states, n.state)
}

// Is the node passed over: not asked for, or the end sought is cut there? A place that is not asked
// for costs no search.
fn own_end(on: &Setting, n: Node) -> Learnt
    requires bounds { Bounds on.now.block.now }
    requires live { LiveAt on.now.block.now (ask_goal on.now.ask.now) (has_scope n.free) on.now.ask.now }
    requires inside { Inside n }
    ensures known { Known on.now.block.now (ask_goal on.now.ask.now) n result.known }
    ensures passed { result.cut ≡ (not (places_of on.now.aim.scopes on.now.aim.states n.scope n.state) || end_cut on.now.block.now on.now.ask.now n (plain_end (end_of on.now.aim.end))) }
{
    if !is_asked(on.aim, n) {
        return Learnt {
            known: NOTHING_KNOWN,
            cut: true,
        };
    }
    let ask = on.ask;
    learn(on.block, ask_goal(ask), ask, n, NOTHING_KNOWN, on.aim.end)
}

// The node's own rows, unless it is passed over: those of its entries, or one where places are
// sought.
fn visit(on: &Setting, path: Path, n: Node, passed: bool, out: &mut [u8], tally: Tally) -> Tally
    requires inside { Inside n }
    requires room { NoRoom on.now.aim }
    ensures taken { ◌≡◌ {A = State} (out.new, result) (take_rows on.now.aim.bounds (out.old, tally) (own_rows on.now.block.now on.now.table.now on.now.ask.now on.now.aim (path_hops path) n passed)) }
{
    if passed {
        return tally;
    }
    match on.aim.task {
        Task::Entries => put_entries(on, path, n.scope, out, tally),
        Task::Place => put_place(on.aim.bounds, tally),
    }
}

// With fewer hops than this left, going through them takes less than a new table does.
const FEW: usize = 6;

// Was a hop entered in vain, by a table that was handed down? Then the table hopes too much. With
// few hops left that does not matter.
fn in_vain(left: usize, made: Table, before: Tally, after: Tally) -> bool {
    FEW <= left
        && matches!(made, Table::Handed)
        && before.bytes == after.bytes
        && before.entries == after.entries
}

// The followed places from a node on, behind the path: the node's own rows, then hop by hop.
// `onward` holds the places worth entering on the way to what is asked for.
#[cycle(follow_at_follow_from)]
pub(crate) fn follow_at(
    on: &Setting,
    onward: &[u64],
    path: Path,
    node: Node,
    out: &mut [u8],
    tally: Tally,
) -> Tally
    requires bounds { Bounds on.now.block.now }
    requires live { LiveAt on.now.block.now (ask_goal on.now.ask.now) (has_scope node.free) on.now.ask.now }
    requires table { 64 ≤ length onward.now }
    requires worth { WorthAt on.now.block.now (ask_goal on.now.ask.now) on.now.aim.scopes on.now.aim.states (has_scope node.free) onward.now }
    requires inside { Inside node }
    requires depth { path.depth + node.left < 64 }
    requires room { NoRoom on.now.aim }
    ensures taken { ◌≡◌ {A = State} (out.new, result) (take_rows on.now.aim.bounds (out.old, tally) (rows_from on.now.block.now on.now.table.now on.now.ask.now on.now.aim (path_hops path) (suc node.left) (has_scope node.free) node.scope node.state)) }
{
    let own = own_end(on, node);
    let t = visit(on, path, node, own.cut, out, tally);
    if node.left == 0 {
        return t;
    }
    if is_done(on.aim.bounds, t) {
        return t;
    }
    let next = first_followed(on.block, on.ask, onward, node, own.known);
    if edges_end(on.block, node.scope) <= next.at {
        return t;
    }
    follow_from(on, onward, path, node, next, Table::Handed, out, t)
}

// The same by the node's edges from the next one on. That is followed, and found before the call, as
// half of all calls would find none. A hop entered in vain shows that the table of places worth
// entering hopes too much: before another is entered it is made anew for the scopes that are free
// now, once for the node. Which table is used changes no answer.
#[cycle(follow_at_follow_from)]
fn follow_from(
    on: &Setting,
    onward: &[u64],
    path: Path,
    node: Node,
    next: Next,
    made: Table,
    out: &mut [u8],
    tally: Tally,
) -> Tally
    requires bounds { Bounds on.now.block.now }
    requires live { LiveAt on.now.block.now (ask_goal on.now.ask.now) (has_scope node.free) on.now.ask.now }
    requires table { 64 ≤ length onward.now }
    requires worth { WorthAt on.now.block.now (ask_goal on.now.ask.now) on.now.aim.scopes on.now.aim.states (has_scope node.free) onward.now }
    requires inside { Inside node }
    requires depth { path.depth + node.left < 64 }
    requires room { NoRoom on.now.aim }
    requires known { Known on.now.block.now (ask_goal on.now.ask.now) node next.known }
    requires followed { FollowedEdge on.now.block.now on.now.ask.now onward.now node next.at }
    requires some { 0 < node.left }
    ensures taken { ◌≡◌ {A = State} (out.new, result) (take_rows on.now.aim.bounds (out.old, tally) (flat_map (hop_rows on.now.block.now on.now.table.now on.now.ask.now on.now.aim (path_hops path) node) (hops_on on.now.block.now node.scope next.at))) }
{
    let x = edge_at(on.block, next.at);
    let behind = entered(node, x, worth(on.block, onward, node, ALL_LABELS, x));
    let t = follow_at(on, onward, pushed(path, x), behind, out, tally);
    if is_done(on.aim.bounds, t) {
        return t;
    }
    let end = edges_end(on.block, node.scope);
    let further = next_followed(on.block, on.ask, onward, node, next.known, next.at + 1);
    if end <= further.at {
        return t;
    }
    if !in_vain(node.left, made, tally, t) {
        return follow_from(on, onward, path, node, further, made, out, t);
    }
    let new = live_table(
        on.block,
        ask_goal(on.ask),
        on.aim.scopes,
        on.aim.states,
        node.free,
    );
    let again = next_followed(on.block, on.ask, &new, node, further.known, further.at);
    if end <= again.at {
        return t;
    }
    follow_from(on, &new, path, node, again, Table::Anew, out, t)
}
