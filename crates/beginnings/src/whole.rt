// The count from a query's start.
ghost use Rattle.std.specs.Prelude.{◌≡◌, true, ℕ, suc, ◌≤◌, ◌<◌, ltb, length};
ghost use Rattle.block.specs.Sets.{has_scope};
ghost use Rattle.block.specs.Block.{Bounds, scopes_cell};
ghost use Rattle.block.specs.Ask.{ask_start, ask_goal};
ghost use Rattle.search.specs.Conditions.{free_at, Inside, LiveAt, WorthAt};
ghost use Rattle.beginnings.specs.Beginnings.{MOST, capped};
ghost use Rattle.beginnings.specs.Tables.{hopes_in, places_behind, InScopes};
ghost use Rattle.beginnings.specs.Steps.{ALL_SCOPES, Few, Uncut, Tells, behind};

use crate::MOST;
use crate::ahead::ahead;
use crate::memo::CELLS;
use crate::near::near_table;
use crate::nodes::count_at;
use crate::plain::{ENOUGH, counted_few};
use crate::uncut::is_uncut;
use block::{ASKSIZE, BETTER, SIZE, accept_set, ask_goal, ask_start, scope_count, taken};
use board::hopeful;
use search::{ALL, Node, live_table};

// The scopes below n, as a set.
fn first_scopes(n: u64) -> u64
    requires some { 0 < n }
    requires few { n ≤ 64 }
    ensures answer { (t : ℕ) → has_scope result t ≡ ltb t n }
{
    ALL >> (64 - n)
}

// The states from which transitions alone lead to acceptance. The next states are the block's first
// cells, up to those of the order.
fn hopes_of(block: &[u64; SIZE]) -> u64
    ensures answer { result ≡ hopes_in block.now }
{
    hopeful(&block[..BETTER], accept_set(block))
}

// The places from a node on, with an empty memo.
fn count_by(
    block: &[u64; SIZE],
    ask: &[u64; ASKSIZE],
    onward: &[u64],
    near: &[u64],
    hopes: u64,
    node: Node,
) -> u64
    requires bounds { Bounds block.now }
    requires live { LiveAt block.now (ask_goal ask.now) (has_scope node.free) ask.now }
    requires table { 64 ≤ length onward.now }
    requires worth { WorthAt block.now (ask_goal ask.now) ALL_SCOPES (hopes_in block.now) (has_scope node.free) onward.now }
    requires near { length near.now ≡ 64 }
    requires hopes { hopes ≡ hopes_in block.now }
    requires inside { Inside node }
    requires few { Few node.left (has_scope node.free) }
    ensures told { Tells block.now near.now (ask_goal ask.now) (behind block.now ask.now (suc node.left) (has_scope node.free) node.scope node.state) result }
{
    let mut memo = [0u64; CELLS];
    count_at(block, ask, onward, near, hopes, node, &mut memo)
}

// The widths of stages that are tried, from the first up to the second, each a third above the
// last: with wider stages more is counted, and later.
const NARROW: u64 = 12;

const WIDE: u64 = 52;

// Does counting in stages come to the most that is counted? Stages that leave nothing out are not
// tried: all is counted as soon.
fn comes_to_most(
    block: &[u64; SIZE],
    ask: &[u64; ASKSIZE],
    onward: &[u64],
    near: &[u64],
    hopes: u64,
    node: Node,
) -> bool
    requires bounds { Bounds block.now }
    requires live { LiveAt block.now (ask_goal ask.now) (has_scope node.free) ask.now }
    requires table { 64 ≤ length onward.now }
    requires worth { WorthAt block.now (ask_goal ask.now) ALL_SCOPES (hopes_in block.now) (has_scope node.free) onward.now }
    requires near { length near.now ≡ 64 }
    requires hopes { hopes ≡ hopes_in block.now }
    requires inside { Inside node }
    requires few { Few node.left (has_scope node.free) }
    requires uncut { Uncut block.now (ask_goal ask.now) }
    ensures most { result ≡ true → MOST ≤ capped (behind block.now ask.now (suc node.left) (has_scope node.free) node.scope node.state) }
{
    let mut width = NARROW;
    while width < WIDE {
        let fewer = ahead(near, node.scope, width);
        if near == fewer.as_slice() {
            return false;
        }
        if MOST <= count_by(block, ask, onward, &fewer, hopes, node) {
            return true;
        }
        width += width / 3;
    }
    false
}

// The number of the query's beginnings, however many. Where no step is cut it is first tried to
// come to the most in stages, since counting all the others may take long.
fn count_all(block: &[u64; SIZE], ask: &[u64; ASKSIZE], onward: &[u64], hopes: u64) -> u64
    requires bounds { Bounds block.now }
    requires live { LiveAt block.now (ask_goal ask.now) (free_at (ask_start ask.now)) ask.now }
    requires start { ask_start ask.now < scopes_cell block.now }
    requires scopes { scopes_cell block.now ≤ 64 }
    requires inside { InScopes block.now }
    requires table { 64 ≤ length onward.now }
    requires worth { WorthAt block.now (ask_goal ask.now) ALL_SCOPES (hopes_in block.now) (free_at (ask_start ask.now)) onward.now }
    requires hopes { hopes ≡ hopes_in block.now }
    ensures count { result ≡ capped (length (places_behind block.now (ask_goal ask.now) (scopes_cell block.now) (free_at (ask_start ask.now)) (ask_start ask.now) 0)) }
{
    let scopes = scope_count(block);
    let start = ask_start(ask);
    let node = Node {
        free: taken(first_scopes(scopes), start),
        left: scopes as usize - 1,
        scope: start,
        state: 0,
    };
    let near = near_table(block);
    if is_uncut(block, ask) && comes_to_most(block, ask, onward, &near, hopes, node) {
        return MOST;
    }
    count_by(block, ask, onward, &near, hopes, node)
}

// The number of the query's beginnings, over its board. They are walked over first, up to a bound,
// since most queries have few, and a memo costs more than these.
pub fn count_on(block: &[u64; SIZE], ask: &[u64; ASKSIZE]) -> u64
    requires bounds { Bounds block.now }
    requires live { LiveAt block.now (ask_goal ask.now) (free_at (ask_start ask.now)) ask.now }
    requires start { ask_start ask.now < scopes_cell block.now }
    requires scopes { scopes_cell block.now ≤ 64 }
    requires inside { InScopes block.now }
    ensures count { result ≡ capped (length (places_behind block.now (ask_goal ask.now) (scopes_cell block.now) (free_at (ask_start ask.now)) (ask_start ask.now) 0)) }
{
    let hopes = hopes_of(block);
    let free = taken(ALL, ask_start(ask));
    let onward = live_table(block, ask_goal(ask), ALL, hopes, free);
    let few = counted_few(block, ask, &onward, hopes);
    if few < ENOUGH {
        return few;
    }
    count_all(block, ask, &onward, hopes)
}
