// The next edge of a node that is followed: its hop is worth entering, and its step is not cut.
ghost use Rattle.std.specs.Prelude.{ℕ, ◌<◌, ◌≤◌, length};
ghost use Rattle.block.specs.Sets.{has_scope};
ghost use Rattle.block.specs.Block.{Bounds, first_edge};
ghost use Rattle.block.specs.Ask.{ask_goal};
ghost use Rattle.search.specs.Conditions.{Inside, LiveAt, Known};
ghost use Rattle.follow.specs.Steps.{Told, NextFollowed};
ghost use Rattle.search.specs.declared.Learnt.{Learnt};

use block::{ASKSIZE, SIZE, ask_goal, edge_at, edge_label, edges_end, edges_from, most_turn};
use search::{ALL_LABELS, Learnt, Node, edge_cut, learn, next_hop};

// An edge, or one past the node's last, and what is known by then of the node's ends.
#[derive(Clone, Copy)]
pub struct Next {
    pub at: u64,
    pub known: u64,
}

// From edge p on, the next that is followed. An edge whose hop is worth entering is handed to `asks`,
// behind what is sought and what is known so far of the node's ends: it tells whether the edge's step
// is cut.
fn next_where<F: Fn(u64, u64, u64) -> Learnt>(
    block: &[u64; SIZE],
    ask: &[u64; ASKSIZE],
    onward: &[u64],
    n: Node,
    known: u64,
    p: u64,
    asks: F,
) -> Next
    requires table { 64 ≤ length onward.now }
    requires inside { Inside n }
    requires known { Known block.now (ask_goal ask.now) n known }
    requires callable { (more x : ℕ) → x < 18446744073709551616 → Known block.now (ask_goal ask.now) n more → F.pre asks (ask_goal ask.now) more x }
    requires told { (more x : ℕ) (r : Learnt) → Known block.now (ask_goal ask.now) n more → F.post asks (ask_goal ask.now) more x r → Told block.now ask.now n x r }
    ensures known { Known block.now (ask_goal ask.now) n result.known }
    ensures next { NextFollowed block.now ask.now onward.now n p result.at }
{
    let end = edges_end(block, n.scope);
    let goal = ask_goal(ask);
    let mut more = known;
    let mut i = p;
    loop {
        i = next_hop(block, onward, n, ALL_LABELS, i);
        if end <= i {
            return Next { at: i, known: more };
        }
        let x = edge_at(block, i);
        let learnt = asks(goal, more, x);
        more = learnt.known;
        if !learnt.cut {
            return Next { at: i, known: more };
        }
        i += 1;
    }
}

// From edge p on, the next that is followed. Where all turns are 0 a step is cut as its label is,
// and is asked about so: the look at turns takes registers, of which a walk through such a file has
// none to spare.
fn next_from(
    block: &[u64; SIZE],
    ask: &[u64; ASKSIZE],
    onward: &[u64],
    n: Node,
    known: u64,
    p: u64,
) -> Next
    requires bounds { Bounds block.now }
    requires live { LiveAt block.now (ask_goal ask.now) (has_scope n.free) ask.now }
    requires table { 64 ≤ length onward.now }
    requires inside { Inside n }
    requires known { Known block.now (ask_goal ask.now) n known }
    ensures known { Known block.now (ask_goal ask.now) n result.known }
    ensures next { NextFollowed block.now ask.now onward.now n p result.at }
{
    if most_turn(block) == 0 {
        let by_label = |goal: u64, more: u64, x: u64| learn(
            block,
            goal,
            ask,
            n,
            more,
            edge_label(x) + 1,
        );
        return next_where(block, ask, onward, n, known, p, by_label);
    }
    let by_turn = |goal: u64, more: u64, x: u64| edge_cut(block, goal, ask, n, more, x);
    next_where(block, ask, onward, n, known, p, by_turn)
}

// The node's first edge that is followed, or past its edges. Left open are which number past the
// last edge says that none is followed, as callers only test that it is past, and of which ends
// `known` tells more, as whatever it tells is so and saves a later question.
pub fn first_followed(
    block: &[u64; SIZE],
    ask: &[u64; ASKSIZE],
    onward: &[u64],
    n: Node,
    known: u64,
) -> Next
    requires bounds { Bounds block.now }
    requires live { LiveAt block.now (ask_goal ask.now) (has_scope n.free) ask.now }
    requires table { 64 ≤ length onward.now }
    requires inside { Inside n }
    requires known { Known block.now (ask_goal ask.now) n known }
    ensures known { Known block.now (ask_goal ask.now) n result.known }
    ensures next { NextFollowed block.now ask.now onward.now n (first_edge block.now n.scope) result.at }
{
    let p = edges_from(block, n.scope);
    next_from(block, ask, onward, n, known, p)
}

// The next edge from number p on that is followed, or past the node's edges. Many calls come from a
// node's last edge: they end here, at little cost. Left open are which number past the last edge
// says that none is followed, as callers only test that it is past, and of which ends `known` tells
// more, as whatever it tells is so and saves a later question.
pub fn next_followed(
    block: &[u64; SIZE],
    ask: &[u64; ASKSIZE],
    onward: &[u64],
    n: Node,
    known: u64,
    p: u64,
) -> Next
    requires bounds { Bounds block.now }
    requires live { LiveAt block.now (ask_goal ask.now) (has_scope n.free) ask.now }
    requires table { 64 ≤ length onward.now }
    requires inside { Inside n }
    requires known { Known block.now (ask_goal ask.now) n known }
    ensures known { Known block.now (ask_goal ask.now) n result.known }
    ensures next { NextFollowed block.now ask.now onward.now n p result.at }
{
    if edges_end(block, n.scope) <= p {
        return Next { at: p, known };
    }
    next_from(block, ask, onward, n, known, p)
}
