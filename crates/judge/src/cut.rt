// Where the ends on the way of a path row's path are cut.
ghost use Rattle.std.specs.Prelude.{◌≡◌};
ghost use Rattle.scope_graph.specs.Language.{by};
ghost use Rattle.scope_graph.specs.Order.{end_of};
ghost use Rattle.search.specs.Tables.{plain_end};
ghost use Rattle.judge.specs.LastCut.{caught_at, latest};
ghost use Rattle.judge.specs.Steps.{hop_to, Ready, step_hops, end_cut, row_last};

use crate::hops::{behind, state_on};
use crate::limits::{LABELS, NO_STATE, STOP};
use block::{SIZE, edge_at, edge_to, edges_end};
use comparison::label_number;
use path_row::form::Step;
use search::{NOTHING_KNOWN, Node, edge_cut, learn};

// Is the end with this number cut at the node?
fn end_cut(block: &[u64; SIZE], goal: u64, live: &[u64], n: Node, e: u64) -> bool
    requires ready { Ready block.now goal live.now n }
    ensures answer { result ≡ end_cut block.now goal n (plain_end (end_of e)) }
{
    learn(block, goal, live, n, NOTHING_KNOWN, e).cut
}

// Is a step by the label that goes along no edge, and so has no turn, cut at the node? One past the
// labels is not.
fn label_cut(block: &[u64; SIZE], goal: u64, live: &[u64], n: Node, label: u64) -> bool
    requires ready { Ready block.now goal live.now n }
    ensures answer { result ≡ end_cut block.now goal n (plain_end (by label)) }
{
    if LABELS <= label {
        return false;
    }
    end_cut(block, goal, live, n, label + 1)
}

// Is a step by the label to the scope cut at the node? It has the turn of the edge that it goes
// along, if there is one.
fn step_cut(block: &[u64; SIZE], goal: u64, live: &[u64], n: Node, label: u64, to: u64) -> bool
    requires ready { Ready block.now goal live.now n }
    ensures answer { result
        ≡ end_cut block.now goal n (by (hop_to block.now n.scope label to).step) }
{
    let p = edge_to(block, n.scope, label, to);
    if edges_end(block, n.scope) <= p {
        return label_cut(block, goal, live, n, label);
    }
    edge_cut(block, goal, live, n, NOTHING_KNOWN, edge_at(block, p)).cut
}

// With the end at a place looked at: that place if the end is cut, else the last one before it.
fn noted(last: Option<usize>, cut: bool, place: usize) -> Option<usize>
    ensures answer { caught_at result ≡ latest (caught_at last) cut place }
{
    if cut { Some(place) } else { last }
}

// The last place where the end is cut that the steps go by, or `$` where they end: how many steps
// lie before it. A more specific path leaves this one where such an end is, so the last one tells
// how many steps they share. The table of places worth entering serves all the way: a closed one
// stays closed with fewer free scopes.
pub fn last_cut(
    block: &[u64; SIZE],
    goal: u64,
    live: &[u64],
    from: Node,
    steps: &[Step],
) -> Option<usize>
    requires ready { Ready block.now goal live.now from }
    ensures answer { caught_at result
        ≡ row_last block.now goal from (step_hops block.now steps.now from.scope) }
{
    let mut n = from;
    let mut last = None;
    for place in 0..steps.len() {
        let to = steps[place].scope as u64;
        let label = label_number(block, steps[place].label);
        last = noted(last, step_cut(block, goal, live, n, label, to), place);
        let state = state_on(block, n, label, to);
        if NO_STATE <= state || n.left == 0 {
            return last;
        }
        n = behind(n, to, state, n.left - 1);
    }
    noted(last, end_cut(block, goal, live, n, STOP), steps.len())
}
