// The preference test: of two ends, by the board's order and by their turns.
ghost use Rattle.std.specs.Prelude.{◌≡◌};
ghost use Rattle.scope_graph.specs.Language.{by};
ghost use Rattle.scope_graph.specs.Order.{turn_meaning, meaning as end_meaning};
ghost use Rattle.scope_graph.specs.Turns.{later as later_turn};
ghost use Rattle.search.specs.Tables.{table_order};
ghost use Rattle.comparison.specs.Steps.{label_place};

use crate::letters::LABELS;
use block::{SIZE, pair};
use scope_graph::{End, Pair};

// The number of the end `$` in the board's tables; that of a label's end is one more than the
// label's.
const STOP: u64 = 0;
// One past the ends' numbers.
const NO_END: u64 = 9;

// The number of a label as an end. One past the labels has that of no end, and so is in no pair.
fn label_end(l: u64) -> u64
    ensures answer { result ≡ label_place l }
{
    if l < LABELS { l + 1 } else { NO_END }
}

// Is the first turn the higher one? Where a step is no edge row nothing is decided.
fn later(t: Option<u64>, u: Option<u64>) -> bool
    ensures answer { result ≡ later_turn (turn_meaning t) (turn_meaning u) }
{
    match (t, u) {
        (Some(n), Some(m)) => m < n,
        _ => false,
    }
}

// Is a step by label l preferred to one by label k? Turns are compared at one label only.
#[tactic(auto, using(crate::proofs::EndLaws::steps_apart, crate::proofs::EndLaws::steps_later))]
fn step_preferred(block: &[u64; SIZE], l: u64, t: Option<u64>, k: u64, u: Option<u64>) -> bool
    ensures answer { result ≡ table_order block.now
        (by (record { label = l; turn = turn_meaning t })) (by (record { label = k; turn = turn_meaning u })) }
{
    if pair(block, label_end(l), label_end(k)) {
        return true;
    }
    l == k && later(t, u)
}

// Is the pair's first end preferred to its second? The test matches on both (document 01, "Where
// each language form goes").
pub fn preferred(block: &[u64; SIZE], p: Pair) -> bool
    ensures answer { result ≡ table_order block.now (end_meaning p.less) (end_meaning p.more) }
{
    match (p.less, p.more) {
        (End::Stop, End::Stop) => pair(block, STOP, STOP),
        (End::Stop, End::Label(k, _)) => pair(block, STOP, label_end(k)),
        (End::Label(l, _), End::Stop) => pair(block, label_end(l), STOP),
        (End::Label(l, t), End::Label(k, u)) => step_preferred(block, l, t, k, u),
    }
}
