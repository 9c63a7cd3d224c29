// The steps of one row held against those of another.
ghost use Rattle.std.specs.Prelude.{◌≡◌, drop};
ghost use Rattle.scope_graph.specs.Order.{meaning as end_meaning};
ghost use Rattle.comparison.specs.Steps.{end_first, same_step, steps_preferred};

use crate::letters::label_number;
use crate::order::preferred;
use crate::turns::step_turn;
use block::SIZE;
use path_row::form::Step;
use scope_graph::{End, Pair};

// Is it the same step, by label and scope? Labels are compared by their numbers and not by `==` of
// the letters, since the definition of agreeing steps has them so.
fn is_same(block: &[u64; SIZE], s: Step, t: Step) -> bool
    ensures answer { result ≡ same_step block.now s t }
{
    label_number(block, s.label) == label_number(block, t.label) && s.scope == t.scope
}

// How the steps from step i on, which leave the scope, go: they stop there, or by the label of the
// next one and its turn.
fn end_at(block: &[u64; SIZE], scope: u64, steps: &[Step], i: usize) -> End
    ensures answer { end_meaning result ≡ end_first block.now scope (drop i steps.now) }
{
    match steps.get(i) {
        None => End::Stop,
        Some(step) => {
            let label = label_number(block, step.label);
            End::Label(label, step_turn(block, scope, label, step.scope as u64))
        }
    }
}

// Are the steps of a preferred to those of b, where both leave the scope?
pub fn steps_preferred(block: &[u64; SIZE], scope: u64, a: &[Step], b: &[Step]) -> bool
    ensures answer { result ≡ steps_preferred block.now scope a.now b.now }
{
    let mut from = scope;
    for i in 0..a.len() {
        let less = end_at(block, from, a, i);
        let more = end_at(block, from, b, i);
        if preferred(block, Pair { less, more }) {
            return true;
        }
        if b.len() <= i || !is_same(block, a[i], b[i]) {
            return false;
        }
        from = a[i].scope as u64;
    }
    let less = End::Stop;
    let more = end_at(block, from, b, a.len());
    let ends = Pair { less, more };
    // What the order says of the two ends decides, and not that a is the shorter.
    preferred(block, ends)
}
