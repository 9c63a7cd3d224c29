// Path rules as an expression (02, K6): an expression's text and the file's labels make a
// transition table and its accepting states.
#![tactic(auto)]

mod reading;
mod sets;
mod vectors;
mod walk;

ghost use Rattle.std.specs.Prelude.{◌≡◌, ◌<◌};
ghost use Rattle.path_rules.specs.Parts.{tabulate};
ghost use Rattle.path_rules.specs.Rules.{is_whole, after_end, start_set, accept_cell, table_of, walk_of, read_whole, whole_rules, rules_of};

use crate::reading::{Part, Reading, finish, link, read};
use crate::sets::{END, POSITIONS, has_bit, only_if};
use crate::vectors::{Positions, find_vectors};
use crate::walk::{Walk, walk_all};
pub use sets::LABELS;
use std::array;
use text_field::Refusal;
pub use walk::{CELLS, NOWHERE, STATES};

// How many bytes an expression may have.
const EXPRESSION_BYTES: usize = 64;

// The rows that an expression becomes: how many states there are, where each leads by each label,
// at state * 8 + label, 16 for nowhere, and whether it accepts.
#[derive(Clone, Copy)]
pub struct Rules {
    pub states: usize,
    pub next: [u64; CELLS],
    pub accepts: [bool; STATES],
}

// Is what was read a whole expression?
#[tactic(auto, unfolding(crate::specs::Rules::is_whole))]
fn is_whole(s: &Reading) -> bool
    ensures answer { result ≡ is_whole s.now }
{
    s.atom.is_some() && s.depth == 0
}

// Where the positions go on to, with the word's end behind the last.
#[tactic(auto, unfolding(crate::specs::Rules::after_end))]
fn after_end(s: &Reading) -> [u64; POSITIONS]
    ensures answer { result ≡ after_end s.now }
{
    link(&s.after, s.alt.last, END)
}

// Where a word begins.
#[tactic(auto, unfolding(crate::specs::Rules::start_set))]
fn start_set(e: Part) -> u64
    ensures answer { result ≡ start_set e }
{
    e.first | only_if(e.nullable, END)
}

// Does state q accept? The word's end is in its set.
#[tactic(auto, unfolding(crate::specs::Rules::accept_cell))]
fn accept_cell(sets: &[u64; STATES], q: usize) -> bool
    requires state { q < 16 }
    ensures answer { result ≡ accept_cell sets.now q }
{
    has_bit(sets[q], POSITIONS as u64)
}

fn accept_cells(sets: &[u64; STATES]) -> [bool; STATES]
    ensures answer { result ≡ tabulate (accept_cell sets.now) 16 }
{
    array::from_fn(|q| accept_cell(sets, q))
}

#[tactic(auto, unfolding(crate::specs::Rules::table_of))]
fn table(w: Walk) -> Rules
    ensures answer { result ≡ table_of w }
{
    Rules {
        states: w.states,
        next: w.next,
        accepts: accept_cells(&w.sets),
    }
}

#[tactic(auto, unfolding(crate::specs::Rules::walk_of))]
fn walk_of(positions: &Positions, start: u64) -> Option<Walk>
    ensures answer { result ≡ walk_of positions.now.after positions.now.labels start }
{
    walk_all(find_vectors(positions).sets(), positions, start)
}

// The table of a whole expression, unless it needs more than sixteen states.
#[tactic(auto, unfolding(crate::specs::Rules::whole_rules, crate::specs::Rules::rules_from))]
fn whole_rules(s: &Reading) -> Result<Rules, Refusal>
    ensures answer { result ≡ whole_rules s.now }
{
    let positions = Positions {
        after: after_end(s),
        labels: s.labels,
    };
    walk_of(&positions, start_set(s.alt))
        .map(table)
        .ok_or(Refusal::TooManyStates)
}

// The text as a whole expression; none if it is no expression.
#[tactic(auto, unfolding(crate::specs::Rules::read_whole, crate::specs::Rules::whole_of))]
fn read_whole(labels: &[u8], text: &[u8]) -> Option<Reading>
    ensures answer { result ≡ read_whole labels.now text.now }
{
    if EXPRESSION_BYTES < text.len() {
        return None;
    }
    let s = read(labels, text)?;
    if is_whole(&s) { Some(finish(s)) } else { None }
}

// 02, K6: the rows of an expression over the labels, whose numbers are their places; 12 or 13
// refuses.
#[tactic(auto, unfolding(crate::specs::Rules::rules_of))]
pub fn path_rules(labels: &[u8], text: &[u8]) -> Result<Rules, Refusal>
    ensures answer { result ≡ rules_of labels.now text.now }
{
    let s = read_whole(labels, text).ok_or(Refusal::NoExpression)?;
    whole_rules(&s)
}
