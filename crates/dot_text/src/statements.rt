// The statements of a drawing: a scope, an edge. Each is looked for from a place on.
ghost use Rattle.std.specs.Prelude.{◌≡◌, drop};
ghost use Rattle.dot_text.specs.Reading.{number_of, scope_next, label_opens, label_closes, label_next, target_next, edge_next};
ghost use Rattle.dot_text.specs.Answers.{rest_of, edge_of};

use crate::tokens::{fixed, number, quoted};

// The next statement, if it is a scope: its number, and the place after its semicolon.
#[tactic(auto, using(crate::proofs::Answers::then_steps), unfolding(crate::specs::Reading::scope_next, crate::specs::Reading::number_of, crate::specs::Answers::rest_of))]
pub fn scope(text: &[u8], at: usize) -> Option<(u64, usize)>
    ensures answer { number_of result text.now ≡ scope_next (drop at text.now) }
{
    let (n, end) = number(text, at)?;
    let next = fixed(text, end, b";")?;
    Some((n, next))
}

// What stands before a label's letter: `[`, `label` and `=`.
#[tactic(auto, using(crate::proofs::Answers::then_steps), unfolding(crate::specs::Reading::label_opens, crate::specs::Answers::rest_of))]
fn label_opens(text: &[u8], at: usize) -> Option<usize>
    ensures answer { rest_of result text.now ≡ label_opens (drop at text.now) }
{
    let word = fixed(text, at, b"[")?;
    let sign = fixed(text, word, b"label")?;
    fixed(text, sign, b"=")
}

// What stands after it: `]` and `;`.
#[tactic(auto, using(crate::proofs::Answers::then_steps), unfolding(crate::specs::Reading::label_closes, crate::specs::Answers::rest_of))]
fn label_closes(text: &[u8], at: usize) -> Option<usize>
    ensures answer { rest_of result text.now ≡ label_closes (drop at text.now) }
{
    let end = fixed(text, at, b"]")?;
    fixed(text, end, b";")
}

// The label of an edge, up to the semicolon: its letter, and the place after it.
#[tactic(auto, using(crate::proofs::Answers::then_steps), unfolding(crate::specs::Reading::label_next, crate::specs::Reading::number_of, crate::specs::Answers::rest_of))]
fn label(text: &[u8], at: usize) -> Option<(u8, usize)>
    ensures answer { number_of result text.now ≡ label_next (drop at text.now) }
{
    let letter = label_opens(text, at)?;
    let (x, end) = quoted(text, letter)?;
    let next = label_closes(text, end)?;
    Some((x, next))
}

// The arrow of an edge, and the scope that it leads to.
#[tactic(auto, using(crate::proofs::Answers::then_steps), unfolding(crate::specs::Reading::target_next, crate::specs::Reading::number_of, crate::specs::Answers::rest_of))]
fn leads_to(text: &[u8], at: usize) -> Option<(u64, usize)>
    ensures answer { number_of result text.now ≡ target_next (drop at text.now) }
{
    let to = fixed(text, at, b"->")?;
    number(text, to)
}

// The next statement, if it is an edge: the scope that it leaves, its label's letter, the scope
// that it leads to, and the place after it.
#[tactic(auto, using(crate::proofs::Answers::then_steps), unfolding(crate::specs::Reading::edge_next, crate::specs::Reading::number_of, crate::specs::Answers::edge_of))]
pub fn edge(text: &[u8], at: usize) -> Option<(u64, u8, u64, usize)>
    ensures answer { edge_of result text.now ≡ edge_next (drop at text.now) }
{
    let (from, arrow) = number(text, at)?;
    let (to, end) = leads_to(text, arrow)?;
    let (x, next) = label(text, end)?;
    Some((from, x, to, next))
}
