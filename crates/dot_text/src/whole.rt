// Whether a whole text is a drawing, and where its parts begin.
ghost use Rattle.std.specs.Prelude.{◌≡◌, drop};
ghost use Rattle.dot_text.specs.Reading.{past_comment, past_blank, head_next, scopes_next, edges_next, ends_next, parts_of};
ghost use Rattle.dot_text.specs.Answers.{rest_of, places_of};

use crate::statements::{edge, scope};
use crate::tokens::{fixed, is_blank, past_blanks, past_bytes};

// The place after the comment, if the text begins with it.
#[tactic(auto, using(crate::proofs::Steps::comment_steps), unfolding(crate::specs::Answers::rest_of))]
fn past_comment(text: &[u8]) -> usize
    ensures rest { drop result text.now ≡ past_comment text.now }
{
    past_bytes(text, 0, b"// turns dropped\n").unwrap_or(0)
}

// The place after a blank.
#[tactic(auto, using(crate::proofs::Steps::parted_steps), unfolding(crate::specs::Answers::rest_of))]
fn past_blank(text: &[u8], at: usize) -> Option<usize>
    ensures answer { rest_of result text.now ≡ past_blank (drop at text.now) }
{
    if is_blank(*text.get(at)?) {
        Some(at + 1)
    } else {
        None
    }
}

// What opens the graph, from a place on.
#[tactic(auto, using(crate::proofs::Answers::then_steps), unfolding(crate::specs::Reading::head_next, crate::specs::Answers::rest_of))]
fn head(text: &[u8], at: usize) -> Option<usize>
    ensures answer { rest_of result text.now ≡ head_next (drop at text.now) }
{
    let parted = fixed(text, at, b"digraph")?;
    let word = past_blank(text, parted)?;
    let sign = fixed(text, word, b"scopes")?;
    fixed(text, sign, b"{")
}

// The place after the scopes from a place on.
#[tactic(auto, using(crate::proofs::StatementLaws::scopes_none), unfolding(crate::specs::Reading::number_of))]
fn past_scopes(text: &[u8], at: usize) -> usize
    ensures rest { drop result text.now ≡ (scopes_next (drop at text.now)).rest }
{
    let mut p = at;
    while let Some((_, next)) = scope(text, p) {
        p = next;
    }
    p
}

// The place after the edges from a place on.
#[tactic(auto, using(crate::proofs::StatementLaws::edges_none), unfolding(crate::specs::Answers::edge_of))]
fn past_edges(text: &[u8], at: usize) -> usize
    ensures rest { drop result text.now ≡ (edges_next (drop at text.now)).rest }
{
    let mut p = at;
    while let Some((_, _, _, next)) = edge(text, p) {
        p = next;
    }
    p
}

// Does the graph end at a place, with nothing but blanks after it?
#[tactic(auto, using(crate::proofs::Steps::empty_drop), unfolding(crate::specs::Reading::ends_next, crate::specs::Reading::ends_after, crate::specs::Answers::rest_of))]
fn ends(text: &[u8], at: usize) -> bool
    ensures answer { result ≡ ends_next (drop at text.now) }
{
    fixed(text, at, b"}").is_some_and(|end| text.len() <= past_blanks(text, end))
}

// The places where the scopes and where the edges begin, in a text that is a drawing from the first
// byte to the last.
#[tactic(auto, using(crate::proofs::WholeLaws::parts_steps), unfolding(crate::specs::Answers::places_of, crate::specs::Answers::rest_of))]
pub fn drawing(text: &[u8]) -> Option<(usize, usize)>
    ensures answer { places_of result text.now ≡ parts_of text.now }
{
    let scopes = head(text, past_comment(text))?;
    let edges = past_scopes(text, scopes);
    if ends(text, past_edges(text, edges)) {
        Some((scopes, edges))
    } else {
        None
    }
}
