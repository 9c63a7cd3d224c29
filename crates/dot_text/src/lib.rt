// Drawings in the DOT language as a text (document 02, K14): its tokens, its statements one by one
// from any place, and whether the whole text is a drawing.
#![tactic(auto)]

mod statements;
mod tokens;
mod whole;

pub use statements::{edge, scope};
pub use whole::drawing;
