// The list of K13 (document 02): a file's scopes breadth-first, and the list's text, written and
// read.
#![tactic(auto)]

mod order;
mod text;

pub use order::list_scopes;
pub use text::{put_was, read_was};
