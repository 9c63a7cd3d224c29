// A drawing in the DOT language put into a gym file (document 02, K14): its edges in place of the
// file's.
#![tactic(auto)]

mod edges;
mod file;
mod scopes;

pub use file::undot;
