// A gym file drawn in the DOT language, for Graphviz (document 02, K14).
#![tactic(auto)]

mod drawing;
mod lines;
mod rows;

pub use drawing::dot;
