// A path row judged for a query of a gym file.
#![tactic(auto)]

mod cut;
mod hops;
mod limits;
mod reached;
pub mod standing;
mod text;

pub use standing::Judged;
pub use text::{JudgedRow, judge_of, judge_text};
