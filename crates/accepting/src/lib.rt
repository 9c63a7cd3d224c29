// The listings that somebody delivers for a gym file's queries, taken in or not (document 02, K3).
#![tactic(auto)]

mod counts;
mod lists;
mod opens;
mod repeats;
mod rows;
mod texts;
mod verdict;

pub use texts::accept;
pub use verdict::Verdict;
