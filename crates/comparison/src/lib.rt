// Two path rows compared by the order of a gym file, over its board.
#![tactic(auto)]

mod agree;
mod letters;
mod order;
mod rows;
mod steps;
mod text;
mod turns;

pub use letters::label_number;
pub use rows::{Compared, ComparedRows, compare_rows};
pub use text::compare_text;
