// A gym file's text, read into a graph table and written from one.
#![tactic(auto)]

mod line;
mod line_text;
mod reader;
mod sought;
mod tables;
mod writer;

pub use reader::{OWN_CELLS, SHORT_CELLS};
pub use sought::{NamePlace, name_place, name_sought};
pub use tables::{is_short, read, read_over, with_graph};
pub use writer::write;
