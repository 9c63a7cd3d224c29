// Graph tables changed in place: a row put at its place in its section, a row taken out, a
// section's rows replaced by others. The table is lent, with the number of its cells that are used;
// what stands after these is free.
#![tactic(auto)]

mod cells;
mod change;
mod edges;
mod key;
mod place;

pub use change::{insert, put_at, remove, replace, take_at};
pub use edges::has_edge;
pub use place::find;
