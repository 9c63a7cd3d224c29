// The listings that somebody delivers for the queries of a gym file (document 02, K3), taken apart.
#![tactic(auto)]

mod listing;
mod pairs;
mod places;
mod rows;
mod whole;
mod words;

pub use listing::{Listing, read_listing};
pub use rows::row_at;
pub use whole::in_form;
