// A query's listing and the summary: over a table's board, over a table that was read, over a text.
//
// A table, its board's block and a query's ask are passed one by one, and `Ready` says that they
// belong together. A struct of the three cannot carry that fact: what a ghost field states has at
// most one proof, and `Ready` holds a text that the table was read from, of which there may be more.
#![tactic(auto)]

mod ask;
mod awaits;
mod found;
mod lists;
mod queries;
mod sums;
mod text;
mod walks;

pub use ask::{ask_from, ask_of};
pub use awaits::{awaits_of, away_from, pair_followed};
pub use found::{found_by, is_end};
pub use lists::{Listed, list, listing, listing_of, listing_on};
pub use queries::{query_at, query_count};
pub use sums::{Figures, counted, summary, summary_by, summary_of};
pub use text::{Found, put_seek};
pub use walks::take_entries;
