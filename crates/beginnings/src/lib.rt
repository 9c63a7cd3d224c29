// The count of a query's lawful beginnings (document 02, K11): over a query's board, over a table
// that was read, over a text, and beside a listing.
#![tactic(auto)]

mod ahead;
mod counts;
mod memo;
mod near;
mod nodes;
mod plain;
mod uncut;
mod whole;

pub use counts::{count, listing_counted};

// No count is above this.
pub const MOST: u64 = 1000000000;
