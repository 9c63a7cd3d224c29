// A graph as a table of cells: the format of its rows, and the tests that every row meets.
#![tactic(auto)]

mod admission;
mod apart;
mod format;
mod formed;
mod items;
mod order;
mod rows;
mod tested;

pub use admission::{admitted, key_less};
pub use format::{
    ACCEPTS, COUNT, DECLARATIONS, EDGES, KIND_FORM, LABELS, Layout, OLD_FORM, OPENS, PAIRS,
    PLAIN_KIND, QUERIES, SECTIONS, TEXT_BYTES, TRANSITIONS, TURN_FORM, codes_from, has_kinds,
    has_turns, item, key_place, layout_of, least, names_place,
};
pub use items::{Content, Item};
pub use order::order_fault;
pub use rows::{Counts, counts_after, label_place, put_row};
pub use tested::{counts_begun, form_in, row_comes, table_refusal};
