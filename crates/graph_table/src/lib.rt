// The graph table as other crates read it: where rows stand, and what a row says. `graph_rows` and
// `graph_file`, which test, make and write the table, and `graph_change`, which moves its cells, read
// cells of their own; the sections' numbers and how a row is put are handed on from `graph_rows`.
#![tactic(auto)]

mod edges;
mod names;
mod rows;
mod sections;

pub use edges::next_row;
pub use graph_rows::{
    ACCEPTS, COUNT, DECLARATIONS, EDGES, LABELS, OPENS, PAIRS, QUERIES, TRANSITIONS, put_row,
};
pub use names::Name;
pub use rows::{
    DeclarationRow, EdgeRow, OpenRow, QueryRow, TransitionRow, declaration_row, declares, edge_row,
    first_value, in_section, open_row, pair_row, query_row, transition_row,
};
pub use sections::{Form, ROW, SCOPE, SECTION, first_row, form_of, row_count, rows_from, set_form};
