// What is drawn of a table's rows: a label's letter, and whether the drawing loses turns.
ghost use Rattle.std.specs.Prelude.{◌≡◌};
ghost use Rattle.graph_rows.specs.Order.{some_row};
ghost use Rattle.graph_rows.specs.Formed.{other_turn};
ghost use Rattle.graph_table.specs.Sections.{rows_of};
ghost use Rattle.dot.specs.Rows.{letter_byte};

use graph_table::{ROW, edge_row, row_count};
use text_field::get_or;

// The labels of a file at most (document 01, "The gym file").
const LABELS_MOST: u64 = 8;

// The turn of an edge that a drawing shows whole (document 02, K14).
const DRAWN_TURN: u64 = 0;

// The byte of a label's letter, from the `label` rows.
pub(crate) fn letter_byte(labels: &[u64], label: u64) -> u8
    ensures answer { result ≡ letter_byte labels.now label }
{
    let i = (label % LABELS_MOST) as usize;
    (get_or(labels, ROW * i + 1, 0) % 256) as u8
}

// Does some edge row have another turn than 0?
pub(crate) fn has_turn(edges: &[u64]) -> bool
    ensures answer { result ≡ some_row other_turn (rows_of edges.now) }
{
    (0..row_count(edges)).any(|i| edge_row(edges, ROW * i).turn != DRAWN_TURN)
}
