// Rows compared by their section's key, as admission compares them: where a section's key stands in
// the format, `graph_rows` knows. A row is given by its section and its values, each for itself, as
// in the definitions of specs/: a section is asked for without a row too, and an edge's values
// without a section.
ghost use Rattle.std.specs.Prelude.{◌≡◌, ◌∷◌, ◌+◌, ◌≤◌, length, drop};
ghost use Rattle.graph_rows.specs.Format.{section_at};
ghost use Rattle.graph_rows.specs.Admission.{row_of, key_less};
ghost use Rattle.graph_change.specs.Place.{same_key};

use graph_rows::{key_less, key_place};

// A row's cells: its section's number, then its values.
pub fn row_cells(k: usize, row: [u64; 5]) -> [u64; 6]
    ensures answer { result ≡ k ∷ row }
{
    [k as u64, row[0], row[1], row[2], row[3], row[4]]
}

// Does the row at place p stand before the row given, by the key of section k?
pub fn is_less(cells: &[u64], p: usize, k: usize, row: [u64; 5]) -> bool
    requires whole { p + 6 ≤ length cells.now }
    ensures answer { result ≡ key_less (section_at k).key (row_of (drop p cells.now)) row }
{
    key_less(key_place(k), cells, p, &row_cells(k, row), 0)
}

// Has the row at place p the key of the row given? It has if neither stands before the other.
pub fn same_key(cells: &[u64], p: usize, k: usize, row: [u64; 5]) -> bool
    requires whole { p + 6 ≤ length cells.now }
    ensures answer { result ≡ same_key (section_at k).key (row_of (drop p cells.now)) row }
{
    if is_less(cells, p, k, row) {
        return false;
    }
    !key_less(key_place(k), &row_cells(k, row), 0, cells, p)
}
