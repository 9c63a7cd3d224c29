// What rows of one value say: the labels' letters, the number of scopes.
ghost use Rattle.std.specs.Prelude.{◌≡◌, List, ℕ, ◌%◌, get_or};
ghost use Rattle.graph_rows.specs.Admission.{Row, value, blank};
ghost use Rattle.graph_table.specs.Sections.{rows_of};
ghost use Rattle.board.specs.Tables.{tabulate, letter_of};

use graph_table::{ROW, first_value};

// The first value of row i; 0 where there is none.
pub fn value_of(rows: &[u64], i: usize) -> u64
    ensures answer { result ≡ value (get_or (rows_of rows.now) i blank) 0 }
{
    if rows.len() / ROW <= i {
        return 0;
    }
    first_value(rows, ROW * i)
}

// The labels' letters; 0 past the last one.
pub fn letter_table(rows: &[u64]) -> [u64; 8]
    ensures answer { result ≡ tabulate (letter_of (rows_of rows.now)) 8 }
{
    let mut t = [0; 8];
    for (i, letter) in t.iter_mut().enumerate() {
        *letter = value_of(rows, i) % 256;
    }
    t
}
