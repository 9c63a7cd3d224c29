// Where the sections' rows stand: found once, and kept in the block; or looked for where no board is
// made.
ghost use Rattle.std.specs.Prelude.{◌≡◌, ◌+◌, ◌<◌, length};
ghost use Rattle.graph_rows.specs.Decode.{scopes_of};
ghost use Rattle.graph_file.specs.File.{WasRead};
ghost use Rattle.graph_table.specs.Sections.{leading, start_of, part_of};
ghost use Rattle.board.specs.Tables.{tabulate};
ghost use Rattle.board.specs.Marks.{declared_cell};
ghost use Rattle.board.specs.Made.{Starts, Made};

use block::START;
use graph_table::{COUNT, SCOPE, SECTION, first_row, rows_from};
use text_field::get_or;

// The places of nine sections, and where the last one ends.
pub const PLACES: usize = 10;

// Where the rows start that have 0, 1 and on in a column which ascends, in a table in which the rows
// stand at `from`. One pass, as each place is looked for from the one before it on.
pub fn places<const N: usize>(rows: &[u64], column: usize, from: usize) -> [u64; N]
    requires column { column < 6 }
    requires room { from + length rows.now < 18446744073709551616 }
    ensures answer { result ≡ tabulate (λ k. from + leading column k rows.now) N }
{
    let mut t = [0; N];
    let mut p = 0;
    for (k, place) in t.iter_mut().enumerate() {
        p = rows_from(rows, column, k as u64, p);
        *place = (from + p) as u64;
    }
    t
}

// Where each section's rows start, and where the last one's end.
pub fn starts(table: &[u64]) -> [u64; PLACES]
    ensures answer { result ≡ tabulate (λ k. start_of k table.now) 10 }
{
    let from = first_row(table);
    places(&table[from..], SECTION, from)
}

// Where each scope's declarations start in the table, in which the rows stand at `from`; and where
// the last one's end.
pub fn declared_table(rows: &[u64], from: usize) -> [u64; 65]
    requires room { from + length rows.now < 18446744073709551616 }
    ensures answer { result ≡ tabulate (declared_cell from rows.now) 65 }
{
    places(rows, SCOPE, from)
}

// The rows of section k, by the places of all sections. These are lent as a slice, as `part` has them
// within the block.
pub fn rows_at<'a>(table: &'a [u64], at: &[u64], k: usize) -> &'a [u64]
    requires places { Starts table.now at.now }
    requires section { k < 9 }
    ensures answer { result.now ≡ part_of k table.now }
{
    let from = at[k] as usize;
    let to = at[k + 1] as usize;
    &table[from..to]
}

// The same by the places that the board's block has. It is lent as a slice: that it has the block's
// size is said by `Made`.
pub fn part<'a>(table: &'a [u64], block: &[u64], k: usize) -> &'a [u64]
    requires made { Made table.now block.now }
    requires section { k < 9 }
    ensures answer { result.now ≡ part_of k table.now }
{
    rows_at(table, &block[START..START + PLACES], k)
}

// The same, looked for in the table: for whoever asks for few sections and makes no board.
pub fn section_rows<'a>(table: &'a [u64], k: usize) -> &'a [u64]
    requires section { k < 9 }
    ensures answer { result.now ≡ part_of k table.now }
{
    let from = rows_from(table, SECTION, k as u64, first_row(table));
    let to = rows_from(table, SECTION, k as u64 + 1, from);
    &table[from..to]
}

// How many scopes the table has.
pub fn scope_count(table: &[u64]) -> u64
    requires read { WasRead table.now }
    ensures answer { result ≡ scopes_of table.now }
{
    get_or(section_rows(table, COUNT), 1, 0)
}
