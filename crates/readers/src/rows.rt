// The declarations of a table, by their place among the rows.
ghost use Rattle.std.specs.Prelude.{◌≡◌, ◌<◌, length};
ghost use Rattle.graph_rows.specs.Decode.{graph_of};
ghost use Rattle.graph_file.specs.File.{WasRead};
ghost use Rattle.board.specs.Made.{Made};
ghost use Rattle.readers.specs.Readers.{declaration_at};
ghost use Rattle.readers.specs.Given.{declaration_on};

use block::SIZE;
use board::part;
use graph_table::{DECLARATIONS, DeclarationRow, ROW, declaration_row, row_count};

// How many declarations there are.
pub(crate) fn declaration_count(table: &[u64], block: &[u64; SIZE]) -> usize
    requires read { WasRead table.now }
    requires made { Made table.now block.now }
    ensures answer { result ≡ length (graph_of table.now).declarations }
{
    row_count(part(table, block, DECLARATIONS))
}

// The declaration in row i.
pub(crate) fn declaration_at(table: &[u64], block: &[u64; SIZE], i: usize) -> DeclarationRow
    requires read { WasRead table.now }
    requires made { Made table.now block.now }
    requires place { i < length (graph_of table.now).declarations }
    ensures declaration { declaration_on table.now result ≡ declaration_at table.now i }
{
    let rows = part(table, block, DECLARATIONS);
    declaration_row(rows, ROW * i)
}
