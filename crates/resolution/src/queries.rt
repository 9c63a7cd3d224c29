// The queries of a table, by number.
ghost use Rattle.std.specs.Prelude.{◌≡◌, ◌<◌, length};
ghost use Rattle.graph_rows.specs.Decode.{queries_of};
ghost use Rattle.graph_file.specs.File.{WasRead};
ghost use Rattle.board.specs.Made.{Made};
ghost use Rattle.board.specs.Queries.{query_at, query_on, Asked};

use block::SIZE;
use board::part;
use graph_table::{QUERIES, QueryRow, ROW, query_row, row_count};

// How many queries there are.
pub fn query_count(table: &[u64], block: &[u64; SIZE]) -> usize
    requires read { WasRead table.now }
    requires made { Made table.now block.now }
    ensures answer { result ≡ length (queries_of table.now) }
{
    row_count(part(table, block, QUERIES))
}

// Query i.
pub fn query_at(table: &[u64], block: &[u64; SIZE], i: usize) -> QueryRow
    requires read { WasRead table.now }
    requires made { Made table.now block.now }
    requires number { i < length (queries_of table.now) }
    ensures query { query_on table.now result ≡ query_at table.now i }
    ensures asked { Asked table.now (query_on table.now result) }
{
    let queries = part(table, block, QUERIES);
    query_row(queries, ROW * i)
}
