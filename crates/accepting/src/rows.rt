// Is every row of a listing one that the judge calls visible?
ghost use Rattle.std.specs.Prelude.{◌≡◌, drop};
ghost use Rattle.board.specs.Made.{Made};
ghost use Rattle.board.specs.Queries.{query_on, Asked};
ghost use Rattle.judge.specs.Judge.{standing_in};
ghost use Rattle.told.specs.Apart.{rows_in};
ghost use Rattle.scope_graph.specs.Own.{all_of};
ghost use Rattle.accepting.specs.Tests.{is_visible, row_visible};
ghost use Rattle.accepting.specs.Steps.{text_visible};

use block::SIZE;
use graph_table::QueryRow;
use judge::Judged;
use judge::standing::standing;
use path_row::form::read_row;
use path_row::taken::steps_of;
use told::row_at;

// Is it the first of the three standings?
fn is_visible(j: Judged) -> bool
    ensures answer { result ≡ is_visible (standing_in j) }
{
    matches!(j, Judged::Visible)
}

// Is the text a path row that is visible for the query?
fn row_visible(table: &[u64], block: &[u64; SIZE], q: QueryRow, row: &[u8]) -> bool
    requires asked { Asked table.now (query_on table.now q) }
    requires made { Made table.now block.now }
    ensures answer { result ≡ text_visible table.now (query_on table.now q) row.now }
{
    let Some((mark, from, _)) = read_row(row) else {
        return false;
    };
    is_visible(standing(table, block, q, mark, from, steps_of(row).as_slice()))
}

// Are all rows from a place of the text on visible for the query?
pub(crate) fn all_visible(
    table: &[u64],
    block: &[u64; SIZE],
    q: QueryRow,
    lists: &[u8],
    first: usize,
) -> bool
    requires asked { Asked table.now (query_on table.now q) }
    requires made { Made table.now block.now }
    ensures answer { result ≡ all_of (row_visible table.now (query_on table.now q)) (rows_in (drop first lists.now)).0 }
{
    let mut at = first;
    while let Some((end, next)) = row_at(lists, at) {
        if !row_visible(table, block, q, &lists[at..end]) {
            return false;
        }
        at = next;
    }
    true
}
