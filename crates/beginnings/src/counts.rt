// The count of a query of a table that was read, of a text, and beside the query's listing.
ghost use Rattle.std.specs.Prelude.{◌≡◌, length};
ghost use Rattle.text_field.specs.Answer.{answer, leaves, answer_of};
ghost use Rattle.graph_file.specs.File.{WasRead};
ghost use Rattle.board.specs.Made.{Made};
ghost use Rattle.resolution.specs.Listing.{listing_for};
ghost use Rattle.beginnings.specs.Beginnings.{count_of, count_for};
ghost use Rattle.beginnings.specs.Counted.{followed_leaves};

use crate::whole::count_on;
use block::SIZE;
use board::put_board;
use graph_file::with_graph;
use resolution::{ask_of, listing, query_at, query_count};
use text_field::Refusal;

// The count of query i of a table that was read, over its board: refused 7 where there is none.
fn count_query(table: &[u64], block: &[u64; SIZE], i: usize) -> Result<u64, Refusal>
    requires read { WasRead table.now }
    requires made { Made table.now block.now }
    ensures answer { answer_of result ≡ count_of table.now i }
{
    if query_count(table, block) <= i {
        return Err(Refusal::NoQuery);
    }
    let ask = ask_of(table, block, query_at(table, block, i));
    Ok(count_on(block, &ask))
}

// The count of a query of a table that was read.
pub fn count_of(table: &[u64], query: usize) -> Result<u64, Refusal>
    requires read { WasRead table.now }
    ensures answer { answer_of result ≡ count_of table.now query }
{
    let mut block = [0u64; SIZE];
    put_board(table, &mut block);
    count_query(table, &block, query)
}

// The count of a query of a text: refusals 1 to 6, then 7.
pub fn count(text: &[u8], query: usize) -> Result<u64, Refusal>
    ensures answer { answer_of result ≡ count_for text.now query }
{
    with_graph(text, &mut |table: &[u64]| count_of(table, query))?
}

// A query's listing and the count beside it: refusals 1 to 6, then 7, then 9. After a refusal the
// buffer and the number are as they were, and nothing was counted.
pub fn listing_counted(
    text: &[u8],
    query: usize,
    out: &mut [u8],
    followed: &mut u64,
) -> Result<usize, Refusal>
    ensures answer { answer_of result ≡ answer (listing_for text.now query) (length out.old) }
    ensures memory { out.new ≡ leaves (listing_for text.now query) out.old }
    ensures followed { followed.new
        ≡ followed_leaves (answer (listing_for text.now query) (length out.old)) (count_for text.now query) followed.old }
{
    let size = listing(text, query, out)?;
    if let Ok(n) = count(text, query) {
        *followed = n;
    }
    Ok(size)
}
