// One listing after the other held against its query.
ghost use Rattle.std.specs.Prelude.{◌≡◌, true};
ghost use Rattle.graph_file.specs.File.{WasRead};
ghost use Rattle.board.specs.Made.{Made};
ghost use Rattle.board.specs.Queries.{query_on, Asked};
ghost use Rattle.told.specs.Apart.{told_of};
ghost use Rattle.told.specs.Steps.{RowsSpan, listing_at, is_done};
ghost use Rattle.accepting.specs.Tests.{is_right};
ghost use Rattle.accepting.specs.Verdict.{meaning, accept_of};

use crate::counts::count_right;
use crate::opens::may_await;
use crate::repeats::all_different;
use crate::rows::all_visible;
use crate::verdict::Verdict;
use block::SIZE;
use graph_table::{QueryRow, form_of};
use resolution::{ask_of, query_at, query_count};
use text_field::Refusal;
use told::{Listing, read_listing};

// Is the listing right for the query? `awaits`, which can take long, is tested last.
fn list_right(table: &[u64], block: &[u64; SIZE], q: QueryRow, lists: &[u8], l: Listing) -> bool
    requires asked { Asked table.now (query_on table.now q) }
    requires made { Made table.now block.now }
    requires span { RowsSpan lists.now l.first l.count l.next }
    ensures answer { result ≡ is_right table.now (query_on table.now q) (listing_at lists.now l) }
{
    let ask = ask_of(table, block, q);
    count_right(table, block, &ask, l.found, l.count, l.next - l.first)
        && all_visible(table, block, q, lists, l.first)
        && all_different(lists, l.first, l.count)
        && may_await(table, block, &ask, l.awaits)
}

// The verdict on listings of the printed form: the first wrong one tells.
pub(crate) fn first_wrong(
    table: &[u64],
    block: &[u64; SIZE],
    lists: &[u8],
) -> Result<Verdict, Refusal>
    requires read { WasRead table.now }
    requires made { Made table.now block.now }
    requires form { is_done (told_of table.now lists.now) ≡ true }
    ensures answer { meaning result ≡ accept_of table.now lists.now }
{
    let form = form_of(table);
    let count = query_count(table, block);
    let mut at: usize = 0;
    for i in 0..count {
        let q = query_at(table, block, i);
        let Some(l) = read_listing(form, q, lists, at) else {
            return Err(Refusal::NoPrinting);
        };
        if !list_right(table, block, q, lists, l) {
            return Ok(Verdict::Wrong(i));
        }
        at = l.next;
    }
    Ok(Verdict::Accepted)
}
