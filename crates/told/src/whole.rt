// The listings of all queries of a table that was read.
ghost use Rattle.std.specs.Prelude.{◌≡◌};
ghost use Rattle.graph_file.specs.File.{WasRead};
ghost use Rattle.board.specs.Made.{Made};
ghost use Rattle.told.specs.Apart.{told_of};
ghost use Rattle.told.specs.Steps.{is_done};

use crate::listing::read_listing;
use block::SIZE;
use graph_table::form_of;
use resolution::{query_at, query_count};

// Has the text the printed form: one listing for each query in file sequence, and nothing else?
pub fn in_form(table: &[u64], block: &[u64; SIZE], lists: &[u8]) -> bool
    requires read { WasRead table.now }
    requires made { Made table.now block.now }
    ensures answer { result ≡ is_done (told_of table.now lists.now) }
{
    let form = form_of(table);
    let count = query_count(table, block);
    let mut at: usize = 0;
    for i in 0..count {
        let Some(l) = read_listing(form, query_at(table, block, i), lists, at) else {
            return false;
        };
        at = l.next;
    }
    lists.len() <= at
}
