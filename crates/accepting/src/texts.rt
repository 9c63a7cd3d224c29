// The verdict on the listings delivered for a text: the file is read over a table of its own, and
// the form of all listings is tested before any of them is.
ghost use Rattle.std.specs.Prelude.{◌≡◌};
ghost use Rattle.graph_file.specs.File.{WasRead};
ghost use Rattle.accepting.specs.Verdict.{meaning, accept_of, accept_for};

use crate::lists::first_wrong;
use crate::verdict::Verdict;
use block::SIZE;
use board::put_board;
use graph_file::with_graph;
use text_field::Refusal;
use told::in_form;

// The verdict for a table that was read.
fn accept_of(table: &[u64], lists: &[u8]) -> Result<Verdict, Refusal>
    requires read { WasRead table.now }
    ensures answer { meaning result ≡ accept_of table.now lists.now }
{
    let mut block = [0u64; SIZE];
    put_board(table, &mut block);
    if !in_form(table, &block, lists) {
        return Err(Refusal::NoPrinting);
    }
    first_wrong(table, &block, lists)
}

// Takes in the listings that somebody delivered for all queries of a gym file, without a summary:
// refusals 1 to 6, then 10, then whether all of them are right, or the number of the first query,
// counted from 0, whose listing is wrong. Nothing is lent.
pub fn accept(text: &[u8], lists: &[u8]) -> Result<Verdict, Refusal>
    ensures answer { meaning result ≡ accept_for text.now lists.now }
{
    with_graph(text, &mut |table: &[u64]| accept_of(table, lists))?
}
