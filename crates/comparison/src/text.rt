// Two path rows compared by the order in a gym file's text.
ghost use Rattle.comparison.specs.Compare.{compare_answer, HandsOut};

use crate::rows::{ComparedRows, compare_rows, refused_rows};
use graph_file::with_graph;

// Which row is more specific, where n records are lent for the steps of a and m for those of b.
pub fn compare_text(text: &[u8], a: &[u8], b: &[u8], n: usize, m: usize) -> ComparedRows
    ensures answer { HandsOut (compare_answer text.now a.now b.now n m) a.now b.now result }
{
    match with_graph(text, &mut |table: &[u64]| compare_rows(table, a, b, n, m)) {
        Ok(compared) => compared,
        Err(refusal) => refused_rows(refusal),
    }
}
