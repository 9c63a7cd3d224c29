// The order of ends, made of its rows. A row comes as document 01's pair of two ends; what is looked
// up later is for each end the set of those preferred to it, which answers with one read.
ghost use Rattle.std.specs.Prelude.{◌≡◌};
ghost use Rattle.graph_table.specs.Sections.{rows_of};
ghost use Rattle.board.specs.Tables.{BetterIs};
ghost use Rattle.board.specs.Places.{end_place};

use graph_table::{ROW, pair_row};
use scope_graph::End;

// A file has no more labels.
const LABELS: u64 = 8;

// The number of an end in the board's tables: 0 for `$`, n + 1 for label n; a label that no file has
// gets none.
fn end_place(end: End) -> Option<usize>
    ensures answer { result ≡ end_place end }
{
    match end {
        End::Stop => Some(0),
        End::Label(l, _) if l < LABELS => Some(l as usize + 1),
        End::Label(..) => None,
    }
}

// For each end the ends that are preferred to it, as a set.
pub fn better_table(rows: &[u64]) -> [u64; 9]
    ensures answer { BetterIs (rows_of rows.now) result }
{
    let mut t = [0; 9];
    for i in 0..rows.len() / ROW {
        let row = pair_row(rows, i * ROW);
        let Some(less) = end_place(row.less) else {
            continue;
        };
        let Some(more) = end_place(row.more) else {
            continue;
        };
        t[more] |= 1 << less;
    }
    t
}
