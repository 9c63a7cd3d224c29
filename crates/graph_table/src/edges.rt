// The one look through edge rows: where a scope's next row stands. Whoever wants the edges that
// leave a scope asks here, row after row.
ghost use Rattle.std.specs.Prelude.{◌≡◌};
ghost use Rattle.graph_table.specs.Rows.{next_row};

use crate::sections::ROW;

// From cell p on, where the next row stands that leaves scope s; the number of cells if there is
// none. A later scope's row means none: in an accepted table no row of s is left behind it, and in
// any other those behind it do not count. What stands above p is not looked at: begin at 0, and go
// on behind the row that was found. (A loop that yields by `break` is the form that is bound for this
// look.)
#[tactic(auto, using(crate::proofs::Laws::next_steps))]
pub fn next_row(edges: &[u64], s: u64, p: usize) -> usize
    ensures answer { result ≡ next_row edges.now s p }
{
    let n = edges.len();
    if n < ROW {
        return n;
    }
    let last = n - ROW;
    let mut at = p;
    loop {
        if last < at {
            break n;
        }
        let from = edges[at + 1];
        if s < from {
            break n;
        }
        if from == s {
            break at;
        }
        at += ROW;
    }
}
