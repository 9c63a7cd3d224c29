// The standing of a path row's path: is it reached, with its mark, and where is it cut on its way?
ghost use Rattle.std.specs.Prelude.{◌≡◌, ◌<◌};
ghost use Rattle.block.specs.Block.{scopes_cell};
ghost use Rattle.board.specs.Made.{Made};
ghost use Rattle.board.specs.Queries.{query_on, Asked};
ghost use Rattle.judge.specs.Judge.{standing_in};
ghost use Rattle.judge.specs.Steps.{Begins, judged_row};

use crate::cut::last_cut;
use crate::reached::is_reached;
use block::{SIZE, scope_count, taken};
use board::{declaring, part};
use graph_table::{DECLARATIONS, QueryRow};
use path_row::form::Step;
use search::{ALL, Node, goal_table};

// The standing of a path row. `Shadowed` carries the greatest number of steps in which a reached
// path that is more specific agrees with the row's.
#[derive(Clone, Copy)]
pub enum Judged {
    Visible,
    Shadowed(usize),
    Unreached,
}

// Where a query's paths begin: at its start, in state 0, with all other scopes free. A path has
// fewer hops than there are scopes.
fn begin(block: &[u64; SIZE], start: u64) -> Node
    requires scope { start < 64 }
    requires scopes { start < scopes_cell block.now }
    ensures answer { Begins block.now start result }
{
    Node {
        free: taken(ALL, start),
        left: scope_count(block) as usize - 1,
        scope: start,
        state: 0,
    }
}

// The standing of a row with this mark, this start and these steps for a query of the table.
pub fn standing(
    table: &[u64],
    block: &[u64; SIZE],
    sought: QueryRow,
    mark: u64,
    from: u64,
    steps: &[Step],
) -> Judged
    requires asked { Asked table.now (query_on table.now sought) }
    requires made { Made table.now block.now }
    ensures answer { standing_in result ≡ judged_row table.now sought mark from steps.now }
{
    let start = sought.start;
    if from != start {
        return Judged::Unreached;
    }
    let decls = part(table, block, DECLARATIONS);
    let goal = declaring(decls, sought.name);
    let n = begin(block, start);
    if !is_reached(block, decls, goal, sought, mark, n, steps) {
        return Judged::Unreached;
    }
    let live = goal_table(block, goal, n.free, start);
    match last_cut(block, goal, &live, n, steps) {
        Some(place) => Judged::Shadowed(place),
        None => Judged::Visible,
    }
}
