// Is a path row's path reached, and is its mark that of a declaration where it ends?
ghost use Rattle.std.specs.Prelude.{◌≡◌, []};
ghost use Rattle.search.specs.Conditions.{Inside};
ghost use Rattle.graph_table.specs.Sections.{rows_of};
ghost use Rattle.judge.specs.Steps.{is_marked, has_mark, step_hops, row_reached};

use crate::hops::{behind, state_along};
use crate::limits::NO_STATE;
use block::SIZE;
use comparison::label_number;
use graph_table::{DeclarationRow, QueryRow, ROW, declaration_row, declares};
use path_row::form::Step;
use search::{Node, is_goal};

// Is the declaration that of what is sought, at the scope, with the mark?
fn is_marked(d: DeclarationRow, sought: QueryRow, mark: u64, s: u64) -> bool
    ensures answer { result ≡ is_marked sought mark s d }
{
    declares(d, s, sought.name) && mark == d.mark
}

// Is what is sought declared at the scope with the mark?
fn has_mark(decls: &[u64], sought: QueryRow, mark: u64, s: u64) -> bool
    ensures answer { result ≡ has_mark sought mark s (rows_of decls.now) }
{
    for i in 0..decls.len() / ROW {
        if is_marked(declaration_row(decls, i * ROW), sought, mark, s) {
            return true;
        }
    }
    false
}

// Is what is sought at the node, and declared there with the mark?
fn ends_here(
    block: &[u64; SIZE],
    decls: &[u64],
    goal: u64,
    sought: QueryRow,
    mark: u64,
    n: Node,
) -> bool
    requires inside { Inside n }
    ensures answer { result ≡ row_reached block.now decls.now goal sought mark n [] }
{
    is_goal(block, goal, n.scope, n.state) && has_mark(decls, sought, mark, n.scope)
}

// Do the steps lead from the node, along edges and by free scopes, to what is sought, declared with
// the mark?
pub fn is_reached(
    block: &[u64; SIZE],
    decls: &[u64],
    goal: u64,
    sought: QueryRow,
    mark: u64,
    from: Node,
    steps: &[Step],
) -> bool
    requires inside { Inside from }
    ensures answer { result
        ≡ row_reached block.now decls.now goal sought mark from
        (step_hops block.now steps.now from.scope) }
{
    let mut n = from;
    for step in steps {
        let to = step.scope as u64;
        let state = state_along(block, n, label_number(block, step.label), to);
        if NO_STATE <= state {
            return false;
        }
        n = behind(n, to, state, n.left);
    }
    ends_here(block, decls, goal, sought, mark, n)
}
