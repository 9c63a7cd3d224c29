// Whether a graph table has something that the wanted form cannot show.
ghost use Rattle.std.specs.Prelude.{◌≡◌, not, ◌+◌, ◌≤◌, eqb, length, drop};
ghost use Rattle.graph_rows.specs.Format.{plain_kind};
ghost use Rattle.conversion.specs.Conversion.{unshown};
ghost use Rattle.conversion.specs.Rows.{other_here, unfit};

use graph_rows::PLAIN_KIND;
use graph_table::{
    DECLARATIONS, EDGES, EdgeRow, Form, Name, QUERIES, ROW, declaration_row, edge_row, first_row,
    in_section, query_row, row_count,
};

// The turn of every edge of a file without turns (document 02, K12).
const OLD_TURN: u64 = 0;

// Is the name's kind another than `v`?
fn other_kind(name: Name) -> bool
    ensures answer { result ≡ not (eqb name.kind plain_kind) }
{
    name.kind != PLAIN_KIND
}

// Is the edge's turn another than 0?
fn other_turn(edge: EdgeRow) -> bool
    ensures answer { result ≡ not (eqb edge.turn 0) }
{
    edge.turn != OLD_TURN
}

// Is the row at place p one that the old form cannot show: an edge's of another turn, a
// declaration's or a query's of another kind?
fn is_other(table: &[u64], p: usize) -> bool
    requires whole { p + 6 ≤ length table.now }
    ensures answer { result ≡ other_here (drop p table.now) }
{
    if in_section(table, p, EDGES as u64) {
        let row = edge_row(table, p);
        return other_turn(row);
    }
    if in_section(table, p, DECLARATIONS as u64) {
        let row = declaration_row(table, p);
        return other_kind(row.name);
    }
    if in_section(table, p, QUERIES as u64) {
        let row = query_row(table, p);
        return other_kind(row.name);
    }
    false
}

// Has the table some row that the old form cannot show?
fn unshown(table: &[u64]) -> bool
    ensures answer { result ≡ unshown table.now }
{
    let rows = &table[first_row(table)..];
    (0..row_count(rows)).any(|i| is_other(rows, ROW * i))
}

// Has the table something that the form cannot show?
pub fn unfit(table: &[u64], form: Form) -> bool
    ensures answer { result ≡ unfit form table.now }
{
    match form {
        Form::Old => unshown(table),
        Form::Kinds => false,
    }
}
