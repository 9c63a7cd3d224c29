// The rows of a graph table by their values: the first cell is the section's number, then come the
// values. Other crates read rows here, but for `graph_change`, which compares keys and moves cells,
// and for `graph_rows` and `graph_file`, which test, make and write the table.
ghost use Rattle.std.specs.Prelude.{◌≡◌, ◌+◌, ◌≤◌, length, get_or, drop};
ghost use Rattle.graph_rows.specs.Way.{starts_with};
ghost use Rattle.graph_table.specs.Values.{packed, row_end, pair_row, transition_row, edge_row, declaration_row, open_row, query_row, declares};

use crate::names::Name;
use scope_graph::{End, Pair};

// `state label next`
#[derive(Clone, Copy)]
pub struct TransitionRow {
    pub state: u64,
    pub label: u64,
    pub next: u64,
}

// `from label to`, and the edge's turn: 0 where the file has none
#[derive(Clone, Copy)]
pub struct EdgeRow {
    pub from: u64,
    pub label: u64,
    pub to: u64,
    pub turn: u64,
}

// `at name mark`, or with its kind `at kind name mark`
#[derive(Clone, Copy)]
pub struct DeclarationRow {
    pub at: u64,
    pub name: Name,
    pub mark: u64,
}

// `at open`: the end by its number
#[derive(Clone, Copy)]
pub struct OpenRow {
    pub at: u64,
    pub end: u64,
}

// `start seek`, or with its kind `start kind seek`
#[derive(Clone, Copy)]
pub struct QueryRow {
    pub start: u64,
    pub name: Name,
}

// The first value of the row at place p: all that a row `label`, `accept` or `scopes` has.
pub fn first_value(rows: &[u64], p: usize) -> u64
    requires whole { p + 6 ≤ length rows.now }
    ensures answer { result ≡ get_or rows.now (p + 1) 0 }
{
    rows[p + 1]
}

// An end by its cell: 0 is `$`, n + 1 is label n. The end of a row has no turn.
#[tactic(auto, using(crate::proofs::RowLaws::row_end_stop, crate::proofs::RowLaws::row_end_label))]
fn row_end(cell: u64) -> End
    ensures answer { result ≡ row_end cell }
{
    if cell == 0 {
        End::Stop
    } else {
        End::Label(cell - 1, None)
    }
}

// `less more`, in the form that document 01 binds for an order pair.
pub fn pair_row(rows: &[u64], p: usize) -> Pair
    requires whole { p + 6 ≤ length rows.now }
    ensures answer { result ≡ pair_row rows.now p }
{
    let less = row_end(rows[p + 1]);
    let more = row_end(rows[p + 2]);
    Pair { less, more }
}

pub fn transition_row(rows: &[u64], p: usize) -> TransitionRow
    requires whole { p + 6 ≤ length rows.now }
    ensures answer { result ≡ transition_row rows.now p }
{
    TransitionRow {
        state: rows[p + 1],
        label: rows[p + 2],
        next: rows[p + 3],
    }
}

pub fn edge_row(rows: &[u64], p: usize) -> EdgeRow
    requires whole { p + 6 ≤ length rows.now }
    ensures answer { result ≡ edge_row rows.now p }
{
    EdgeRow {
        from: rows[p + 1],
        label: rows[p + 2],
        to: rows[p + 3],
        turn: rows[p + 4],
    }
}

pub fn declaration_row(rows: &[u64], p: usize) -> DeclarationRow
    requires whole { p + 6 ≤ length rows.now }
    ensures answer { result ≡ declaration_row rows.now p }
{
    DeclarationRow {
        at: rows[p + 1],
        name: Name {
            kind: rows[p + 2],
            high: rows[p + 3],
            low: rows[p + 4],
        },
        mark: rows[p + 5],
    }
}

// Does the row declare the name at the scope?
#[tactic(auto, using(crate::proofs::RowLaws::declares_steps))]
pub fn declares(row: DeclarationRow, s: u64, name: Name) -> bool
    ensures answer { result ≡ declares (packed name) s row }
{
    row.at == s && row.name == name
}

pub fn open_row(rows: &[u64], p: usize) -> OpenRow
    requires whole { p + 6 ≤ length rows.now }
    ensures answer { result ≡ open_row rows.now p }
{
    OpenRow {
        at: rows[p + 1],
        end: rows[p + 2],
    }
}

pub fn query_row(rows: &[u64], p: usize) -> QueryRow
    requires whole { p + 6 ≤ length rows.now }
    ensures answer { result ≡ query_row rows.now p }
{
    QueryRow {
        start: rows[p + 1],
        name: Name {
            kind: rows[p + 2],
            high: rows[p + 3],
            low: rows[p + 4],
        },
    }
}

// Does a row of section k stand at a place of the table?
#[tactic(auto, using(crate::proofs::RowLaws::row_none, crate::proofs::RowLaws::row_test))]
pub fn in_section(table: &[u64], at: usize, k: u64) -> bool
    ensures answer { result ≡ starts_with k (drop at table.now) }
{
    table.get(at).is_some_and(|section| *section == k)
}
