// A file's scopes, breadth-first. The list is its own queue: the scopes in it are taken one after
// the other, and what their edges lead to is put after the last.
ghost use Rattle.std.specs.Prelude.{◌≡◌, ℕ, ◌≤◌, ◌<◌, length, get_or, take};
ghost use Rattle.scope_graph.specs.Language.{◌∈◌};
ghost use Rattle.scope_graph.specs.Readers.{numbers_below};
ghost use Rattle.graph_rows.specs.Admission.{value, blank};
ghost use Rattle.graph_rows.specs.Format.{most_scopes};
ghost use Rattle.graph_file.specs.File.{WasRead};
ghost use Rattle.graph_table.specs.Sections.{part_of, rows_of};
ghost use Rattle.was.specs.Order.{is_listed, with_new, gathered, met_all, was_list};
ghost use Rattle.was.specs.Cells.{at_front, in_cells, scopes_by, Begins};

use board::{scope_count, section_rows};
use graph_table::{EDGES, QUERIES, ROW, edge_row, first_value, next_row};

// The scopes of a file at most.
pub(crate) const MOST_SCOPES: usize = 64;

// The first value of the first row of section k, 0 if it has no row.
fn first_in(table: &[u64], k: usize) -> u64
    requires section { k < 9 }
    ensures answer { result ≡ value (get_or (rows_of (part_of k table.now)) 0 blank) 0 }
{
    let rows = section_rows(table, k);
    if rows.len() < ROW {
        return 0;
    }
    first_value(rows, 0)
}

// Does the list hold the number?
pub(crate) fn is_listed(list: &[u64], x: u64) -> bool
    ensures answer { result ≡ is_listed x list.now }
{
    list.contains(&x)
}

// The scopes that are listed so far: the first `count` numbers of the list.
#[derive(Drop)]
struct Listed {
    list: [u64; 64],
    count: usize,
}

impl Listed {
    // Puts the scope after the others, unless it is one of them.
    fn add(&mut self, s: u64)
        requires scope { s < most_scopes }
        requires listed { Begins self.old.list self.old.count }
        ensures count { self.new.count ≡ length (with_new (take self.old.count self.old.list) s) }
        ensures memory { self.new.list
            ≡ at_front (with_new (take self.old.count self.old.list) s) self.old.list }
    {
        if !is_listed(&self.list[..self.count], s) {
            self.list[self.count] = s;
            self.count += 1;
        }
    }
}

// Adds the scopes that the edges of s lead to, in row sequence, each once.
fn gather(edges: &[u64], s: u64, to: &mut Listed)
    requires scopes { (t : ℕ) → t ∈ scopes_by edges.now s → t < most_scopes }
    requires listed { Begins to.old.list to.old.count }
    ensures count { to.new.count
        ≡ length (gathered (take to.old.count to.old.list) (scopes_by edges.now s)) }
    ensures memory { to.new.list
        ≡ at_front (gathered (take to.old.count to.old.list) (scopes_by edges.now s)) to.old.list }
{
    let mut p = next_row(edges, s, 0);
    while p < edges.len() {
        to.add(edge_row(edges, p).to);
        p = next_row(edges, s, p + ROW);
    }
}

// Lists the scopes that are met from the start.
fn list_met(edges: &[u64], start: u64) -> Listed
    requires start { start < most_scopes }
    requires scopes { (s t : ℕ) → t ∈ scopes_by edges.now s → t < most_scopes }
    ensures count { result.count ≡ length (met_all (scopes_by edges.now) start) }
    ensures memory { result.list ≡ in_cells (met_all (scopes_by edges.now) start) }
{
    let mut list = [0u64; MOST_SCOPES];
    list[0] = start;
    let mut met = Listed { list, count: 1 };
    // No range: the list grows while it is gone through.
    let mut next: usize = 0;
    while next < met.count {
        let s = met.list[next];
        gather(edges, s, &mut met);
        next += 1;
    }
    met
}

// Adds those of the first `count` scopes that are not listed, ascending.
fn list_unmet(to: &mut Listed, count: u64)
    requires count { count ≤ most_scopes }
    requires listed { Begins to.old.list to.old.count }
    ensures count { to.new.count
        ≡ length (gathered (take to.old.count to.old.list) (numbers_below count)) }
    ensures memory { to.new.list
        ≡ at_front (gathered (take to.old.count to.old.list) (numbers_below count)) to.old.list }
{
    for s in 0..count {
        to.add(s);
    }
}

// Lists all scopes: those that are met along edges from where the first query starts, nearest
// first, then the others. There are as many numbers as scopes; the cells after them are 0.
pub fn list_scopes(table: &[u64]) -> [u64; 64]
    requires read { WasRead table.now }
    ensures answer { result ≡ in_cells (was_list table.now) }
{
    let mut listed = list_met(section_rows(table, EDGES), first_in(table, QUERIES));
    list_unmet(&mut listed, scope_count(table));
    listed.list
}
