// The lines of a drawing.
ghost use Rattle.std.specs.Prelude.{◌≡◌};
ghost use mathlib.Core.List.{◌++◌, flat_map};
ghost use Rattle.scope_graph.specs.Readers.{numbers_below};
ghost use Rattle.text_field.specs.Buffer.{Buf, puts};
ghost use Rattle.text_field.specs.Writing.{Wrote};
ghost use Rattle.graph_file.specs.File.{WasRead};
ghost use Rattle.dot.specs.Drawing.{dropped_if, open_line, scope_line, edge_line, drawing_of};
ghost use Rattle.dot.specs.Rows.{drawn, edge_lines};

use crate::rows::{has_turn, letter_byte};
use board::{scope_count, section_rows};
use graph_table::{EDGES, EdgeRow, LABELS, ROW, edge_row, row_count};
use text_field::Writer;

// The line about turns if the drawing loses one, and the line that opens the graph.
fn put_head(to: &mut Writer, dropped: bool)
    ensures wrote { Wrote to.old to.new (dropped_if dropped ++ open_line) }
{
    if dropped {
        to.put_bytes(b"// turns dropped\n");
    }
    to.put_bytes(b"digraph scopes {\n");
}

// A scope's line.
fn put_scope(to: &mut Writer, s: u64)
    ensures wrote { Wrote to.old to.new (scope_line s) }
{
    to.put_number(s);
    to.put_bytes(b";\n");
}

// The lines of all scopes, ascending.
fn put_scopes(to: &mut Writer, count: u64)
    ensures wrote { Wrote to.old to.new (flat_map scope_line (numbers_below count)) }
{
    for s in 0..count {
        put_scope(to, s);
    }
}

// An edge's line.
fn put_edge(to: &mut Writer, edge: EdgeRow, letter: u8)
    ensures wrote { Wrote to.old to.new (edge_line (drawn edge letter)) }
{
    to.put_number(edge.from);
    to.put_bytes(b" -> ");
    to.put_number(edge.to);
    to.put_bytes(b" [label=\"");
    to.put(letter);
    to.put_bytes(b"\"];\n");
}

// The lines of all edges, in row sequence.
fn put_edges(labels: &[u64], edges: &[u64], to: &mut Writer)
    ensures wrote { Wrote to.old to.new (edge_lines labels.now edges.now) }
{
    for i in 0..row_count(edges) {
        let edge = edge_row(edges, ROW * i);
        put_edge(to, edge, letter_byte(labels, edge.label));
    }
}

// The drawing of a table that was read.
pub(crate) fn put_drawing(table: &[u64], out: &mut [u8]) -> usize
    requires read { WasRead table.now }
    ensures written { ◌≡◌ {A = Buf} (out.new, result) (puts (out.old, 0) (drawing_of table.now)) }
{
    let edges = section_rows(table, EDGES);
    let mut to = Writer::new(out);
    put_head(&mut to, has_turn(edges));
    put_scopes(&mut to, scope_count(table));
    put_edges(section_rows(table, LABELS), edges, &mut to);
    to.put_bytes(b"}\n");
    to.end()
}
