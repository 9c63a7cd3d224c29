// The scopes that read a declaration. All of them are asked over one board and with one set of the
// scopes that declare the name, whether or not the file has a query there.
ghost use Rattle.std.specs.Prelude.{◌≡◌, ◌<◌};
ghost use Rattle.scope_graph.specs.Rows.{language};
ghost use Rattle.scope_graph.specs.Ends.{ends_at};
ghost use Rattle.scope_graph.specs.Readers.{query_for, readers};
ghost use Rattle.text_field.specs.Buffer.{Buf, puts};
ghost use Rattle.text_field.specs.Writing.{Wrote};
ghost use Rattle.graph_rows.specs.Decode.{rules_of, scopes_of, graph_of};
ghost use Rattle.graph_rows.specs.Format.{declaration_section};
ghost use Rattle.graph_table.specs.Sections.{part_of};
ghost use Rattle.graph_table.specs.Values.{packed};
ghost use Rattle.board.specs.Marks.{DeclaringIs};
ghost use Rattle.readers.specs.Readers.{scope_line, readers_text};
ghost use Rattle.readers.specs.Given.{declaration_on, Stands};

use block::{SIZE, scope_count};
use board::{declaring, part};
use graph_table::{DECLARATIONS, DeclarationRow, QueryRow};
use resolution::{ask_from, is_end};
use text_field::Writer;

// Does the scope read the declaration? It does if a visible path from it ends at the declaration's
// scope: every mark of the name there is then an entry.
fn reads(table: &[u64], block: &[u64; SIZE], d: DeclarationRow, declared: u64, s: u64) -> bool
    requires stands { Stands table.now block.now d }
    requires declared { DeclaringIs (part_of declaration_section table.now) (packed d.name) declared }
    requires scope { s < scopes_of table.now }
    ensures answer { result ≡ ends_at (language (rules_of table.now)) (graph_of table.now) (query_for (language (rules_of table.now)) (declaration_on table.now d) s) d.at }
{
    let name = d.name;
    let query = QueryRow { start: s, name };
    let ask = ask_from(table, block, query, declared);
    is_end(table, block, &ask, d.at)
}

// A scope and the end of its line.
fn put_scope(to: &mut Writer, s: u64)
    ensures wrote { Wrote to.old to.new (scope_line s) }
{
    to.put_number(s);
    to.put(b'\n');
}

// The names line, and a line for each scope that reads the declaration.
pub(crate) fn put_readers(
    table: &[u64],
    block: &[u64; SIZE],
    d: DeclarationRow,
    out: &mut [u8],
) -> usize
    requires stands { Stands table.now block.now d }
    ensures written { ◌≡◌ {A = Buf} (out.new, result) (puts (out.old, 0) (readers_text (readers (language (rules_of table.now)) (graph_of table.now) (declaration_on table.now d)))) }
{
    let declared = declaring(part(table, block, DECLARATIONS), d.name);
    let count = scope_count(block);
    let mut to = Writer::new(out);
    to.put_bytes(b"at\n");
    for s in 0..count {
        if reads(table, block, d, declared, s) {
            put_scope(&mut to, s);
        }
    }
    to.end()
}
