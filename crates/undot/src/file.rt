// A drawing put into a file. The file is read over a table of one's own, so that nothing is written
// before all is tested.
ghost use Rattle.std.specs.Prelude.{◌≡◌, ◌≤◌, length, take, drop};
ghost use Rattle.text_field.specs.Answer.{answer, leaves, answer_of};
ghost use Rattle.graph_rows.specs.Format.{table_cells};
ghost use Rattle.graph_rows.specs.Decode.{letters_of};
ghost use Rattle.graph_file.specs.File.{WasRead};
ghost use Rattle.dot_text.specs.Reading.{edges_next};
ghost use Rattle.undot.specs.Undrawn.{undrawn_by, undot_of};
ghost use Rattle.undot.specs.Rows.{without_edges, edges_text};

use crate::edges::{Counts, put_edges};
use crate::scopes::has_scopes;
use board::scope_count;
use dot_text::drawing;
use graph_change::replace;
use graph_file::{OWN_CELLS, read_over, write};
use graph_table::{EDGES, PAIRS, ROW, SECTION, rows_from};
use text_field::Refusal;

// How many labels a table has that was read.
fn label_count(table: &[u64]) -> u32
    requires read { WasRead table.now }
    ensures answer { result ≡ length (letters_of table.now) }
{
    ((rows_from(table, SECTION, PAIRS as u64, 1) - 1) / ROW) as u32
}

// Takes the edges out of a table that was read: how many cells are left.
fn clear_edges(table: &mut [u64], n: usize) -> usize
    requires read { WasRead (take n table.old) }
    requires room { (n ≤ length table.old) × (table_cells ≤ length table.old) }
    ensures left { take result table.new ≡ without_edges (take n table.old) }
    ensures within { result ≤ length table.new }
{
    replace(table, n, EDGES, &[]).unwrap_or(n)
}

// The file of a table that was read, with the drawing's edges from place `edges` on in place of its
// own: 5, 3, 4, or what is written.
fn write_with(
    table: &mut [u64],
    n: usize,
    dot: &[u8],
    edges: usize,
    out: &mut [u8],
) -> Result<usize, Refusal>
    requires read { WasRead (take n table.old) }
    requires room { (n ≤ length table.old) × (table_cells ≤ length table.old) }
    ensures answer { answer_of result ≡ answer (edges_text (take n table.old) (edges_next (drop edges dot.now)).value) (length out.old) }
    ensures memory { out.new ≡ leaves (edges_text (take n table.old) (edges_next (drop edges dot.now)).value) out.old }
{
    let has = Counts {
        labels: label_count(&table[..n]),
        scopes: scope_count(&table[..n]),
    };
    let left = clear_edges(table, n);
    let used = put_edges(table, left, has, dot, edges)?;
    write(&table[..used], out)
}

// The same, with the drawing tested first: 18, then 19.
fn undraw(table: &mut [u64], n: usize, dot: &[u8], out: &mut [u8]) -> Result<usize, Refusal>
    requires read { WasRead (take n table.old) }
    requires room { (n ≤ length table.old) × (table_cells ≤ length table.old) }
    ensures answer { answer_of result ≡ answer (undrawn_by dot.now (take n table.old)) (length out.old) }
    ensures memory { out.new ≡ leaves (undrawn_by dot.now (take n table.old)) out.old }
{
    let (scopes, edges) = drawing(dot).ok_or(Refusal::NoDrawing)?;
    if !has_scopes(dot, scopes, scope_count(&table[..n])) {
        return Err(Refusal::OtherScopes);
    }
    write_with(table, n, dot, edges, out)
}

// The text with the drawing's edges in place of its own: refusals 1 to 6, then 18, then 19, then 5,
// 3 and 4 by edges, then 9. After a refusal the buffer is as it was.
pub fn undot(text: &[u8], dot: &[u8], out: &mut [u8]) -> Result<usize, Refusal>
    ensures answer { answer_of result ≡ answer (undot_of text.now dot.now) (length out.old) }
    ensures memory { out.new ≡ leaves (undot_of text.now dot.now) out.old }
{
    let mut table = [0u64; OWN_CELLS];
    let n = read_over(text, &mut table)?;
    undraw(&mut table, n, dot, out)
}
