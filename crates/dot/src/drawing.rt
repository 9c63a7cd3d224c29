// The drawing of a file. It is made in memory of its own first, so that nothing is written before it
// is known to fit.
ghost use Rattle.std.specs.Prelude.{◌≡◌, length};
ghost use Rattle.text_field.specs.Outcome.{done};
ghost use Rattle.text_field.specs.Answer.{answer, leaves, answer_of};
ghost use Rattle.graph_file.specs.File.{WasRead};
ghost use Rattle.dot.specs.Drawing.{drawing_of, dot_of};

use crate::lines::put_drawing;
use graph_file::with_graph;
use text_field::{Refusal, put_bytes};

// The longest drawing: the line about turns and the opening one of 17 bytes each, 64 scopes of 4
// bytes, 512 edges of 22, and the closing line of 2.
const DRAWING_BYTES: usize = 11_556;

// Draws a table that was read.
fn dot_of(table: &[u64], out: &mut [u8]) -> Result<usize, Refusal>
    requires read { WasRead table.now }
    ensures answer { answer_of result ≡ answer (done (drawing_of table.now)) (length out.old) }
    ensures memory { out.new ≡ leaves (done (drawing_of table.now)) out.old }
{
    let mut lines = [0u8; DRAWING_BYTES];
    let n = put_drawing(table, &mut lines);
    if out.len() < n {
        return Err(Refusal::NoRoom);
    }
    Ok(put_bytes(out, 0, &lines[..n]))
}

// Draws a text: refusals 1 to 6, then 9. After a refusal the buffer is as it was.
pub fn dot(text: &[u8], out: &mut [u8]) -> Result<usize, Refusal>
    ensures answer { answer_of result ≡ answer (dot_of text.now) (length out.old) }
    ensures memory { out.new ≡ leaves (dot_of text.now) out.old }
{
    with_graph(text, &mut |table: &[u64]| dot_of(table, out))?
}
