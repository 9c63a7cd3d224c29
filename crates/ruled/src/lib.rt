// A gym file with the path rules of an expression (document 02, K6): the text is read, the
// expression made into rows over the file's labels, and the table written with these rows in place
// of its own.
#![tactic(auto)]

mod fill;
mod letters;
mod put;

ghost use Rattle.std.specs.Prelude.{◌≡◌, ◌+◌, ◌≤◌, length};
ghost use Rattle.text_field.specs.Answer.{answer, leaves, answer_of};
ghost use Rattle.graph_file.specs.File.{WasRead, write_text};
ghost use Rattle.ruled.specs.Ruled.{ruled_cells, text_by, ruled_of};

use crate::fill::{FILLED_CELLS, SHORT_FILLED, fill};
use crate::letters::rules_by;
use graph_file::{SHORT_CELLS, with_graph, write};
use path_rules::Rules;
use text_field::Refusal;

// The table's text with these rules, over a table of one's own that has room for them.
fn write_over(table: &[u64], r: &Rules, own: &mut [u64], out: &mut [u8]) -> Result<usize, Refusal>
    requires read { WasRead table.now }
    requires room { length table.now + 864 ≤ length own.old }
    ensures answer { answer_of result ≡ answer (write_text (ruled_cells r.now table.now)) (length out.old) }
    ensures memory { out.new ≡ leaves (write_text (ruled_cells r.now table.now)) out.old }
{
    let n = fill(table, r, own);
    write(&own[..n], out)
}

// The table's text with these rules.
fn write_with(table: &[u64], r: &Rules, out: &mut [u8]) -> Result<usize, Refusal>
    requires read { WasRead table.now }
    ensures answer { answer_of result ≡ answer (write_text (ruled_cells r.now table.now)) (length out.old) }
    ensures memory { out.new ≡ leaves (write_text (ruled_cells r.now table.now)) out.old }
{
    if table.len() <= SHORT_CELLS {
        let mut own = [0u64; SHORT_FILLED];
        return write_over(table, r, &mut own, out);
    }
    let mut own = [0u64; FILLED_CELLS];
    write_over(table, r, &mut own, out)
}

// The table's text with the expression's rules, or 12 or 13.
fn write_by(table: &[u64], expression: &[u8], out: &mut [u8]) -> Result<usize, Refusal>
    requires read { WasRead table.now }
    ensures answer { answer_of result ≡ answer (text_by expression.now table.now) (length out.old) }
    ensures memory { out.new ≡ leaves (text_by expression.now table.now) out.old }
{
    let r = rules_by(table, expression)?;
    write_with(table, &r, out)
}

// The text with the expression's rows in place of its own transitions and accepting states:
// refusals 1 to 6, then 12, then 13, then 9. After a refusal the buffer is as it was.
pub fn rules(text: &[u8], expression: &[u8], out: &mut [u8]) -> Result<usize, Refusal>
    ensures answer { answer_of result ≡ answer (ruled_of expression.now text.now) (length out.old) }
    ensures memory { out.new ≡ leaves (ruled_of expression.now text.now) out.old }
{
    with_graph(text, &mut |table: &[u64]| write_by(table, expression, out))?
}
