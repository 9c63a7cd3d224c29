// The text read into a table: over one that has room for it, or into a lent one. A table is cleared
// wherever it is made, so a short text gets a short one.
ghost use Rattle.std.specs.Prelude.{◌≡◌, ◌≤◌, ℕ, List, true, length, IfOk, IfErr};
ghost use Rattle.std.specs.Fn.{TakesAt, CalledAt};
ghost use Rattle.text_field.specs.Outcome.{refused, done};
ghost use Rattle.text_field.specs.Refusal.{number_of};
ghost use Rattle.graph_rows.specs.Format.{own_cells};
ghost use Rattle.graph_file.specs.File.{read_cells};
ghost use Rattle.text_field.specs.Answer.{answer, leaves, answer_of};
ghost use Rattle.graph_file.specs.Reader.{short_cells, TextRoom, table_read, WrittenIn};

use crate::reader::{OWN_CELLS, SHORT_CELLS, read_whole};
use crate::sought::line_count;
use text_field::Refusal;

// The lines that a short text has at most: a row of six cells for each, the form and six cells more
// are those of a short table.
const SHORT_LINES: usize = 41;

// A text of more bytes is not looked through for its lines: hardly any has so few.
const SHORT_BYTES: usize = 512;

// Does a short table serve for the text? Of which short texts it says so is left open: a larger
// table serves too, and only time depends on it.
pub fn is_short(text: &[u8]) -> bool
    ensures room { result ≡ true → TextRoom text.now short_cells }
{
    text.len() <= SHORT_BYTES && line_count(text) <= SHORT_LINES
}

// The text read over a table with room for it, whatever stood there: how many cells it made, or the
// refusal. What the cells behind them hold, and after a refusal all cells, is left open: the table
// is the caller's own memory to work in. A host's table is lent to `read`.
pub fn read_over(text: &[u8], table: &mut [u64]) -> Result<usize, Refusal>
    requires room { TextRoom text.now (length table.old) }
    ensures answer { table_read result table.new ≡ read_cells text.now }
    ensures within { WrittenIn result table.new }
{
    let r = read_whole(text, table)?;
    Ok(r.cells)
}

// What is made of the text's cells, read over a table of so many.
fn with_table<const CELLS: usize, R, F: FnMut(&[u64]) -> R>(
    text: &[u8],
    then: &mut F,
) -> Result<R, Refusal>
    requires room { TextRoom text.now CELLS }
    requires size { CELLS ≤ own_cells }
    requires callable { (cells : List ℕ) → read_cells text.now ≡ done cells → TakesAt F.FnMut then.old cells }
    ensures read { IfOk result (λ r. (cells : List ℕ) × (read_cells text.now ≡ done cells) × CalledAt F.FnMut then.old cells r then.new) }
    ensures refused { IfErr result (λ r. (read_cells text.now ≡ refused (number_of r)) × (then.new ≡ then.old)) }
{
    let mut table = [0u64; CELLS];
    let n = read_over(text, &mut table)?;
    Ok(then(&table[..n]))
}

// What is made of the text's cells: the text's refusal, or what `then` gives of them. They are read
// over a table of one's own, a short one where that is enough.
pub fn with_graph<R, F: FnMut(&[u64]) -> R>(text: &[u8], then: &mut F) -> Result<R, Refusal>
    requires callable { (cells : List ℕ) → read_cells text.now ≡ done cells → TakesAt F.FnMut then.old cells }
    ensures read { IfOk result (λ r. (cells : List ℕ) × (read_cells text.now ≡ done cells) × CalledAt F.FnMut then.old cells r then.new) }
    ensures refused { IfErr result (λ r. (read_cells text.now ≡ refused (number_of r)) × (then.new ≡ then.old)) }
{
    if is_short(text) {
        return with_table::<SHORT_CELLS, R, F>(text, then);
    }
    with_table::<OWN_CELLS, R, F>(text, then)
}

// The cells of a table copied to the lent one, if they have room there.
fn hand_out(cells: &[u64], table: &mut [u64]) -> Result<usize, Refusal>
    ensures answer { answer_of result ≡ answer (done cells.now) (length table.old) }
    ensures memory { table.new ≡ leaves (done cells.now) table.old }
{
    let n = cells.len();
    if table.len() < n {
        return Err(Refusal::NoRoom);
    }
    table[..n].copy_from_slice(cells);
    Ok(n)
}

// The text read into the lent table: how many cells were written, or the refusal. After a refusal
// the table is as it was.
pub fn read(text: &[u8], table: &mut [u64]) -> Result<usize, Refusal>
    ensures answer { answer_of result ≡ answer (read_cells text.now) (length table.old) }
    ensures memory { table.new ≡ leaves (read_cells text.now) table.old }
{
    with_graph(text, &mut |cells: &[u64]| hand_out(cells, table))?
}
