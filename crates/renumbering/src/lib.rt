// A gym file with its scopes renumbered for storage, and the way back (document 02, K13): the text
// is read, its table renumbered by a list of its scopes, and written.
#![tactic(auto)]

mod alone;
mod inverse;

ghost use Rattle.std.specs.Prelude.{◌≡◌, ◌≤◌, length};
ghost use Rattle.text_field.specs.Answer.{answer, leaves, answer_of};
ghost use Rattle.graph_rows.specs.Format.{own_cells};
ghost use Rattle.graph_rows.specs.Decode.{scopes_of};
ghost use Rattle.graph_file.specs.File.{WasRead, write_text};
ghost use Rattle.renumbered.specs.Renumbered.{renumbered_by, EachOnce};
ghost use Rattle.renumbering.specs.Renumbering.{renumber_text, renumber_of, room_for, sizes_of, file_of, list_of, numbered_of, back_text, back_for};

pub use crate::alone::{file_answer, list_answer};
use crate::inverse::inverse;
use board::scope_count;
use graph_file::{OWN_CELLS, SHORT_CELLS, with_graph, write};
use renumbered::renumber_table;
use text_field::{Refusal, put_bytes};
use was::{list_scopes, put_was, read_was};

// Room for the longest list: its names line and 64 scopes of at most two digits, 196 bytes at most.
const LINES: usize = 256;

// Writes the table, renumbered by a list of its scopes, over a table of so many cells.
fn write_in<const CELLS: usize>(
    table: &[u64],
    list: &[u64],
    out: &mut [u8],
) -> Result<usize, Refusal>
    requires read { WasRead table.now }
    requires list { EachOnce (scopes_of table.now) list.now }
    requires room { length table.now ≤ CELLS }
    requires size { CELLS ≤ own_cells }
    ensures answer { answer_of result ≡ answer (write_text (renumbered_by list.now table.now)) (length out.old) }
    ensures memory { out.new ≡ leaves (write_text (renumbered_by list.now table.now)) out.old }
{
    let mut own = [0u64; CELLS];
    renumber_table(table, list, &mut own);
    write(&own[..table.len()], out)
}

// Writes the table, renumbered by a list of its scopes.
fn write_by(table: &[u64], list: &[u64], out: &mut [u8]) -> Result<usize, Refusal>
    requires read { WasRead table.now }
    requires list { EachOnce (scopes_of table.now) list.now }
    ensures answer { answer_of result ≡ answer (write_text (renumbered_by list.now table.now)) (length out.old) }
    ensures memory { out.new ≡ leaves (write_text (renumbered_by list.now table.now)) out.old }
{
    if table.len() <= SHORT_CELLS {
        return write_in::<SHORT_CELLS>(table, list, out);
    }
    write_in::<OWN_CELLS>(table, list, out)
}

// Writes the renumbered table and its list. The list's text is made first in memory of its own, so
// that nothing is written before both are known to fit.
fn write_both(table: &[u64], out: &mut [u8], list: &mut [u8]) -> Result<(usize, usize), Refusal>
    requires read { WasRead table.now }
    ensures answer { numbered_of result ≡ sizes_of (room_for (length out.old) (length list.old) (renumber_text table.now)) }
    ensures file { out.new ≡ leaves (file_of (room_for (length out.old) (length list.old) (renumber_text table.now))) out.old }
    ensures list { list.new ≡ leaves (list_of (room_for (length out.old) (length list.old) (renumber_text table.now))) list.old }
{
    let was = list_scopes(table);
    let n = scope_count(table) as usize;
    let mut lines = [0u8; LINES];
    let k = put_was(&was[..n], &mut lines);
    if list.len() < k {
        return Err(Refusal::NoRoom);
    }
    let m = write_by(table, &was[..n], out)?;
    put_bytes(list, 0, &lines[..k]);
    Ok((m, k))
}

// Writes the text with its scopes renumbered breadth-first, and the list of their old numbers:
// refusals 1 to 6, then 9 if either buffer is too short. After a refusal both are as they were.
pub fn renumber(text: &[u8], out: &mut [u8], list: &mut [u8]) -> Result<(usize, usize), Refusal>
    ensures answer { numbered_of result ≡ sizes_of (room_for (length out.old) (length list.old) (renumber_of text.now)) }
    ensures file { out.new ≡ leaves (file_of (room_for (length out.old) (length list.old) (renumber_of text.now))) out.old }
    ensures list { list.new ≡ leaves (list_of (room_for (length out.old) (length list.old) (renumber_of text.now))) list.old }
{
    with_graph(text, &mut |table: &[u64]| write_both(table, out, list))?
}

// Writes the table under the numbers that the list's text tells, or 17.
fn write_back(table: &[u64], was: &[u8], out: &mut [u8]) -> Result<usize, Refusal>
    requires read { WasRead table.now }
    ensures answer { answer_of result ≡ answer (back_text was.now table.now) (length out.old) }
    ensures memory { out.new ≡ leaves (back_text was.now table.now) out.old }
{
    let n = scope_count(table) as usize;
    let numbers = read_was(was, n).ok_or(Refusal::NoList)?;
    let back = inverse(&numbers[..n]);
    write_by(table, &back[..n], out)
}

// Writes the text with its scopes under the old numbers that a list tells: refusals 1 to 6, then
// 17, then 9. After a refusal the buffer is as it was.
pub fn back(text: &[u8], was: &[u8], out: &mut [u8]) -> Result<usize, Refusal>
    ensures answer { answer_of result ≡ answer (back_for text.now was.now) (length out.old) }
    ensures memory { out.new ≡ leaves (back_for text.now was.now) out.old }
{
    with_graph(text, &mut |table: &[u64]| write_back(table, was, out))?
}
