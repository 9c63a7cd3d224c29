// A gym file in the other form (document 02, K9 and K12): the text is read, tested for what the
// wanted form cannot show, and written with its form changed.
#![tactic(auto)]

mod unshown;

ghost use Rattle.std.specs.Prelude.{◌≡◌, ◌≤◌, ◌<◌, length, take};
ghost use Rattle.text_field.specs.Answer.{answer, leaves, answer_of};
ghost use Rattle.graph_rows.specs.Format.{own_cells};
ghost use Rattle.graph_file.specs.Reader.{TextRoom};
ghost use Rattle.conversion.specs.Conversion.{text_in, text_of, old_of, new_of};

use graph_file::{OWN_CELLS, SHORT_CELLS, is_short, read_over, write};
use graph_table::{Form, set_form};
use text_field::Refusal;
use unshown::unfit;

// The first n cells, a whole table, as a text of the form. What the old form cannot show is refused:
// a declaration or a query of another kind than `v`, or an edge of another turn than 0 (document 02,
// K9 and K12).
fn write_in(table: &mut [u64], n: usize, form: Form, out: &mut [u8]) -> Result<usize, Refusal>
    requires cells { (0 < n) × (n ≤ length table.old) }
    ensures answer { answer_of result ≡ answer (text_in form (take n table.old)) (length out.old) }
    ensures memory { out.new ≡ leaves (text_in form (take n table.old)) out.old }
{
    if unfit(&table[..n], form) {
        return Err(Refusal::NoOldForm);
    }
    set_form(table, form);
    write(&table[..n], out)
}

// The text in the form, read over a table of so many cells.
fn convert_in<const CELLS: usize>(text: &[u8], form: Form, out: &mut [u8]) -> Result<usize, Refusal>
    requires room { TextRoom text.now CELLS }
    requires size { CELLS ≤ own_cells }
    ensures answer { answer_of result ≡ answer (text_of form text.now) (length out.old) }
    ensures memory { out.new ≡ leaves (text_of form text.now) out.old }
{
    let mut table = [0u64; CELLS];
    let n = read_over(text, &mut table)?;
    write_in(&mut table, n, form, out)
}

// The text in the form.
fn convert(text: &[u8], form: Form, out: &mut [u8]) -> Result<usize, Refusal>
    ensures answer { answer_of result ≡ answer (text_of form text.now) (length out.old) }
    ensures memory { out.new ≡ leaves (text_of form text.now) out.old }
{
    if is_short(text) {
        return convert_in::<SHORT_CELLS>(text, form, out);
    }
    convert_in::<OWN_CELLS>(text, form, out)
}

// The text in the old form: refusals 1 to 6, then 14, then 9. After a refusal the buffer is as it
// was.
pub fn to_old(text: &[u8], out: &mut [u8]) -> Result<usize, Refusal>
    ensures answer { answer_of result ≡ answer (old_of text.now) (length out.old) }
    ensures memory { out.new ≡ leaves (old_of text.now) out.old }
{
    convert(text, Form::Old, out)
}

// The text in a form with kinds, a file with turns as it is: refusals 1 to 6, then 9. After a
// refusal the buffer is as it was.
pub fn to_new(text: &[u8], out: &mut [u8]) -> Result<usize, Refusal>
    ensures answer { answer_of result ≡ answer (new_of text.now) (length out.old) }
    ensures memory { out.new ≡ leaves (new_of text.now) out.old }
{
    convert(text, Form::Kinds, out)
}
