// Writes a graph table as a file's text, section by section. The table is tested first, so the
// writing itself tests nothing.
ghost use Rattle.std.specs.Prelude.{◌≡◌, suc, ◌+◌, ◌*◌, ◌≤◌, length, drop};
ghost use Rattle.text_field.specs.Buffer.{Buf, puts};
ghost use Rattle.text_field.specs.Outcome.{done};
ghost use Rattle.text_field.specs.Answer.{answer, leaves, answer_of};
ghost use Rattle.text_field.specs.Writing.{buf, Wrote};
ghost use Rattle.graph_rows.specs.Format.{section_at, table_cells, text_bytes};
ghost use Rattle.graph_rows.specs.Admission.{nothing};
ghost use Rattle.graph_rows.specs.Way.{Stage, through_rows, through_section, through_sections};
ghost use Rattle.graph_rows.specs.Tested.{table_refusal, stage_from};
ghost use Rattle.graph_rows.specs.Table.{sofar_at, Known};
ghost use Rattle.graph_rows.specs.Counting.{Placed, RowsTaken};
ghost use Rattle.graph_file.specs.File.{writing, write_text};
ghost use Rattle.graph_file.specs.Writer.{Passes, pour, put_at, text_in};

use crate::line_text::put_line;
use graph_rows::{
    Counts, Layout, SECTIONS, TEXT_BYTES, counts_after, counts_begun, form_in, layout_of,
    names_place, row_comes, table_refusal,
};
use text_field::{Refusal, Writer, get_or};

// How far writing has come: the place after the rows written, and what they count.
#[derive(Clone, Copy)]
pub struct Put {
    pub cells: usize,
    pub counts: Counts,
}

// Writes the rows of a section, after those above it.
fn put_rows(s: Layout, table: &[u64], above: Put, to: &mut Writer) -> Put
    requires room { (above.cells + 6 * (section_at s.section).most ≤ table_cells)
        × Placed s.section above.cells above.counts × (above.counts.rows ≡ 0) × Known s }
    requires passes { Passes
        (through_rows (writing s.form) (suc (section_at s.section).most) s.section
        (stage_from (sofar_at table.now above.cells above.counts) (drop above.cells table.now))) }
    ensures same { to.new.out.ghost_name ≡ to.old.out.ghost_name }
    ensures answer { done (put_at result table.now to.new)
        ≡ pour (buf to.old)
        (through_rows (writing s.form) (suc (section_at s.section).most) s.section
        (stage_from (sofar_at table.now above.cells above.counts) (drop above.cells table.now))) }
    ensures taken { RowsTaken s.section above.cells result.cells result.counts }
{
    let mut r = above;
    while row_comes(s.section, table, r.cells) {
        let first = r.cells + 1;
        let end = r.cells + 6;
        put_line(table, r.counts.labels, s.line, &table[first..end], to);
        r = Put {
            cells: end,
            counts: counts_after(s.section, r.counts, get_or(table, first, 0)),
        };
    }
    r
}

// Writes section k, after the rows above it: its names line, then its rows.
fn put_section(form: u64, k: usize, table: &[u64], above: Put, to: &mut Writer) -> Put
    requires room { (above.cells + 6 * (section_at k).most ≤ table_cells)
        × Placed k above.cells above.counts }
    requires passes { Passes (through_section (writing form) k
        (stage_from (sofar_at table.now above.cells above.counts) (drop above.cells table.now))) }
    ensures same { to.new.out.ghost_name ≡ to.old.out.ghost_name }
    ensures answer { done (put_at result table.now to.new)
        ≡ pour (buf to.old)
        (through_section (writing form) k
        (stage_from (sofar_at table.now above.cells above.counts) (drop above.cells table.now))) }
    ensures taken { RowsTaken k above.cells result.cells result.counts }
{
    put_line(table, 0, names_place(form, k), &[0; 5], to);
    let begun = Put {
        cells: above.cells,
        counts: counts_begun(above.counts),
    };
    put_rows(layout_of(form, k), table, begun, to)
}

// Writes the nine sections in turn.
fn put_sections(form: u64, table: &[u64], to: &mut Writer)
    requires passes { Passes
        (through_sections (writing form) 9 0 (stage_from nothing (drop 1 table.now))) }
    ensures wrote { (g : Stage)
        → through_sections (writing form) 9 0 (stage_from nothing (drop 1 table.now)) ≡ done g
        → Wrote to.old to.new g.made }
{
    let mut r = Put {
        cells: 1,
        counts: Counts::default(),
    };
    for k in 0..SECTIONS {
        r = put_section(form, k, table, r, to);
    }
}

// Writes the text of a graph into the buffer, as far as it fits. Returns the place after it.
fn put_text(table: &[u64], out: &mut [u8]) -> usize
    requires graph { table_refusal table.now ≡ 0 }
    ensures written { ◌≡◌ {A = Buf} (out.new, result) (puts (out.old, 0) (text_in table.now)) }
{
    let mut to = Writer::new(out);
    put_sections(form_in(table), table, &mut to);
    to.end()
}

// Writes the text of a graph into a buffer that may be too short: makes it in working memory, which
// tells its length, and copies it if it fits.
fn put_measured(table: &[u64], text: &mut [u8], out: &mut [u8]) -> Result<usize, Refusal>
    requires graph { table_refusal table.now ≡ 0 }
    requires room { length text.old ≡ text_bytes }
    ensures answer { answer_of result ≡ answer (write_text table.now) (length out.old) }
    ensures memory { out.new ≡ leaves (write_text table.now) out.old }
{
    let n = put_text(table, text);
    if out.len() < n {
        return Err(Refusal::NoRoom);
    }
    out[..n].copy_from_slice(&text[..n]);
    Ok(n)
}

// Writes a graph table's text into the lent buffer. Returns how many bytes it has, or the refusal.
// No text is longer than `TEXT_BYTES`, so a buffer of that length needs no measure.
pub fn write(table: &[u64], out: &mut [u8]) -> Result<usize, Refusal>
    ensures answer { answer_of result ≡ answer (write_text table.now) (length out.old) }
    ensures memory { out.new ≡ leaves (write_text table.now) out.old }
{
    table_refusal(table)?;
    if TEXT_BYTES <= out.len() {
        return Ok(put_text(table, out));
    }
    let mut text = [0u8; TEXT_BYTES];
    put_measured(table, &mut text, out)
}
