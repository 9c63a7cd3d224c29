// Reads a file's text into a table, section by section.
ghost use Rattle.std.specs.Prelude.{◌≡◌, [], ◌∷◌, suc, ◌+◌, ◌-◌, ◌*◌, ◌≤◌, length, drop, IfOk};
ghost use Rattle.graph_rows.specs.Format.{section_at, table_cells};
ghost use Rattle.graph_rows.specs.Table.{rows_back, Known};
ghost use Rattle.graph_rows.specs.LookBack.{SortedSofar};
ghost use Rattle.graph_rows.specs.Way.{one_row, through_rows, through_section, through_sections, through_some, at_start};
ghost use Rattle.graph_file.specs.File.{row_follows, reading, turns_in, form_of, read_stage};
ghost use Rattle.graph_rows.specs.Tested.{form_in};
ghost use Rattle.graph_file.specs.Reader.{stage_at, part_outcome, SectionTaken, SomeTaken, RowsRoom, TextRoom, RowTaken};
ghost use Rattle.graph_rows.specs.Counting.{Placed, RowsTaken};

use crate::line::{kinds_at, read_line, turns_at};
use graph_rows::{
    Counts, DECLARATIONS, EDGES, Layout, OLD_FORM, SECTIONS, TEXT_BYTES, admitted, counts_after,
    counts_begun, layout_of, least, names_place, order_fault, put_row,
};
use text_field::{Refusal, is_lower};

// A table to read any text in: the form, six cells for each of the 2,045 rows that the sections
// admit, and six more for a row past a limit while it is tested.
pub const OWN_CELLS: usize = 12277;

// A table to read a text of few lines in. Tables below 2 KiB are cleared in a few steps.
pub const SHORT_CELLS: usize = 253;

// How far reading has come: the place after what was read in the text, the place after its rows in
// the table, and what they count.
#[derive(Clone, Copy)]
pub struct Part {
    pub next: usize,
    pub cells: usize,
    pub counts: Counts,
}

// Reads one row of a section, after the part that was read, and puts it behind that part's cells.
fn read_row(s: Layout, text: &[u8], table: &mut [u64], so_far: Part) -> Result<Part, Refusal>
    requires room { (so_far.cells + 6 ≤ length table.old) × (so_far.cells ≤ table_cells)
        × Placed s.section so_far.cells so_far.counts × Known s }
    requires sorted { SortedSofar s.section (rows_back so_far.counts.rows so_far.cells table.old) }
    ensures answer { part_outcome result table.new text.now
        ≡ one_row (reading s.form) s.section
        (stage_at table.old so_far.cells so_far.counts (drop so_far.next text.now)) }
    ensures taken { IfOk result
        (λ r. RowTaken s.section so_far.cells so_far.counts r.cells r.counts) }
{
    let n = so_far.cells;
    let c = so_far.counts;
    let Some(line) = read_line(table, c.labels, s.line, text, so_far.next) else {
        return Err(Refusal::Malformed);
    };
    put_row(table, n, s.section as u64, line.row);
    admitted(s, table, n, c)?;
    Ok(Part {
        next: line.next,
        cells: n + 6,
        counts: counts_after(s.section, c, line.row[0]),
    })
}

// Does a row start at this place of the text? At its end, or at a lower-case letter, none does.
fn row_starts(text: &[u8], at: usize) -> bool
    ensures answer { result ≡ row_follows (drop at text.now) }
{
    at < text.len() && !is_lower(text[at])
}

// Reads the rows of a section, after its names line.
fn read_rows(s: Layout, text: &[u8], table: &mut [u64], above: Part) -> Result<Part, Refusal>
    requires room { RowsRoom s.section above.cells (drop above.next text.now) (length table.old)
        × (above.cells + 6 * (section_at s.section).most ≤ table_cells)
        × Placed s.section above.cells above.counts × (above.counts.rows ≡ 0) × Known s }
    ensures answer { part_outcome result table.new text.now
        ≡ through_rows (reading s.form) (suc (section_at s.section).most) s.section
        (stage_at table.old above.cells above.counts (drop above.next text.now)) }
    ensures taken { IfOk result (λ r. RowsTaken s.section above.cells r.cells r.counts) }
{
    let mut r = above;
    while row_starts(text, r.next) {
        r = read_row(s, text, table, r)?;
    }
    Ok(r)
}

// Reads section k, whose names line begins the rest of the text that is handed over, behind so many
// cells and with these counts. The section's limit and its places in the format are looked up once.
fn read_section(
    form: u64,
    k: usize,
    rest: &[u8],
    table: &mut [u64],
    cells: usize,
    counts: Counts,
) -> Result<Part, Refusal>
    requires room { RowsRoom k cells rest.now (length table.old)
        × (cells + 6 * (section_at k).most ≤ table_cells) × Placed k cells counts }
    ensures answer { part_outcome result table.new rest.now
        ≡ through_section (reading form) k (stage_at table.old cells counts rest.now) }
    ensures taken { IfOk result (λ r. SectionTaken k cells (length rest.now) r) }
{
    let Some(names) = read_line(table, 0, names_place(form, k), rest, 0) else {
        return Err(Refusal::Malformed);
    };
    let begun = Part {
        next: names.next,
        cells,
        counts: counts_begun(counts),
    };
    let r = read_rows(layout_of(form, k), rest, table, begun)?;
    if (r.counts.rows as usize) < least(k) {
        return Err(Refusal::Malformed);
    }
    Ok(Part {
        next: r.next.min(rest.len()),
        ..r
    })
}

// Reads the sections from `first` up to but without `last`, after the sections above them. Each
// section's reader is handed the rest of the text from the section's start.
fn read_some(
    form: u64,
    first: usize,
    last: usize,
    text: &[u8],
    table: &mut [u64],
    above: Part,
) -> Result<Part, Refusal>
    requires room { TextRoom text.now (length table.old) × (first ≤ last) × (last ≤ 9)
        × SomeTaken first text.now above }
    ensures answer { part_outcome result table.new text.now
        ≡ through_some (reading form) (last - first) first
        (stage_at table.old above.cells above.counts (drop above.next text.now)) }
    ensures taken { IfOk result (λ r. SomeTaken last text.now r) }
{
    let mut r = above;
    for k in first..last {
        let at = r.next;
        let section = read_section(form, k, &text[at..], table, r.cells, r.counts)?;
        r = Part {
            next: at + section.next,
            ..section
        };
    }
    Ok(r)
}

// Reads the six sections above the declarations. The sections above the edges are the same in all
// forms; the names line of the edges shows whether there are turns, and the table's first cell
// records it.
fn read_upper(text: &[u8], table: &mut [u64]) -> Result<Part, Refusal>
    requires room { TextRoom text.now (length table.old) }
    ensures answer { part_outcome result table.new text.now
        ≡ through_some (reading (turns_in text.now)) 6 0
        (at_start (turns_in text.now ∷ []) text.now) }
    ensures taken { IfOk result (λ r. SomeTaken 6 text.now r) }
    ensures form { IfOk result (λ r. form_in table.new ≡ turns_in text.now) }
{
    table[0] = OLD_FORM;
    let begin = Part {
        next: 0,
        cells: 1,
        counts: Counts::default(),
    };
    let above = read_some(OLD_FORM, 0, EDGES, text, table, begin)?;
    let form = turns_at(table, &text[above.next..]);
    table[0] = form;
    read_some(form, EDGES, DECLARATIONS, text, table, above)
}

// Reads the nine sections. In a file without turns the names line of declarations shows the form.
fn read_sections(text: &[u8], table: &mut [u64]) -> Result<Part, Refusal>
    requires room { TextRoom text.now (length table.old) }
    ensures answer { part_outcome result table.new text.now
        ≡ through_sections (reading (form_of text.now)) 9 0
        (at_start (form_of text.now ∷ []) text.now) }
    ensures size { IfOk result (λ r. r.cells ≤ length table.old) }
    ensures form { IfOk result (λ r. form_in table.new ≡ form_of text.now) }
{
    let above = read_upper(text, table)?;
    let form = kinds_at(table, text, above.next);
    table[0] = form;
    let r = read_some(form, DECLARATIONS, SECTIONS, text, table, above)?;
    if r.next < text.len() {
        return Err(Refusal::Malformed);
    }
    Ok(r)
}

// Reads the whole file: tests its length, reads its sections, tests its order.
pub fn read_whole(text: &[u8], table: &mut [u64]) -> Result<Part, Refusal>
    requires room { TextRoom text.now (length table.old) }
    ensures answer { part_outcome result table.new text.now ≡ read_stage text.now }
    ensures size { IfOk result (λ r. r.cells ≤ length table.old) }
    ensures form { IfOk result (λ r. form_in table.new ≡ form_of text.now) }
{
    if TEXT_BYTES < text.len() {
        return Err(Refusal::TooLong);
    }
    let r = read_sections(text, table)?;
    if order_fault(table, r.counts.labels, r.counts.pairs) {
        return Err(Refusal::NoOrder);
    }
    Ok(r)
}
