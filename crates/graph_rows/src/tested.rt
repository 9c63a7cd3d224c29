// Tests whether a table of cells is a graph: as its text would be tested, but nothing is written.
ghost use Rattle.std.specs.Prelude.{◌≡◌, suc, ◌+◌, ◌*◌, ◌≤◌, drop, IfOk};
ghost use Rattle.text_field.specs.Answer.{fault_of};
ghost use Rattle.graph_rows.specs.Format.{section_at, table_cells};
ghost use Rattle.graph_rows.specs.Admission.{nothing};
ghost use Rattle.graph_rows.specs.LookBack.{SortedSofar};
ghost use Rattle.graph_rows.specs.Way.{one_row, through_rows, through_section, through_sections, starts_with};
ghost use Rattle.graph_rows.specs.Tested.{testing, has_form, form_in, refusal_in, table_refusal, stage_from, test_outcome};
ghost use Rattle.graph_rows.specs.Table.{rows_back, sofar_at, Known};
ghost use Rattle.graph_rows.specs.Counting.{Placed, RowsTaken, counts_begun};

use crate::admission::admitted;
use crate::format::{Layout, OLD_FORM, SECTIONS, TURN_FORM, layout_of, least};
use crate::formed::is_formed;
use crate::order::order_fault;
use crate::rows::{Counts, counts_after};
use text_field::{Refusal, get_or};

// How far a test has come: the place after the rows tested, and what they count.
#[derive(Clone, Copy)]
pub struct Tested {
    pub cells: usize,
    pub counts: Counts,
}

// Does a row of section k stand at place p?
pub fn row_comes(k: usize, table: &[u64], p: usize) -> bool
    ensures answer { result ≡ starts_with k (drop p table.now) }
{
    p < table.len() && table[p] == k as u64
}

// The counts when a section begins.
pub fn counts_begun(c: Counts) -> Counts
    ensures answer { result ≡ counts_begun c }
{
    Counts { rows: 0, ..c }
}

// Tests the cells at place p as the next row of a section. They are refused by 2, 5, 3 or 4, or
// admitted.
fn row_refusal(s: Layout, table: &[u64], p: usize, c: Counts) -> Result<(), Refusal>
    requires room { (p ≤ table_cells) × Known s }
    requires sorted { SortedSofar s.section (rows_back c.rows p table.now) }
    ensures answer { fault_of result ≡ refusal_in (one_row (testing s.form) s.section
        (stage_from (sofar_at table.now p c) (drop p table.now))) }
{
    let Some(row) = table.get(p + 1..p + 6) else {
        return Err(Refusal::Malformed);
    };
    if !is_formed(s, row) {
        return Err(Refusal::Malformed);
    }
    admitted(s, table, p, c)
}

// Tests the rows of a section, from place p on.
fn test_rows(s: Layout, table: &[u64], p: usize, c: Counts) -> Result<Tested, Refusal>
    requires room { (p + 6 * (section_at s.section).most ≤ table_cells) × Placed s.section p c × (c.rows ≡ 0)
        × Known s }
    ensures answer { test_outcome result table.now
        ≡ through_rows (testing s.form) (suc (section_at s.section).most) s.section
        (stage_from (sofar_at table.now p c) (drop p table.now)) }
    ensures taken { IfOk result (λ r. RowsTaken s.section p r.cells r.counts) }
{
    let mut m = p;
    let mut d = c;
    while row_comes(s.section, table, m) {
        row_refusal(s, table, m, d)?;
        d = counts_after(s.section, d, get_or(table, m + 1, 0));
        m += 6;
    }
    Ok(Tested {
        cells: m,
        counts: d,
    })
}

// Tests section k from place p on: its rows, of which there must be enough.
fn test_section(form: u64, k: usize, table: &[u64], p: usize, c: Counts) -> Result<Tested, Refusal>
    requires room { (p + 6 * (section_at k).most ≤ table_cells) × Placed k p c }
    ensures answer { test_outcome result table.now
        ≡ through_section (testing form) k (stage_from (sofar_at table.now p c) (drop p table.now)) }
    ensures taken { IfOk result (λ r. RowsTaken k p r.cells r.counts) }
{
    let r = test_rows(layout_of(form, k), table, p, counts_begun(c))?;
    if (r.counts.rows as usize) < least(k) {
        return Err(Refusal::Malformed);
    }
    Ok(r)
}

// Tests the nine sections in turn. Cells left over after them are refused.
fn test_sections(form: u64, table: &[u64]) -> Result<Tested, Refusal>
    ensures answer { test_outcome result table.now
        ≡ through_sections (testing form) 9 0 (stage_from nothing (drop 1 table.now)) }
{
    let mut r = Tested {
        cells: 1,
        counts: Counts::default(),
    };
    for k in 0..SECTIONS {
        r = test_section(form, k, table, r.cells, r.counts)?;
    }
    if r.cells < table.len() {
        return Err(Refusal::Malformed);
    }
    Ok(r)
}

// The form of a graph table.
pub fn form_in(table: &[u64]) -> u64
    ensures answer { result ≡ form_in table.now }
{
    get_or(table, 0, OLD_FORM)
}

// Does the table have a first cell, and is it a form's number?
fn has_form(table: &[u64]) -> bool
    ensures answer { result ≡ has_form table.now }
{
    !table.is_empty() && form_in(table) <= TURN_FORM
}

// Tests a table of any content. It is refused by 2, 5, 3, 4 or 6, as writing it would be, or it is a
// graph.
pub fn table_refusal(table: &[u64]) -> Result<(), Refusal>
    ensures answer { fault_of result ≡ table_refusal table.now }
{
    if !has_form(table) {
        return Err(Refusal::Malformed);
    }
    let counts = test_sections(form_in(table), table)?.counts;
    if order_fault(table, counts.labels, counts.pairs) {
        return Err(Refusal::NoOrder);
    }
    Ok(())
}
