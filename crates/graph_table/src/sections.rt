// A graph table's form, and where the sections' rows stand in it.
ghost use Rattle.std.specs.Prelude.{◌≡◌, ◌+◌, ◌≤◌, ◌<◌, length, drop};
ghost use Rattle.graph_table.specs.Sections.{table_form, form_number, with_form, leading, first_row, rows_of};

use graph_rows::{KIND_FORM, OLD_FORM, has_kinds};

// The cells of a row: its section's number and five values.
pub const ROW: usize = 6;

// The cells of a row that rows are looked for by: its section's number, and the scope that it
// stands at.
pub const SECTION: usize = 0;

pub const SCOPE: usize = 1;

// The form of a file: the old one, or one that shows kinds, with or without turns.
#[derive(Clone, Copy)]
pub enum Form {
    Old,
    Kinds,
}

// The form of the file that the table stands for, by its first cell.
#[tactic(auto, using(crate::proofs::RowLaws::form_steps))]
pub fn form_of(table: &[u64]) -> Form
    ensures answer { result ≡ table_form table.now }
{
    match table.first() {
        Some(number) if has_kinds(*number) => Form::Kinds,
        _ => Form::Old,
    }
}

// The number that a table of a wanted form gets. One that shows kinds already keeps its own, so
// that its turns stay (02, K12).
#[tactic(auto, using(crate::proofs::RowLaws::number_steps))]
fn form_number(form: Form, number: u64) -> u64
    ensures answer { result ≡ form_number form number }
{
    match form {
        Form::Old => OLD_FORM,
        Form::Kinds if has_kinds(number) => number,
        Form::Kinds => KIND_FORM,
    }
}

// The table gets the wanted form and keeps its rows. One without cells stays as it is.
#[tactic(auto, using(crate::proofs::RowLaws::form_kept, crate::proofs::RowLaws::form_set))]
pub fn set_form(table: &mut [u64], form: Form)
    ensures memory { table.new ≡ with_form form table.old }
{
    if let Some(first) = table.first_mut() {
        *first = form_number(form, *first);
    }
}

// From place p on, the place of the first row whose cell c is k or more; where the whole rows end,
// if there is none.
#[tactic(auto, using(crate::proofs::Leading::leading_steps))]
pub fn rows_from(table: &[u64], c: usize, k: u64, p: usize) -> usize
    requires column { c < 6 }
    requires within { p ≤ length table.now }
    ensures answer { result ≡ p + leading c k (drop p table.now) }
{
    // No range of rows: where the look stops is the answer, also after the last whole row.
    let mut at = p;
    while ROW <= table.len() - at {
        if k <= table[at + c] {
            return at;
        }
        at += ROW;
    }
    at
}

// The place of the first row, behind the form.
#[tactic(auto, using(crate::proofs::Leading::first_none, crate::proofs::Leading::first_some))]
pub fn first_row(table: &[u64]) -> usize
    ensures answer { result ≡ first_row table.now }
{
    if table.is_empty() { 0 } else { 1 }
}

// How many rows there are.
pub fn row_count(rows: &[u64]) -> usize
    ensures answer { result ≡ length (rows_of rows.now) }
{
    rows.len() / ROW
}
