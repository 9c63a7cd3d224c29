// The labels' letters of a table that was read, and the rules of an expression over them.
ghost use Rattle.std.specs.Prelude.{◌≡◌, ◌+◌, ◌*◌, ◌≤◌, ◌<◌, length, take};
ghost use Rattle.graph_file.specs.File.{WasRead};
ghost use Rattle.graph_rows.specs.Decode.{letters_of};
ghost use Rattle.path_rules.specs.Parts.{tabulate};
ghost use Rattle.path_rules.specs.Rules.{rules_of};
ghost use Rattle.ruled.specs.Letters.{letter_byte, label_count};

use graph_table::{PAIRS, ROW, SECTION, first_value, rows_from};
use path_rules::{LABELS, Rules, path_rules};
use text_field::Refusal;

// How many labels there are.
pub fn label_count(table: &[u64]) -> usize
    requires some { 0 < length table.now }
    ensures answer { result ≡ label_count table.now }
{
    (rows_from(table, SECTION, PAIRS as u64, 1) - 1) / ROW
}

// The letters of the first n labels as bytes; no file has more than eight.
fn letter_bytes(table: &[u64], n: usize) -> [u8; LABELS]
    requires few { n ≤ 8 }
    requires whole { 1 + 6 * n ≤ length table.now }
    ensures size { length result ≡ 8 }
    ensures letters { take n result ≡ tabulate (letter_byte table.now) n }
{
    let mut t = [0u8; LABELS];
    for i in 0..n {
        t[i] = (first_value(table, 1 + ROW * i) % 256) as u8;
    }
    t
}

// The rules of the expression over the table's labels, or 12 or 13.
pub fn rules_by(table: &[u64], expression: &[u8]) -> Result<Rules, Refusal>
    requires read { WasRead table.now }
    ensures answer { result ≡ rules_of (letters_of table.now) expression.now }
{
    let n = label_count(table);
    let letters = letter_bytes(table, n);
    path_rules(&letters[..n], expression)
}
