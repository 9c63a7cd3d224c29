// The table with the rules' rows in place of its own: the sections before them, the new rows, the
// sections behind them.
ghost use Rattle.std.specs.Prelude.{◌≡◌, ◌+◌, ◌≤◌, length};
ghost use Rattle.text_field.specs.Buffer.{Buf, puts};
ghost use Rattle.graph_file.specs.File.{WasRead};
ghost use Rattle.ruled.specs.Ruled.{ruled_cells};

use crate::letters::label_count;
use crate::put::{accept_row, put_cells, put_rows, transition_row};
use graph_table::{ACCEPTS, COUNT, SECTION, TRANSITIONS, rows_from};
use path_rules::{CELLS, Rules, STATES};

// The cells of the largest table, and six for each row that the two sections admit, so that the new
// rows have room whatever the old ones were; and the same for a short table.
pub const FILLED_CELLS: usize = 13135;

pub const SHORT_FILLED: usize = 1117;

// The cells of the table with these rules, put into a table of one's own that has room for as many
// rows as the two sections admit: how many they are.
pub fn fill(table: &[u64], r: &Rules, own: &mut [u64]) -> usize
    requires read { WasRead table.now }
    requires room { length table.now + 864 ≤ length own.old }
    ensures written { ◌≡◌ {A = Buf} (own.new, result) (puts (own.old, 0) (ruled_cells r.now table.now)) }
{
    let labels = label_count(table);
    let before = rows_from(table, SECTION, TRANSITIONS as u64, 1);
    let behind = rows_from(table, SECTION, COUNT as u64, before);
    let above = put_cells(&table[..before], own, 0);
    let middle = put_rows(
        TRANSITIONS,
        CELLS,
        |k| transition_row(r, labels, k),
        own,
        above,
    );
    let below = put_rows(ACCEPTS, STATES, |q| accept_row(r, q), own, middle);
    put_cells(&table[behind..], own, below)
}
