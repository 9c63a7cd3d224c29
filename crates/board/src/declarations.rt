// The declarations: which scopes declare a name.
ghost use Rattle.std.specs.Prelude.{◌≡◌, ◌||◌, ℕ, ◌<◌, eqb};
ghost use Rattle.block.specs.Sets.{has_scope};
ghost use Rattle.graph_table.specs.Values.{packed, declares};
ghost use Rattle.board.specs.Marks.{DeclaringIs};

use block::single;
use graph_table::{DeclarationRow, Name, ROW, declaration_row};

// The scope as a set; 64 and above is none.
fn scope_set(at: u64) -> u64
    ensures answer { (s : ℕ) → s < 64 → has_scope result s ≡ eqb at s }
{
    if at < 64 { single(at) } else { 0 }
}

// The set, with the row's scope in it if the row declares the name. That the scope is looked at in
// a function of its own keeps this look out of the pass over the rows: most have another name, and
// the pass has no register to spare.
fn noted(set: u64, row: DeclarationRow, name: Name) -> u64
    ensures answer { (s : ℕ) → s < 64 → has_scope result s ≡ (has_scope set s || declares (packed name) s row) }
{
    if row.name != name {
        return set;
    }
    set | scope_set(row.at)
}

// The scopes that declare the name, as a set. Most rows have another name, and its first cell tells;
// that it is asked here leaves all else undone for them.
pub fn declaring(rows: &[u64], name: Name) -> u64
    ensures answer { DeclaringIs rows.now (packed name) result }
{
    let mut out = 0;
    for i in 0..rows.len() / ROW {
        let row = declaration_row(rows, i * ROW);
        if row.name.high == name.high {
            out = noted(out, row, name);
        }
    }
    out
}
