// Tables of places: a set of states for each of 64 scopes.
ghost use Rattle.std.specs.Prelude.{◌≡◌, true, ℕ, ◌≤◌, ◌<◌, length, replicate};
ghost use Rattle.block.specs.Sets.{has_state};
ghost use Rattle.search.specs.Tables.{place_flag};
ghost use Rattle.search.specs.Steps.{Kept};

use block::{has_state, single};

// All 16 states, as a set.
pub const ALL_STATES: u64 = 65535;

// Is the place in the table? (A slice, here and wherever a table is asked, since tables of 64, 192
// and the ask's 197 cells are asked alike.)
pub fn place(t: &[u64], s: u64, q: u64) -> bool
    requires table { 64 ≤ length t.now }
    requires scope { s < 64 }
    ensures answer { result ≡ place_flag t.now s q }
{
    has_state(t[s as usize], q)
}

// The table of all places: 64 sets, and where distances stand behind them, each as far as can be
// noted.
pub fn all_places<const CELLS: usize>() -> [u64; CELLS]
    ensures answer { result ≡ replicate CELLS 65535 }
{
    [ALL_STATES; CELLS]
}

// The table with the states at the scope too; answers the set of the scope if it had not all of
// them, else the empty set.
pub fn add(table: &mut [u64], s: u64, states: u64) -> u64
    requires table { 64 ≤ length table.old }
    requires scope { s < 64 }
    ensures kept { Kept table.old table.new }
    ensures held { (q : ℕ) → has_state states q ≡ true → place_flag table.new s q ≡ true }
{
    let old = table[s as usize];
    if old | states == old {
        return 0;
    }
    table[s as usize] = old | states;
    single(s)
}
