// The ask of a query: its own block, made once for all that is asked about it.
ghost use Rattle.std.specs.Prelude.{◌≡◌, ℕ, ◌<◌, get_or};
ghost use Rattle.graph_rows.specs.Format.{declaration_section};
ghost use Rattle.graph_table.specs.Sections.{part_of};
ghost use Rattle.graph_table.specs.Values.{packed};
ghost use Rattle.board.specs.Made.{Made};
ghost use Rattle.board.specs.Marks.{DeclaringIs};
ghost use Rattle.resolution.specs.Asked.{Asking};
ghost use Rattle.board.specs.Queries.{query_on, Asked};

use block::{ASKSIZE, FROM, GOAL, HIGH, KIND, LOW, SIZE, taken};
use board::{declaring, part};
use graph_table::{DECLARATIONS, QueryRow};
use search::{ALL, goal_table};

// The cells of the two tables that an ask begins with: places worth entering, and distances.
const TABLES: usize = 192;

// The tables with room behind them.
fn with_room(tables: [u64; TABLES]) -> [u64; ASKSIZE]
    ensures same { (i : ℕ) → i < 192 → get_or result i 0 ≡ get_or tables i 0 }
{
    let mut ask = [0u64; ASKSIZE];
    ask[..TABLES].copy_from_slice(&tables);
    ask
}

// The ask of a query from any scope of the table for any kind and name, given the scopes that
// declare that name: one such set serves every start. Left open is what its tables of places and
// distances hold beyond a closed table: more places, or other distances, cost time and change no
// answer.
pub fn ask_from(table: &[u64], block: &[u64; SIZE], q: QueryRow, goal: u64) -> [u64; ASKSIZE]
    requires made { Made table.now block.now }
    requires asked { Asked table.now (query_on table.now q) }
    requires goal { DeclaringIs (part_of declaration_section table.now) (packed q.name) goal }
    ensures asking { Asking table.now block.now q result }
{
    let name = q.name;
    let mut ask = with_room(goal_table(block, goal, taken(ALL, q.start), q.start));
    ask[FROM] = q.start;
    ask[KIND] = name.kind;
    ask[HIGH] = name.high;
    ask[LOW] = name.low;
    ask[GOAL] = goal;
    ask
}

// The ask of a query of a table that was read. What is left open is as in `ask_from`: more places,
// or other distances, cost time and change no answer.
pub fn ask_of(table: &[u64], block: &[u64; SIZE], q: QueryRow) -> [u64; ASKSIZE]
    requires made { Made table.now block.now }
    requires asked { Asked table.now (query_on table.now q) }
    ensures asking { Asking table.now block.now q result }
{
    let goal = declaring(part(table, block, DECLARATIONS), q.name);
    ask_from(table, block, q, goal)
}
