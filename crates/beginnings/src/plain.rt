// The plain walk over the beginnings, one by one and with no memo: most queries have few.
ghost use Rattle.std.specs.Prelude.{◌≡◌, ◌≤◌, ◌<◌, length};
ghost use Rattle.block.specs.Block.{Bounds as BlockBounds, scopes_cell};
ghost use Rattle.block.specs.Ask.{ask_start, ask_goal};
ghost use Rattle.search.specs.Conditions.{free_at, LiveAt, WorthAt};
ghost use Rattle.beginnings.specs.Tables.{hopes_in, places_behind};
ghost use Rattle.beginnings.specs.Steps.{ALL_SCOPES, ENOUGH};

use block::{ASKSIZE, SIZE};
use follow::{Aim, Bounds, Seen, Tally, Task, walk};
use search::ALL;

// The walk ends at this many places. By then it took about as long as a memo takes to be cleared.
pub const ENOUGH: u64 = 512;

// No end is preferred to this one, the ninth.
const PAST_ENDS: u64 = 9;

// How many beginnings the query has, if they are fewer than enough; else as many as enough.
pub fn counted_few(block: &[u64; SIZE], ask: &[u64; ASKSIZE], onward: &[u64], hopes: u64) -> u64
    requires bounds { BlockBounds block.now }
    requires start { ask_start ask.now < 64 }
    requires scopes { scopes_cell block.now ≤ 64 }
    requires live { LiveAt block.now (ask_goal ask.now) (free_at (ask_start ask.now)) ask.now }
    requires table { 64 ≤ length onward.now }
    requires worth { WorthAt block.now (ask_goal ask.now) ALL_SCOPES (hopes_in block.now) (free_at (ask_start ask.now)) onward.now }
    requires hopes { hopes ≡ hopes_in block.now }
    ensures few { result < ENOUGH → result ≡ length (places_behind block.now (ask_goal ask.now) (scopes_cell block.now) (free_at (ask_start ask.now)) (ask_start ask.now) 0) }
{
    let mut none = [0u8; 1];
    let t = walk(
        block,
        &block[..0],
        ask,
        onward,
        Aim {
            scopes: ALL,
            states: hopes,
            end: PAST_ENDS,
            task: Task::Place,
            bounds: Bounds {
                limit: 0,
                kept: 0,
                most: ENOUGH,
            },
        },
        &mut none,
        Tally {
            bytes: 0,
            entries: 0,
            over: false,
            seen: Seen::None,
        },
    );
    t.entries
}
