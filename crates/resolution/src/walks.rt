// The walk over a query's entries: one counts them, compares their declarations, measures their
// rows and keeps those that fit.
ghost use Rattle.std.specs.Prelude.{◌≡◌, false};
ghost use Rattle.follow.specs.declared.Seen.TheVariants.{None};
ghost use Rattle.follow.specs.Tally.{State, take_rows};
ghost use Rattle.resolution.specs.Listing.{found_for};
ghost use Rattle.resolution.specs.Asked.{Ready, query_in, entries_taken, found_meaning};

use crate::found::found_by;
use crate::text::Found;
use block::{ASKSIZE, SIZE, accept_set, ask_goal};
use follow::{Aim, Bounds, Seen, Tally, Task, walk};

// Once rows are only counted, a walk that has met so many entries and seen one declaration is
// broken off: few queries have as many, and for those asking scope by scope takes less than walking
// on.
pub const MOST: u64 = 16;

// The rows of the query's entries taken within bounds, from byte `from` of the memory on.
pub fn take_entries(
    table: &[u64],
    block: &[u64; SIZE],
    ask: &[u64; ASKSIZE],
    bounds: Bounds,
    out: &mut [u8],
    from: usize,
) -> Tally
    requires ready { Ready table.now block.now ask.now }
    ensures taken { ◌≡◌ {A = State} (out.new, result) (take_rows bounds (out.old, record { bytes = from; entries = 0; over = false; seen = None }) (entries_taken table.now (query_in table.now ask.now))) }
{
    let aim = Aim {
        scopes: ask_goal(ask),
        states: accept_set(block),
        end: 0,
        task: Task::Entries,
        bounds,
    };
    walk(
        block,
        table,
        ask,
        ask,
        aim,
        out,
        Tally {
            bytes: from,
            entries: 0,
            over: false,
            seen: Seen::None,
        },
    )
}

// `found` alone: nothing is kept, and the walk ends at the first entry that is of another
// declaration, or after as many entries of one as are counted.
pub fn found_of(table: &[u64], block: &[u64; SIZE], ask: &[u64; ASKSIZE]) -> Found
    requires ready { Ready table.now block.now ask.now }
    ensures answer { found_meaning result ≡ found_for table.now (query_in table.now ask.now) }
{
    let mut none = [0u8; 1];
    let bounds = Bounds {
        limit: 0,
        kept: 0,
        most: MOST,
    };
    let t = take_entries(table, block, ask, bounds, &mut none, 0);
    found_by(table, block, ask, bounds, t)
}
