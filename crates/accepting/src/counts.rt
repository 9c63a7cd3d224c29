// The number of rows and the word under `found`, held against the query's own entries.
ghost use Rattle.std.specs.Prelude.{◌<◌};
ghost use Rattle.resolution.specs.Asked.{Ready, query_in, found_meaning};
ghost use Rattle.accepting.specs.Steps.{CountTold};

use block::{ASKSIZE, SIZE};
use follow::Bounds;
use resolution::{Found, found_by, take_entries};

// Has the query so many entries, and is this its word? One walk counts them and tells the word. It
// ends soon after our own rows have more bytes than the delivered ones: these are then not all of
// them.
pub(crate) fn count_right(
    table: &[u64],
    block: &[u64; SIZE],
    ask: &[u64; ASKSIZE],
    found: Found,
    count: usize,
    bytes: usize,
) -> bool
    requires ready { Ready table.now block.now ask.now }
    requires few { count < 9223372036854775808 }
    ensures told { CountTold table.now (query_in table.now ask.now) (found_meaning found) count bytes result }
{
    let mut none = [0u8; 1];
    let bounds = Bounds {
        limit: bytes,
        kept: 0,
        most: count as u64 + 1,
    };
    let t = take_entries(table, block, ask, bounds, &mut none, 0);
    if t.over || t.entries != count as u64 {
        return false;
    }
    found_by(table, block, ask, bounds, t) == found
}
