// `found`: how many declarations a query's entries have. Several routes to one row are one. The
// walk over the entries tells; where it was broken off, as the routes may be too many to list, the
// scopes where they end are looked for one by one.
ghost use Rattle.std.specs.Prelude.{◌≡◌, ◌<◌};
ghost use Rattle.scope_graph.specs.Rows.{language};
ghost use Rattle.scope_graph.specs.Ends.{has_second, ends_at};
ghost use Rattle.graph_rows.specs.Decode.{rules_of, graph_of};
ghost use Rattle.graph_table.specs.Values.{packed};
ghost use Rattle.board.specs.Marks.{marks_in};
ghost use Rattle.resolution.specs.Listing.{found_for};
ghost use Rattle.resolution.specs.Asked.{Ready, query_in, TallyOf, FirstEnd, found_meaning};

use crate::text::Found;
use block::{ASKSIZE, SIZE, ask_goal, has, single, usable_set};
use board::{name_asked, part};
use follow::{Bounds, Seen, Tally, is_broken, is_followed};
use graph_table::{DECLARATIONS, Name, ROW, declaration_row, declares};

// Has the scope a second mark of the name?
fn has_second(rows: &[u64], s: u64, name: Name) -> bool
    ensures answer { result ≡ has_second (marks_in rows.now s (packed name)) }
{
    let mut one = false;
    for row in rows.chunks_exact(ROW) {
        if !declares(declaration_row(row, 0), s, name) {
            continue;
        }
        if one {
            return true;
        }
        one = true;
    }
    false
}

// Does a visible path of the query end at the scope? It does where the scope declares the name and
// a path that stops there is followed.
pub fn is_end(table: &[u64], block: &[u64; SIZE], ask: &[u64; ASKSIZE], s: u64) -> bool
    requires ready { Ready table.now block.now ask.now }
    requires scope { s < 64 }
    ensures answer { result ≡ ends_at (language (rules_of table.now)) (graph_of table.now) (query_in table.now ask.now) s }
{
    if !has(ask_goal(ask), s) {
        return false;
    }
    is_followed(block, table, ask, single(s), usable_set(block, 0), 0)
}

// The first scope from a given one on where a visible path ends, if there is one.
fn next_end(table: &[u64], block: &[u64; SIZE], ask: &[u64; ASKSIZE], from: u64) -> Option<u64>
    requires ready { Ready table.now block.now ask.now }
    ensures first { FirstEnd table.now (query_in table.now ask.now) from result }
{
    (from..64).find(|&s| is_end(table, block, ask, s))
}

// `found` by the scopes where visible paths end: several if there are two, or if one has two marks.
fn found_by_ends(table: &[u64], block: &[u64; SIZE], ask: &[u64; ASKSIZE]) -> Found
    requires ready { Ready table.now block.now ask.now }
    ensures answer { found_meaning result ≡ found_for table.now (query_in table.now ask.now) }
{
    let Some(first) = next_end(table, block, ask, 0) else {
        return Found::None;
    };
    let rows = part(table, block, DECLARATIONS);
    let name = name_asked(ask);
    if has_second(rows, first, name) {
        return Found::Several;
    }
    match next_end(table, block, ask, first + 1) {
        None => Found::One,
        Some(_) => Found::Several,
    }
}

// `found` by the tally of the query's entries. Only where the walk was broken off, one declaration
// seen, are the scopes gone through.
pub fn found_by(
    table: &[u64],
    block: &[u64; SIZE],
    ask: &[u64; ASKSIZE],
    bounds: Bounds,
    tally: Tally,
) -> Found
    requires ready { Ready table.now block.now ask.now }
    requires tallied { TallyOf table.now (query_in table.now ask.now) bounds tally }
    ensures answer { found_meaning result ≡ found_for table.now (query_in table.now ask.now) }
{
    if is_broken(bounds, tally) {
        return found_by_ends(table, block, ask);
    }
    match tally.seen {
        Seen::None => Found::None,
        Seen::One(_, _) => Found::One,
        Seen::Several => Found::Several,
    }
}
