// `awaits`: the first open pair, in the order of the open rows, that is followed.
ghost use Rattle.std.specs.Prelude.{◌≡◌, not, ◌&&◌, ℕ, ◌<◌, ◌≤◌, length};
ghost use Rattle.scope_graph.specs.Rows.{language};
ghost use Rattle.scope_graph.specs.Computed.{awaits};
ghost use Rattle.graph_rows.specs.Decode.{rules_of, graph_of, opens_of};
ghost use Rattle.block.specs.Sets.{has_state};
ghost use Rattle.block.specs.Block.{Bounds, usable_set};
ghost use Rattle.block.specs.Ask.{ask_start, ask_goal};
ghost use Rattle.graph_table.specs.Sections.{rows_of};
ghost use Rattle.resolution.specs.Asked.{Ready, query_in, AwayFrom, barred, followed_by, first_followed, awaits_meaning};

use block::{ASKSIZE, SIZE, accept_set, ask_goal, ask_start, has, pair, single, usable_set};
use board::part;
use follow::is_followed;
use graph_table::{OPENS, OpenRow, ROW, open_row};
use search::{away_table, place};

// The places that are away from the query's start. If the table made for that has the start itself
// it tells nothing, and none is taken for away.
pub fn away_from(block: &[u64; SIZE], goal: u64, start: u64) -> [u64; 64]
    requires bounds { Bounds block.now }
    requires scope { start < 64 }
    ensures away { AwayFrom block.now goal start result }
{
    let away = away_table(block, goal, start);
    if place(&away, start, 0) {
        return [0; 64];
    }
    away
}

// The states of one set that the other lacks.
fn less(a: u64, b: u64) -> u64
    ensures answer { (q : ℕ) → has_state result q ≡ (has_state a q && not (has_state b q)) }
{
    a ^ (a & b)
}

// The states in which the pair's end is usable at a place of its scope that is not barred.
fn candidates(block: &[u64; SIZE], goal: u64, away: &[u64], at: u64, end: u64) -> u64
    requires table { 64 ≤ length away.now }
    requires scope { at < 64 }
    requires end { end < 9 }
    ensures answer { (q : ℕ) → has_state result q ≡ (has_state (usable_set block.now end) q && not (barred block.now goal away.now at end q)) }
{
    let states = less(usable_set(block, end), away[at as usize]);
    if !has(goal, at) || !pair(block, 0, end) {
        return states;
    }
    less(states, accept_set(block))
}

// Is the pair of this scope and end followed? The first place found tells.
pub fn pair_followed(
    table: &[u64],
    block: &[u64; SIZE],
    ask: &[u64; ASKSIZE],
    away: &[u64],
    at: u64,
    end: u64,
) -> bool
    requires ready { Ready table.now block.now ask.now }
    requires table { 64 ≤ length away.now }
    requires away { AwayFrom block.now (ask_goal ask.now) (ask_start ask.now) away.now }
    ensures answer { result ≡ followed_by block.now table.now ask.now at end }
{
    if 63 < at || 8 < end {
        return false;
    }
    if candidates(block, ask_goal(ask), away, at, end) == 0 {
        return false;
    }
    is_followed(block, table, ask, single(at), usable_set(block, end), end)
}

// The first of the open rows that is followed: the query awaits it.
fn first_awaited(
    opens: &[u64],
    table: &[u64],
    block: &[u64; SIZE],
    ask: &[u64; ASKSIZE],
    away: &[u64],
) -> Option<OpenRow>
    requires ready { Ready table.now block.now ask.now }
    requires table { 64 ≤ length away.now }
    requires away { AwayFrom block.now (ask_goal ask.now) (ask_start ask.now) away.now }
    ensures answer { result ≡ first_followed block.now table.now ask.now (rows_of opens.now) }
{
    for row in opens.chunks_exact(ROW) {
        let pair = open_row(row, 0);
        if pair_followed(table, block, ask, away, pair.at, pair.end) {
            return Some(pair);
        }
    }
    None
}

// `awaits` of the query: its first decisive open pair, none if it is settled. Where nothing is
// open, nothing is done.
pub fn awaits_of(table: &[u64], block: &[u64; SIZE], ask: &[u64; ASKSIZE]) -> Option<OpenRow>
    requires ready { Ready table.now block.now ask.now }
    ensures answer { awaits_meaning table.now result ≡ awaits (language (rules_of table.now)) (graph_of table.now) (query_in table.now ask.now) (opens_of table.now) }
{
    let opens = part(table, block, OPENS);
    let goal = ask_goal(ask);
    let start = ask_start(ask);
    if opens.is_empty() {
        return None;
    }
    let away = away_from(block, goal, start);
    first_awaited(opens, table, block, ask, &away)
}
