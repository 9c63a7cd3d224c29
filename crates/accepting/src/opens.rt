// May a listing say that under `awaits`?
ghost use Rattle.std.specs.Prelude.{◌≡◌, ◌&&◌};
ghost use Rattle.scope_graph.specs.Rows.{language};
ghost use Rattle.scope_graph.specs.Order.{end_of};
ghost use Rattle.scope_graph.specs.Computed.{followed_at, awaits};
ghost use Rattle.graph_rows.specs.Decode.{rules_of, graph_of, opens_of};
ghost use Rattle.graph_table.specs.Sections.{rows_of};
ghost use Rattle.comparison.specs.Letters.{block_letters};
ghost use Rattle.resolution.specs.Asked.{Ready, query_in};
ghost use Rattle.told.specs.Steps.{named_meaning};
ghost use Rattle.accepting.specs.Tests.{end_named, is_settled, is_open, may_await};
ghost use Rattle.accepting.specs.Steps.{has_open};

use block::{ASKSIZE, SIZE, ask_goal, ask_start};
use board::part;
use comparison::label_number;
use graph_table::{OPENS, ROW, open_row};
use resolution::{awaits_of, away_from, pair_followed};

// The number of an end by its byte: 0 for `$`, n + 1 for label n. A letter that is not listed has a
// number that no open row has.
fn end_number(block: &[u64; SIZE], x: u8) -> u64
    ensures answer { end_of result ≡ end_named (block_letters block.now) x }
{
    if x == b'$' {
        return 0;
    }
    label_number(block, x) + 1
}

// Is the pair of this scope and end one of the open rows?
fn is_open(opens: &[u64], at: u64, end: u64) -> bool
    ensures answer { result ≡ has_open at end (rows_of opens.now) }
{
    for row in opens.chunks_exact(ROW) {
        let row = open_row(row, 0);
        if row.at == at && row.end == end {
            return true;
        }
    }
    false
}

// Is the pair open and followed, and so decisive?
fn is_decisive(table: &[u64], block: &[u64; SIZE], ask: &[u64; ASKSIZE], at: u64, end: u64) -> bool
    requires ready { Ready table.now block.now ask.now }
    ensures answer { result ≡ (is_open table.now (record { at = at; end = end_of end }) && followed_at (language (rules_of table.now)) (graph_of table.now) (query_in table.now ask.now) (record { at = at; end = end_of end })) }
{
    if !is_open(part(table, block, OPENS), at, end) {
        return false;
    }
    let goal = ask_goal(ask);
    let start = ask_start(ask);
    let away = away_from(block, goal, start);
    pair_followed(table, block, ask, &away, at, end)
}

// Is nothing awaited, and so the query settled?
fn is_settled(table: &[u64], block: &[u64; SIZE], ask: &[u64; ASKSIZE]) -> bool
    requires ready { Ready table.now block.now ask.now }
    ensures answer { result ≡ is_settled table.now (awaits (language (rules_of table.now)) (graph_of table.now) (query_in table.now ask.now) (opens_of table.now)) }
{
    awaits_of(table, block, ask).is_none()
}

// May it stand under `awaits`: `-` (none) if the query is settled, else any decisive pair?
pub(crate) fn may_await(
    table: &[u64],
    block: &[u64; SIZE],
    ask: &[u64; ASKSIZE],
    a: Option<(u64, u8)>,
) -> bool
    requires ready { Ready table.now block.now ask.now }
    ensures answer { result ≡ may_await table.now (query_in table.now ask.now) (named_meaning a) }
{
    match a {
        None => is_settled(table, block, ask),
        Some((at, x)) => is_decisive(table, block, ask, at, end_number(block, x)),
    }
}
