// The block filled from a graph table: the rules' tables, the graph's, and the hints.
ghost use Rattle.std.specs.Prelude.{◌≡◌};
ghost use Rattle.board.specs.Made.{Starts, RulesPut, GraphPut, Made};

use crate::automaton::{accepting, states_of, transition_table, usable_table};
use crate::edges::put_edges;
use crate::hints::put_hints;
use crate::letters::{letter_table, value_of};
use crate::order::better_table;
use crate::sections::{PLACES, declared_table, rows_at, starts};
use block::{
    ACCEPT, BETTER, DECL, DELTA, FIRST, LETTER, SCOPES, SIZE, START, STATES, TURN, USABLE,
};
use graph_table::{ACCEPTS, COUNT, DECLARATIONS, EDGES, LABELS, PAIRS, TRANSITIONS};

// The automaton, the order, the letters and the number of scopes. Which ends are usable, and which
// states are looked at, is read of the automaton's cells once these are put.
fn put_rules(table: &[u64], at: &[u64; PLACES], block: &mut [u64; SIZE])
    requires places { Starts table.now at.now }
    ensures put { RulesPut table.now block.new }
{
    let delta = transition_table(rows_at(table, at, TRANSITIONS));
    block[DELTA..BETTER].copy_from_slice(&delta);
    let better = better_table(rows_at(table, at, PAIRS));
    block[BETTER..ACCEPT].copy_from_slice(&better);
    block[ACCEPT] = accepting(rows_at(table, at, ACCEPTS));
    block[SCOPES] = value_of(rows_at(table, at, COUNT), 0);
    let usable = usable_table(block);
    block[USABLE..LETTER].copy_from_slice(&usable);
    let letters = letter_table(rows_at(table, at, LABELS));
    block[LETTER..START].copy_from_slice(&letters);
    block[STATES] = states_of(block);
}

// Where the sections, the edges and the declarations stand.
fn put_graph(table: &[u64], at: &[u64; PLACES], block: &mut [u64; SIZE])
    requires places { Starts table.now at.now }
    ensures put { GraphPut table.now block.old block.new }
{
    block[START..FIRST].copy_from_slice(at);
    let turn = put_edges(rows_at(table, at, EDGES), block);
    let from = at[DECLARATIONS] as usize;
    let declared = declared_table(rows_at(table, at, DECLARATIONS), from);
    block[DECL..STATES].copy_from_slice(&declared);
    block[TURN] = turn;
}

// Fills the block from the graph table, whatever stood in it; if it was not cleared, the hints are
// wrong and cost time. Left open are the hints, which bounds stand in `STATES` and `TURN`, at which
// numbers the edges stand, and what cells and bits past a table's last entry hold: time depends on
// the first two, and whatever is read of the block is the same for all of them.
pub fn put_board(table: &[u64], block: &mut [u64; SIZE])
    ensures made { Made table.now block.new }
{
    let at = starts(table);
    put_rules(table, &at, block);
    put_graph(table, &at, block);
    put_hints(
        rows_at(table, &at, TRANSITIONS),
        rows_at(table, &at, EDGES),
        block,
    );
}
