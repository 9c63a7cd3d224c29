// The edges put into the block, scope after scope: each scope's rows are found by the one look
// through edge rows.
ghost use Rattle.std.specs.Prelude.{◌≡◌, ◌+◌, ◌≤◌, length};
ghost use Rattle.graph_table.specs.Rows.{hop_at};
ghost use Rattle.board.specs.Edges.{compact, ScopePut, EdgesPut};

use block::{EDGE, FIRST, SIZE, TURN_UNIT, packed_edge};
use graph_table::{ROW, edge_row, next_row};

// How many edges there is room for.
const ROOM: usize = 512;

// How many edges are put, the place behind the rows that were looked through, and a number that no
// edge's cell is above.
#[derive(Clone, Copy)]
pub struct Put {
    pub edges: usize,
    pub place: usize,
    pub top: u64,
}

// The hop of the row at place p, as a cell of the block.
fn hop_cell(rows: &[u64], p: usize) -> u64
    requires whole { p + 6 ≤ length rows.now }
    ensures answer { result ≡ compact (hop_at rows.now p) }
{
    let row = edge_row(rows, p);
    packed_edge(row.turn, row.label, row.to)
}

// Puts the hops of scope s behind those that are put, as many as there is room for, from its rows
// behind those that were looked through.
fn put_scope(rows: &[u64], s: u64, put: Put, block: &mut [u64; SIZE]) -> Put
    ensures put { ScopePut rows.now s put block.old block.new result }
{
    let mut now = put;
    while now.edges < ROOM {
        let found = next_row(rows, s, now.place);
        if rows.len() <= found {
            break;
        }
        let cell = hop_cell(rows, found);
        block[EDGE + now.edges] = cell;
        now = Put {
            edges: now.edges + 1,
            place: found + ROW,
            top: now.top.max(cell),
        };
    }
    now
}

// Fills the parts of the block for edges, and gives a turn that no edge's is above. In rows that
// ascend each is looked at once.
pub fn put_edges(rows: &[u64], block: &mut [u64; SIZE]) -> u64
    ensures put { EdgesPut rows.now block.old block.new result }
{
    block[FIRST] = 0;
    let mut put = Put {
        edges: 0,
        place: 0,
        top: 0,
    };
    for s in 0..64 {
        put = put_scope(rows, s as u64, put, block);
        block[FIRST + s + 1] = put.edges as u64;
    }
    put.top / TURN_UNIT
}
