// A path row judged for a query of a graph table that was read, and of a text.
ghost use Rattle.std.specs.Prelude.{◌≡◌, []};
ghost use Rattle.std.specs.declared.result.Result.TheVariants.{Err};
ghost use Rattle.graph_file.specs.File.{WasRead};
ghost use Rattle.board.specs.Made.{Made};
ghost use Rattle.path_row.specs.Form.{steps_held};
ghost use Rattle.judge.specs.Judge.{judge_of, judge_answer, HandsOut};

use crate::standing::{Judged, standing};
use block::SIZE;
use board::{part, put_board};
use graph_file::with_graph;
use graph_table::{QUERIES, ROW, query_row, row_count};
use path_row::form::read_row;
use path_row::taken::{Steps, no_steps, steps_of};
use text_field::Refusal;

// A row judged: the answer, and the row's steps for its table, none after a refusal.
#[derive(Clone, Copy)]
pub struct JudgedRow {
    pub answer: Result<Judged, Refusal>,
    pub steps: Steps,
}

// A refusal hands out no steps.
fn refused_row(refusal: Refusal) -> JudgedRow
    ensures answer { result.answer ≡ Err refusal }
    ensures steps { result.steps ≡ steps_held [] }
{
    JudgedRow {
        answer: Err(refusal),
        steps: no_steps(),
    }
}

// The standing of a row for a query of a table that was read, by the table's board, where `room`
// records are lent for its steps: refusals 7, 8, 9.
fn judge_on(table: &[u64], block: &[u64; SIZE], query: usize, row: &[u8], room: usize) -> JudgedRow
    requires read { WasRead table.now }
    requires made { Made table.now block.now }
    ensures answer { HandsOut (judge_of table.now query row.now room) row.now result }
{
    let queries = part(table, block, QUERIES);
    if row_count(queries) <= query {
        return refused_row(Refusal::NoQuery);
    }
    let Some((mark, from, count)) = read_row(row) else {
        return refused_row(Refusal::NoPathRow);
    };
    if room < count {
        return refused_row(Refusal::NoRoom);
    }
    let sought = query_row(queries, ROW * query);
    let steps = steps_of(row);
    let judged = standing(table, block, sought, mark, from, steps.as_slice());
    JudgedRow {
        answer: Ok(judged),
        steps,
    }
}

// The standing of a row for a query of a table that was read, where `room` records are lent for its
// steps: refusals 7, 8, 9.
pub fn judge_of(table: &[u64], query: usize, row: &[u8], room: usize) -> JudgedRow
    requires read { WasRead table.now }
    ensures answer { HandsOut (judge_of table.now query row.now room) row.now result }
{
    let mut block = [0u64; SIZE];
    put_board(table, &mut block);
    judge_on(table, &block, query, row, room)
}

// The standing of a row for a query of a text: refusals 1 to 6, then those of `judge_of`.
pub fn judge_text(text: &[u8], query: usize, row: &[u8], room: usize) -> JudgedRow
    ensures answer { HandsOut (judge_answer text.now query row.now room) row.now result }
{
    match with_graph(text, &mut |table: &[u64]| judge_of(table, query, row, room)) {
        Ok(judged) => judged,
        Err(refusal) => refused_row(refusal),
    }
}
