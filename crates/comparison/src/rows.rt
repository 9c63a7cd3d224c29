// Two path rows compared by the order in a graph table that was read.
ghost use Rattle.std.specs.Prelude.{◌≡◌, []};
ghost use Rattle.std.specs.declared.result.Result.TheVariants.{Err};
ghost use Rattle.graph_file.specs.File.{WasRead};
ghost use Rattle.path_row.specs.Form.{steps_held};
ghost use Rattle.comparison.specs.Compare.{as_told, told_in, told_of, compare_rows, HandsOut};
ghost use Rattle.comparison.specs.Steps.{steps_compared};

use crate::agree::agreed;
use crate::steps::steps_preferred;
use block::SIZE;
use board::put_board;
use path_row::form::{Step, read_row};
use path_row::taken::{Steps, no_steps, steps_of};
use text_field::Refusal;

// Rows from different starts have no equal steps.
const NO_STEPS: usize = 0;

// Which of two rows is more specific, with the number of steps that they share from the front on.
#[derive(Clone, Copy)]
pub enum Compared {
    First(usize),
    Second(usize),
    Neither(usize),
}

// Two rows compared: the answer, and the steps of each for its table, none after a refusal.
#[derive(Clone, Copy)]
pub struct ComparedRows {
    pub answer: Result<Compared, Refusal>,
    pub first: Steps,
    pub second: Steps,
}

// A refusal hands out no steps.
pub fn refused_rows(refusal: Refusal) -> ComparedRows
    ensures answer { result.answer ≡ Err refusal }
    ensures first { result.first ≡ steps_held [] }
    ensures second { result.second ≡ steps_held [] }
{
    ComparedRows {
        answer: Err(refusal),
        first: no_steps(),
        second: no_steps(),
    }
}

// Which of two rows that start at the scope is more specific, by the board's order and turns? Their
// first `equal` steps are.
fn more_specific(block: &[u64; SIZE], start: u64, a: &[Step], b: &[Step], equal: usize) -> Compared
    ensures answer { told_in result ≡ as_told (steps_compared block.now start a.now b.now) equal }
{
    if steps_preferred(block, start, a, b) {
        return Compared::First(equal);
    }
    if steps_preferred(block, start, b, a) {
        return Compared::Second(equal);
    }
    Compared::Neither(equal)
}

// Which of two rows is more specific, by their starts and their steps. The board is made only where
// the order decides.
fn compare_steps(cells: &[u64], start: u64, other: u64, a: &[Step], b: &[Step]) -> Compared
    requires read { WasRead cells.now }
    ensures answer { told_in result ≡ told_of cells.now start other a.now b.now }
{
    let equal = agreed(a, b);
    if start != other {
        return Compared::Neither(NO_STEPS);
    }
    let mut block = [0u64; SIZE];
    put_board(cells, &mut block);
    more_specific(&block, start, a, b, equal)
}

// Two rows by the order in a graph table that was read, where n records are lent for the steps of a
// and m for those of b.
pub fn compare_rows(cells: &[u64], a: &[u8], b: &[u8], n: usize, m: usize) -> ComparedRows
    requires read { WasRead cells.now }
    ensures answer { HandsOut (compare_rows cells.now a.now b.now n m) a.now b.now result }
{
    let Some((_, start, count)) = read_row(a) else {
        return refused_rows(Refusal::NoPathRow);
    };
    let Some((_, other, more)) = read_row(b) else {
        return refused_rows(Refusal::NoPathRow);
    };
    if n < count || m < more {
        return refused_rows(Refusal::NoRoom);
    }
    let first = steps_of(a);
    let second = steps_of(b);
    let compared = compare_steps(cells, start, other, first.as_slice(), second.as_slice());
    ComparedRows {
        answer: Ok(compared),
        first,
        second,
    }
}
