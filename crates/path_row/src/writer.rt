// A path row put together as text.
ghost use Rattle.std.specs.Prelude.{◌≡◌, ◌≤◌, ℕ, true, ◌&&◌, leb, length};
ghost use Rattle.text_field.specs.Bytes.{is_capital};
ghost use Rattle.text_field.specs.Answer.{answer, leaves, answer_of};
ghost use Rattle.text_field.specs.Writing.{Wrote};
ghost use Rattle.path_row.specs.Form.{most_scope, steps_text, row_text, steps_made, row_of, steps_taken};
ghost use Rattle.path_row.specs.Form.{are_steps, is_row, row_outcome, row_written};

use crate::form::{MOST_BYTES, MOST_MARK, MOST_SCOPE, MOST_STEPS, Step};
use crate::taken::{Steps, no_steps};
use crate::text::{put_front, put_step};
use text_field::{Refusal, Writer, get_or, is_capital};

// The text of steps.
fn put_steps(to: &mut Writer, steps: &[Step])
    ensures wrote { Wrote to.old to.new (steps_text steps.now) }
{
    for step in steps {
        put_step(to, step.label, step.scope as u64);
    }
}

// A path row.
fn put_row(to: &mut Writer, mark: u64, start: u64, steps: &[Step])
    ensures wrote { Wrote to.old to.new (row_text (row_of mark start steps.now)) }
{
    put_front(to, mark, start);
    put_steps(to, steps);
}

// Can a step be written: is it a letter A to Z and a scope?
fn is_step(step: Step) -> bool
    ensures answer { result ≡ (is_capital step.label && leb step.scope most_scope) }
{
    is_capital(step.label) && step.scope as u64 <= MOST_SCOPE
}

// Can each of the steps be written?
fn are_steps(steps: &[Step]) -> bool
    ensures answer { result ≡ are_steps steps.now }
{
    steps.iter().all(|&step| is_step(step))
}

// Do the parts make a path row?
fn is_row(mark: u64, start: u64, steps: &[Step]) -> bool
    ensures answer { result ≡ is_row (row_of mark start steps.now) }
{
    mark <= MOST_MARK && start <= MOST_SCOPE && steps.len() <= MOST_STEPS && are_steps(steps)
}

// How many bytes a path row takes: no more than a row may have, so they fit.
fn row_len(mark: u64, start: u64, steps: &[Step]) -> usize
    requires row { is_row (row_of mark start steps.now) ≡ true }
    ensures answer { result ≡ length (row_text (row_of mark start steps.now)) }
{
    let mut text = [0u8; MOST_BYTES];
    let mut to = Writer::new(&mut text);
    put_row(&mut to, mark, start, steps);
    to.end()
}

// A path row written from its mark, its start and its steps. After a refusal the buffer is as it
// was.
fn write_steps(mark: u64, start: u64, steps: &[Step], out: &mut [u8]) -> Result<usize, Refusal>
    ensures answer { answer_of result ≡ answer (row_outcome (row_of mark start steps.now)) (length out.old) }
    ensures memory { out.new ≡ leaves (row_outcome (row_of mark start steps.now)) out.old }
{
    if !is_row(mark, start, steps) {
        return Err(Refusal::NoPathRow);
    }
    let n = row_len(mark, start, steps);
    if out.len() < n {
        return Err(Refusal::NoRoom);
    }
    put_row(&mut Writer::at(out, 0), mark, start, steps);
    Ok(n)
}

// The steps that the first `count` letters and scopes make; past the end of either stands 0.
fn steps_made(count: usize, letters: &[u8], scopes: &[u8]) -> Steps
    requires few { count ≤ 63 }
    ensures answer { steps_taken result ≡ steps_made count letters.now scopes.now }
{
    let mut steps = no_steps().steps;
    for i in 0..count {
        steps[i] = Step {
            label: get_or(letters, i, 0),
            scope: get_or(scopes, i, 0),
        };
    }
    Steps { steps, count }
}

// A path row written from its parts: its mark, its start, and the letters and scopes of its first
// `count` steps. After a refusal the buffer is as it was.
pub fn write_row(
    mark: u64,
    start: u64,
    count: usize,
    letters: &[u8],
    scopes: &[u8],
    out: &mut [u8],
) -> Result<usize, Refusal>
    ensures answer { answer_of result
        ≡ answer (row_written mark start count letters.now scopes.now) (length out.old) }
    ensures memory { out.new
        ≡ leaves (row_written mark start count letters.now scopes.now) out.old }
{
    if MOST_MARK < mark || MOST_SCOPE < start || MOST_STEPS < count {
        return Err(Refusal::NoPathRow);
    }
    let steps = steps_made(count, letters, scopes);
    write_steps(mark, start, steps.as_slice(), out)
}
