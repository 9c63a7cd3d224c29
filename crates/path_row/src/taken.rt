// A path row's steps as one value. A call takes them from the row's text once; by that value the
// row is judged or compared, and the same value fills the lent table.
ghost use Rattle.std.specs.Prelude.{◌≡◌, get_or, []};
ghost use Rattle.path_row.specs.Form.{steps_in, no_step, steps_taken, steps_at_hand, steps_held};

use crate::form::{MOST_STEPS, Step, first_step, next_step};
use text_field::get_or;

// The steps of a row: the first `count`; behind them stand steps of zeros.
#[derive(Clone, Copy)]
pub struct Steps {
    pub steps: [Step; 63],
    pub count: usize,
}

impl Steps {
    // The steps that stand here: as many as are counted, 63 at most.
    pub fn as_slice(&self) -> &[Step]
        ensures answer { result.now ≡ steps_at_hand self.now }
    {
        &self.steps[..self.count.min(MOST_STEPS)]
    }

    // Step i; past the last one, a step of zeros.
    pub fn get(&self, i: usize) -> Step
        ensures answer { result ≡ get_or (steps_taken self.now) i no_step }
    {
        get_or(self.as_slice(), i, Step { label: 0, scope: 0 })
    }
}

// No steps, as after a refusal.
pub fn no_steps() -> Steps
    ensures answer { result ≡ steps_held [] }
{
    Steps {
        steps: [Step { label: 0, scope: 0 }; MOST_STEPS],
        count: 0,
    }
}

// Takes the steps from a row's text: those that stand behind its start, as far as they are of their
// form.
pub fn steps_of(row: &[u8]) -> Steps
    ensures answer { result ≡ steps_held (steps_in row.now) }
{
    let mut steps = no_steps().steps;
    let mut at = first_step(row);
    for count in 0..MOST_STEPS {
        let Some((step, next)) = next_step(row, at) else {
            return Steps { steps, count };
        };
        steps[count] = step;
        at = next;
    }
    Steps {
        steps,
        count: MOST_STEPS,
    }
}
