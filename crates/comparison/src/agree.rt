// How far the steps of two rows agree.
ghost use Rattle.std.specs.Prelude.{◌≡◌};
ghost use Rattle.comparison.specs.Promises.{agree_steps};

use path_row::form::Step;

// How many steps of two rows are equal before the first difference? By letter and scope: of steps
// that leave one scope the turns are then equal too.
pub fn agreed(a: &[Step], b: &[Step]) -> usize
    ensures answer { result ≡ agree_steps a.now b.now }
{
    let mut pairs = a.iter().zip(b);
    pairs
        .position(|(s, t)| *s != *t)
        .unwrap_or(a.len().min(b.len()))
}
