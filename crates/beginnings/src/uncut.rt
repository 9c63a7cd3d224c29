// Where no step can be cut: the name is declared nowhere, or nothing is preferred to a step.
ghost use Rattle.std.specs.Prelude.{◌≡◌, true, false, ℕ};
ghost use Rattle.block.specs.Block.{Bounds, pair_flag};
ghost use Rattle.block.specs.Ask.{ask_goal};
ghost use Rattle.beginnings.specs.Steps.{Uncut};

use block::{ASKSIZE, BETTER, SIZE, ask_goal, most_turn};

// Is no end preferred to another by an order pair?
fn is_unordered(block: &[u64; SIZE]) -> bool
    ensures none { result ≡ true → (a c : ℕ) → pair_flag block.now a c ≡ false }
{
    block[BETTER..BETTER + 9].iter().all(|x| x % 512 == 0)
}

// Is it sure that no step is cut?
pub fn is_uncut(block: &[u64; SIZE], ask: &[u64; ASKSIZE]) -> bool
    requires bounds { Bounds block.now }
    ensures uncut { result ≡ true → Uncut block.now (ask_goal ask.now) }
{
    if ask_goal(ask) == 0 {
        return true;
    }
    most_turn(block) == 0 && is_unordered(block)
}
