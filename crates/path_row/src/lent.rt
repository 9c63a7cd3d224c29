// A step table is the caller's memory. Proofs about such memory are long, so `fill` only copies.
ghost use Rattle.std.specs.Prelude.{◌≡◌, ◌≤◌, length};
ghost use Rattle.path_row.specs.Form.{steps_taken};
ghost use Rattle.path_row.specs.Lent.{overlaid};

use crate::form::Step;
use crate::taken::Steps;

// Puts the steps that were taken from a row into the first records of a table: those at hand, and
// steps of zeros up to the count. The records behind them stay as they were.
pub fn fill<'o>(out: &'o mut [Step], steps: Steps)
    requires room { steps.count ≤ length out.old }
    ensures memory { out.new ≡ overlaid (steps_taken steps) out.old }
{
    let at_hand = steps.as_slice();
    out[..at_hand.len()].copy_from_slice(at_hand);
    for i in at_hand.len()..steps.count {
        out[i] = steps.get(i);
    }
}
