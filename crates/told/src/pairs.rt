// What stands under `awaits`.
ghost use Rattle.std.specs.Prelude.{◌≡◌, drop};
ghost use Rattle.path_row.specs.Form.{most_scope, number_up_to};
ghost use Rattle.told.specs.Delivered.{is_end};
ghost use Rattle.told.specs.Apart.{end_by, pair_by, awaits_here};
ghost use Rattle.told.specs.Steps.{awaits_meaning};

use crate::places::past;
use path_row::form::MOST_SCOPE;
use text_field::{is_capital, read_number};

// May the byte be an end: `$` or a letter A to Z?
fn is_end(x: u8) -> bool
    ensures answer { result ≡ is_end x }
{
    x == b'$' || is_capital(x)
}

// The pair of a scope and the end at a place, and the place after it.
fn end_after(s: &[u8], scope: u64, at: usize) -> Option<(Option<(u64, u8)>, usize)>
    ensures answer { awaits_meaning s.now result ≡ end_by scope (drop at s.now) }
{
    let x = *s.get(at)?;
    if !is_end(x) {
        return None;
    }
    Some((Some((scope, x)), at + 1))
}

// The pair at a place, and the place after it.
fn read_pair(s: &[u8], at: usize) -> Option<(Option<(u64, u8)>, usize)>
    ensures answer { awaits_meaning s.now result ≡ pair_by (number_up_to most_scope (drop at s.now)) (drop at s.now) }
{
    let (scope, next) = read_number(s, at)?;
    if MOST_SCOPE < scope {
        return None;
    }
    end_after(s, scope, next)
}

// `-` (none) or a pair, a scope and the byte of an end, at a place; and the place after it.
pub(crate) fn read_awaits(s: &[u8], at: usize) -> Option<(Option<(u64, u8)>, usize)>
    ensures answer { awaits_meaning s.now result ≡ awaits_here (drop at s.now) }
{
    match past(s, at, b"-") {
        Some(next) => Some((None, next)),
        None => read_pair(s, at),
    }
}
