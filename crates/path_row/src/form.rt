// A path row read: its mark, its start, the step at a place, and how many steps there are.
ghost use Rattle.std.specs.Prelude.{◌≡◌, ℕ, ◌+◌, length, drop};
ghost use Rattle.text_field.specs.Number.{number_placed};
ghost use Rattle.path_row.specs.Form.{most_steps, number_up_to, step_meaning, step_from, steps_of, steps_width};
ghost use Rattle.path_row.specs.Form.{head_meaning, head_here, first_step, row_meaning, row_in_large};

use text_field::{is_capital, read_number};

// A file has 64 scopes at most, so none has a number past 63.
pub const MOST_SCOPE: u64 = 63;
// A path meets no scope twice, so it has at least one step fewer than there are scopes.
pub const MOST_STEPS: usize = 63;
// A mark is a number of 16 bits.
pub const MOST_MARK: u64 = 65535;
// The longest row, of a mark of 5 digits, a space, a start and 63 steps by scopes of 2 digits, has
// 197 bytes. The limit leaves room, and a text past it is not looked at.
pub const MOST_BYTES: usize = 256;

// A step of a path: the label's letter, and the scope that it comes to.
#[repr(C)]
#[derive(Clone, Copy, PartialEq, Eq)]
pub struct Step {
    pub label: u8,
    pub scope: u8,
}

// The number at a place and the place after it, if it is at most `most`.
fn number_up_to(s: &[u8], at: usize, most: u64) -> Option<(u64, usize)>
    ensures answer { result ≡ number_placed at (number_up_to most (drop at s.now)) }
{
    let (v, next) = read_number(s, at)?;
    if most < v {
        return None;
    }
    Some((v, next))
}

// The mark and the start of a row, and the place of its first step.
pub fn read_head(s: &[u8]) -> Option<(u64, u64, usize)>
    ensures answer { head_meaning result ≡ head_here s.now }
{
    let (mark, next) = number_up_to(s, 0, MOST_MARK)?;
    if *s.get(next)? != b' ' {
        return None;
    }
    let (start, at) = number_up_to(s, next + 1, MOST_SCOPE)?;
    Some((mark, start, at))
}

// The place of a row's first step: after its mark, its space and its start. Of a text without
// these, its end.
pub fn first_step(s: &[u8]) -> usize
    ensures answer { result ≡ first_step s.now }
{
    match read_head(s) {
        Some((_, _, first)) => first,
        None => s.len(),
    }
}

// The step at a place, and the place after it. Where there is none the steps have ended; whether
// they may end there is for `read_row` to say.
pub fn next_step(s: &[u8], at: usize) -> Option<(Step, usize)>
    ensures answer { step_meaning result ≡ step_from at s.now }
{
    let label = *s.get(at)?;
    if !is_capital(label) {
        return None;
    }
    let (scope, next) = number_up_to(s, at + 1, MOST_SCOPE)?;
    let step = Step {
        label,
        scope: scope as u8,
    };
    Some((step, next))
}

// How far steps go: how many there are, and the place after them.
#[derive(Clone, Copy)]
pub struct Walked {
    pub count: usize,
    pub at: usize,
}

// The steps from a place on, as many as a path may have.
pub fn walk(s: &[u8], at: usize) -> Walked
    ensures number { result.count ≡ length (steps_of most_steps (drop at s.now)) }
    ensures place { result.at ≡ at + steps_width most_steps (drop at s.now) }
{
    let mut i = at;
    for count in 0..MOST_STEPS {
        let Some((_, next)) = next_step(s, i) else {
            return Walked { count, at: i };
        };
        i = next;
    }
    Walked {
        count: MOST_STEPS,
        at: i,
    }
}

// A path row in the large: its mark, its start, and how many steps it has. Where there is none it
// is refusal 8.
pub fn read_row(s: &[u8]) -> Option<(u64, u64, usize)>
    ensures answer { row_meaning result ≡ row_in_large s.now }
{
    if MOST_BYTES < s.len() {
        return None;
    }
    let (mark, start, first) = read_head(s)?;
    let end = walk(s, first);
    if end.at < s.len() {
        return None;
    }
    Some((mark, start, end.count))
}
