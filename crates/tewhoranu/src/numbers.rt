// The number of each answer.
ghost use Rattle.std.specs.Prelude.{◌<◌, ◌≡◌};
ghost use Rattle.text_field.specs.Answer.{answer_of};
ghost use Rattle.comparison.specs.Compare.{meaning};
ghost use Rattle.judge.specs.Judge.{meaning as standing};
ghost use Rattle.renumbering.specs.Renumbering.{numbered_of};
ghost use Rattle.tewhoranu.specs.Numbers.{case_number, steps_number, written, compared, judged, listed_left, Sized};

use comparison::Compared;
use judge::Judged;
use text_field::Refusal;

// The first number that is no refusal. It is also how far apart two cases are, so that the steps of
// a path, 63 at most, have room behind each.
const ANSWERS: u64 = 64;

// The steps that come with a standing that carries none.
const NO_STEPS: usize = 0;

// A refusal by its number, what was written by how much it is.
pub fn written_number(a: Result<usize, Refusal>) -> u64
    requires sized { Sized (answer_of a) }
    ensures answer { result ≡ written (answer_of a) }
{
    match a {
        Ok(n) => ANSWERS + n as u64,
        Err(refusal) => refusal.number(),
    }
}

// A case and the steps that come with it.
fn case_number(case: u64, steps: usize) -> u64
    requires few_cases { case < 64 }
    ensures answer { result ≡ case_number case (steps_number steps) }
{
    ANSWERS * (1 + case) + steps as u64 % ANSWERS
}

// A comparison by its number.
pub fn compared_number(c: Result<Compared, Refusal>) -> u64
    ensures answer { result ≡ compared (meaning c) }
{
    match c {
        Ok(Compared::First(n)) => case_number(0, n),
        Ok(Compared::Second(n)) => case_number(1, n),
        Ok(Compared::Neither(n)) => case_number(2, n),
        Err(refusal) => refusal.number(),
    }
}

// A standing by its number.
pub fn judged_number(j: Result<Judged, Refusal>) -> u64
    ensures answer { result ≡ judged (standing j) }
{
    match j {
        Ok(Judged::Visible) => case_number(0, NO_STEPS),
        Ok(Judged::Shadowed(n)) => case_number(1, n),
        Ok(Judged::Unreached) => case_number(2, NO_STEPS),
        Err(refusal) => refusal.number(),
    }
}

// How many bytes the list has; after a refusal the number that was held there.
pub fn list_bytes(a: Result<(usize, usize), Refusal>, held: u64) -> u64
    ensures answer { result ≡ listed_left (numbered_of a) held }
{
    match a {
        Ok((_, list)) => list as u64,
        Err(_) => held,
    }
}
