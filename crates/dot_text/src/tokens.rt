// The tokens of a drawing. Each is looked for from a place on, after any blanks.
ghost use Rattle.std.specs.Prelude.{◌≡◌, drop};
ghost use Rattle.dot_text.specs.Tokens.{is_blank};
ghost use Rattle.dot_text.specs.Reading.{past_blanks, past_bytes, number_of, fixed_next, number_next, quoted_here, quoted_next};
ghost use Rattle.dot_text.specs.Answers.{rest_of};

use text_field::{is_capital, read_number};

// The bytes of a quoted letter.
const QUOTED: usize = 3;

// Is it a space, a tab or an LF?
#[tactic(auto, unfolding(crate::specs::Tokens::is_blank))]
pub fn is_blank(b: u8) -> bool
    ensures answer { result ≡ is_blank b }
{
    matches!(b, b' ' | b'\t' | b'\n')
}

// The place of the first byte from `at` on that is no blank.
#[tactic(auto, using(crate::proofs::Steps::blank_steps))]
pub fn past_blanks(text: &[u8], at: usize) -> usize
    ensures rest { drop result text.now ≡ past_blanks (drop at text.now) }
{
    for i in at..text.len() {
        if !is_blank(text[i]) {
            return i;
        }
    }
    text.len()
}

// The text from a place on; past its end, nothing.
#[tactic(auto, using(crate::proofs::Steps::cut_whole))]
fn text_from(text: &[u8], at: usize) -> &[u8]
    ensures rest { result.now ≡ drop at text.now }
{
    &text[at.min(text.len())..]
}

// The place after the bytes, if the text goes on with them at a place.
pub fn past_bytes(text: &[u8], at: usize, bytes: &[u8]) -> Option<usize>
    ensures answer { rest_of result text.now ≡ past_bytes bytes.now (drop at text.now) }
{
    let left = text_from(text, at).strip_prefix(bytes)?;
    Some(text.len() - left.len())
}

// The place after the token of these bytes.
pub fn fixed(text: &[u8], at: usize, bytes: &[u8]) -> Option<usize>
    ensures answer { rest_of result text.now ≡ fixed_next bytes.now (drop at text.now) }
{
    past_bytes(text, past_blanks(text, at), bytes)
}

// The next token, if it is a number.
pub fn number(text: &[u8], at: usize) -> Option<(u64, usize)>
    ensures answer { number_of result text.now ≡ number_next (drop at text.now) }
{
    read_number(text, past_blanks(text, at))
}

// The letter A to Z in quotes at a place.
#[tactic(auto, using(crate::proofs::Steps::quoted_steps), unfolding(crate::specs::Reading::number_of))]
fn quoted_at(text: &[u8], at: usize) -> Option<(u8, usize)>
    ensures answer { number_of result text.now ≡ quoted_here (drop at text.now) }
{
    match *text_from(text, at) {
        [b'"', x, b'"', ..] if is_capital(x) => Some((x, at + QUOTED)),
        _ => None,
    }
}

// The next token, if it is a letter in quotes.
pub fn quoted(text: &[u8], at: usize) -> Option<(u8, usize)>
    ensures answer { number_of result text.now ≡ quoted_next (drop at text.now) }
{
    quoted_at(text, past_blanks(text, at))
}
