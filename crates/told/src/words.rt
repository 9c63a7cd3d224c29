// The word under `found`.
ghost use Rattle.std.specs.Prelude.{◌≡◌, drop};
ghost use Rattle.follow.specs.Text.{found_text};
ghost use Rattle.resolution.specs.Asked.{found_meaning};
ghost use Rattle.told.specs.Apart.{word_here, found_here};
ghost use Rattle.told.specs.Steps.{word_meaning};

use crate::places::past;
use resolution::Found;

// One of the three words, if it stands at the place, and the place after it.
fn read_word(s: &[u8], at: usize, word: &[u8], found: Found) -> Option<(Found, usize)>
    requires word { word.now ≡ found_text (found_meaning found) }
    ensures answer { word_meaning s.now result ≡ word_here (found_meaning found) (drop at s.now) }
{
    Some((found, past(s, at, word)?))
}

// The word at a place, `none`, `one` or `several`, and the place after it.
pub(crate) fn read_found(s: &[u8], at: usize) -> Option<(Found, usize)>
    ensures answer { word_meaning s.now result ≡ found_here (drop at s.now) }
{
    read_word(s, at, b"none", Found::None)
        .or_else(|| read_word(s, at, b"one", Found::One))
        .or_else(|| read_word(s, at, b"several", Found::Several))
}
