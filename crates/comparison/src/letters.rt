// A letter's number, by the board's letters.
ghost use Rattle.std.specs.Prelude.{◌≡◌};
ghost use Rattle.path_row.specs.Numbering.{label_number};
ghost use Rattle.comparison.specs.Letters.{block_letters};

use block::{SIZE, letter};

// A file has no more labels, so none has this number.
pub const LABELS: u64 = 8;
// What the block has in the place of a letter past the last label's.
const NO_LETTER: u64 = 0;

// The number of a letter among the labels. One that is not listed has the count of the labels and
// its own byte added to it, so each has another.
pub fn label_number(block: &[u64; SIZE], x: u8) -> u64
    ensures answer { result ≡ label_number (block_letters block.now) x }
{
    for l in 0..LABELS {
        let y = letter(block, l);
        if y == NO_LETTER {
            return l + x as u64;
        }
        if y == x as u64 {
            return l;
        }
    }
    LABELS + x as u64
}
