// The rows of a listing, each a path row on a line of its own.
ghost use Rattle.told.specs.Steps.{RowTold, RowsSpan};

use path_row::form::read_row;
use text_field::next_line;

// The row whose line stands at a place, if one stands there: where its line ends, and the place
// after its LF.
pub fn row_at(s: &[u8], at: usize) -> Option<(usize, usize)>
    ensures answer { RowTold s.now at result }
{
    let (end, next) = next_line(s, at)?;
    read_row(&s[at..end])?;
    Some((end, next))
}

// How many rows stand one after the other, and the place after them.
#[derive(Clone, Copy)]
pub struct Rows {
    pub count: usize,
    pub next: usize,
}

// The rows from a place on.
pub(crate) fn rows_from(s: &[u8], at: usize) -> Rows
    ensures span { RowsSpan s.now at result.count result.next }
{
    let mut k = at;
    let mut count: usize = 0;
    while let Some((_, next)) = row_at(s, k) {
        k = next;
        count += 1;
    }
    Rows { count, next: k }
}
