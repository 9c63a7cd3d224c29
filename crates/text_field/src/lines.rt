// The lines of a text.
ghost use Rattle.std.specs.Prelude.{◌≡◌, drop};
ghost use Rattle.text_field.specs.Lines.{line_here, line_placed};

// The line that starts at a place of the text: the place of its LF, and the place after it. Without
// an LF there is no line, and past the end there is none.
pub fn next_line(s: &[u8], at: usize) -> Option<(usize, usize)>
    ensures answer { result ≡ line_placed at (line_here (drop at s.now)) }
{
    let end = at + s.get(at..)?.iter().position(|x| *x == b'\n')?;
    Some((end, end + 1))
}
