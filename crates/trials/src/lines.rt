// Lines of a text.
use crate::say;
use text_field::next_line;

// The line from a place on: where its LF stands, and the place after it.
pub fn line_from(text: &[u8], at: usize) {
    match next_line(text, at) {
        Some((end, next)) => {
            say::told(b"line ", end as u64);
            say::told(b" next ", next as u64);
        }
        None => say::word(b"no line"),
    }
    say::line();
}
