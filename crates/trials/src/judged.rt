// A path row judged for a query of a text.
use crate::say;
use judge::{Judged, judge_text};

// Its standing, where `room` records are lent for its steps.
pub fn judging(text: &[u8], query: usize, row: &[u8], room: usize) {
    match judge_text(text, query, row, room).answer {
        Ok(Judged::Visible) => say::word(b"visible"),
        Ok(Judged::Shadowed(n)) => say::counted(b"shadowed", n),
        Ok(Judged::Unreached) => say::word(b"unreached"),
        Err(k) => say::refused(k),
    }
    say::line();
}
