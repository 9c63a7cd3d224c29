// A text drawn in the DOT language, and a drawing put into a text.
use crate::answered::{unwritten, written};
use crate::lent::{BYTE, BYTES, front, part};
use crate::say;
use dot::dot;
use text_field::Refusal;
use undot::undot;

// Does a drawing put into a text give this very text, in a buffer of its length? No gym file is
// longer than the buffer here.
fn gives(text: &[u8], drawing: &[u8]) -> bool {
    let mut again = [0u8; 32768];
    let a = undot(text, drawing, front(&mut again, text.len()));
    let Ok(n) = a else {
        return false;
    };
    check::same(part(&again, 0, n), text)
}

// What drawing a text answered, and what the lent bytes hold: a short drawing is printed whole.
fn drawn(a: Result<usize, Refusal>, text: &[u8], lent: &[u8]) {
    match a {
        Ok(n) => {
            written(b"drawn", n, lent);
            say::back(gives(text, part(lent, 0, n)));
            say::short(part(lent, 0, n));
        }
        Err(k) => unwritten(k, lent),
    }
}

// A text drawn in a lent buffer of `room` bytes, and the drawing put into that text.
pub fn drawing(text: &[u8], room: usize) {
    let mut out = [BYTE; BYTES];
    let a = dot(text, front(&mut out, room));
    drawn(a, text, part(&out, 0, room));
}

// What putting a drawing into a text answered, and what the lent bytes hold.
fn taken(a: Result<usize, Refusal>, lent: &[u8]) {
    match a {
        Ok(n) => {
            written(b"taken", n, lent);
            say::line();
        }
        Err(k) => unwritten(k, lent),
    }
}

// A drawing put into a text, in a lent buffer of `room` bytes.
pub fn taking(text: &[u8], drawing: &[u8], room: usize) {
    let mut out = [BYTE; BYTES];
    let a = undot(text, drawing, front(&mut out, room));
    taken(a, part(&out, 0, room));
}
