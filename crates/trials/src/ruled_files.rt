// A text with the path rules of an expression.
use crate::lent::{BYTE, BYTES, front, part};
use crate::listings::shown;
use ruled::rules;

// The rules of an expression in place of the text's own, in a lent buffer of `room` bytes.
pub fn ruling(text: &[u8], expression: &[u8], room: usize) {
    let mut out = [BYTE; BYTES];
    let a = rules(text, expression, front(&mut out, room));
    shown(b"ruled", a, part(&out, 0, room));
}
