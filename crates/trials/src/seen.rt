// Who sees a declaration of a text.
use crate::lent::{BYTE, BYTES, front, part};
use crate::listings::shown;
use readers::readers;

// The readers of the declaration in row `place`, in a lent buffer of `room` bytes.
pub fn seeing(text: &[u8], place: usize, room: usize) {
    let mut out = [BYTE; BYTES];
    let a = readers(text, place, front(&mut out, room));
    shown(b"readers", a, part(&out, 0, room));
}
