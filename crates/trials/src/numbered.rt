// A text's scopes numbered for storage, and the way back by a list.
use crate::answered::unwritten;
use crate::lent::{BYTE, BYTES, front, kept, part};
use crate::listings::shown;
use crate::say;
use renumbering::{back, renumber};
use text_field::Refusal;

// The most bytes that a case lends for a list.
const LIST_BYTES: usize = 4096;

// Does the way back from a file and a list give this very text, in a buffer of its length? No gym
// file is longer than the buffer here.
fn goes_back(text: &[u8], file: &[u8], list: &[u8]) -> bool {
    let mut again = [0u8; 32768];
    let a = back(file, list, front(&mut again, text.len()));
    let Ok(n) = a else {
        return false;
    };
    check::same(part(&again, 0, n), text)
}

// What was answered, and what the bytes lent for the file and for the list hold.
fn renumbered(a: Result<(usize, usize), Refusal>, text: &[u8], file: &[u8], list: &[u8]) {
    match a {
        Ok((n, m)) => {
            shown(b"renumbered", Ok(n), file);
            shown(b"list", Ok(m), list);
            say::word(b"both");
            say::back(goes_back(text, part(file, 0, n), part(list, 0, m)));
        }
        Err(k) => {
            unwritten(k, file);
            say::word(b"list");
            say::all(kept(list, 0, BYTE));
        }
    }
}

// A text renumbered into lent buffers of `room` bytes for the file and `lines` for the list, and
// back.
pub fn renumbering(text: &[u8], room: usize, lines: usize) {
    let mut out = [BYTE; BYTES];
    let mut list = [BYTE; LIST_BYTES];
    let a = renumber(text, front(&mut out, room), front(&mut list, lines));
    renumbered(a, text, part(&out, 0, room), part(&list, 0, lines));
}

// A text that goes back by a list, in a lent buffer of `room` bytes.
pub fn going_back(text: &[u8], was: &[u8], room: usize) {
    let mut out = [BYTE; BYTES];
    let a = back(text, was, front(&mut out, room));
    shown(b"back", a, part(&out, 0, room));
}
