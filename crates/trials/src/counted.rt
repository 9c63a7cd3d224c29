// The lawful beginnings that a query follows: their number alone, and beside its listing.
use crate::lent::{BYTE, BYTES, front, part};
use crate::listings::shown;
use crate::say;
use beginnings::{count, listing_counted};

// What the lent number holds before a call: more than any count.
const UNSAID: u64 = 2000000000;

// The number alone.
pub fn counting(text: &[u8], query: usize) {
    match count(text, query) {
        Ok(n) => say::told(b"count ", n),
        Err(k) => say::refused(k),
    }
    say::line();
}

// A query's listing in a lent buffer of `room` bytes, and the number beside it.
pub fn followed(text: &[u8], query: usize, room: usize) {
    let mut out = [BYTE; BYTES];
    let mut number = UNSAID;
    let a = listing_counted(text, query, front(&mut out, room), &mut number);
    shown(b"listed", a, part(&out, 0, room));
    if number == UNSAID {
        return say::word(b"number kept\n");
    }
    say::beside(number)
}
