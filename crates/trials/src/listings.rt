// Listings and summaries of a text.
use crate::answered::{unwritten, written};
use crate::lent::{BYTE, BYTES, front, part};
use crate::say;
use resolution::{listing, summary};
use text_field::Refusal;

// What was answered, and what the lent bytes hold: a short text is printed whole.
pub fn shown(verb: &[u8], a: Result<usize, Refusal>, lent: &[u8]) {
    match a {
        Ok(n) => {
            written(verb, n, lent);
            say::line();
            say::short(part(lent, 0, n));
        }
        Err(k) => unwritten(k, lent),
    }
}

// A query's listing in a lent buffer of `room` bytes.
pub fn listed(text: &[u8], query: usize, room: usize) {
    let mut out = [BYTE; BYTES];
    let a = listing(text, query, front(&mut out, room));
    shown(b"listed", a, part(&out, 0, room));
}

// The summary in a lent buffer of `room` bytes.
pub fn summed(text: &[u8], room: usize) {
    let mut out = [BYTE; BYTES];
    let a = summary(text, front(&mut out, room));
    shown(b"summed", a, part(&out, 0, room));
}

// The listings of the first queries.
pub fn all_listed(text: &[u8], queries: usize, room: usize) {
    for i in 0..queries {
        listed(text, i, room);
    }
}

// A text's listings and then its summary, as the program prints them.
pub fn whole(text: &[u8], queries: usize, room: usize) {
    all_listed(text, queries, room);
    summed(text, room);
}
