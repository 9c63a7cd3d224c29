// The cases as they stand in the input.
use crate::lent::put;
use text_field::get_or;

// The byte at a place, past the end an end of line.
fn byte_at(s: &[u8], i: usize) -> u8 {
    get_or(s, i, b'\n')
}

// The digit that a byte stands for, 16 for any other byte.
fn digit(x: u8) -> u8 {
    match x {
        b'0'..=b'9' => x - b'0',
        b'a'..=b'f' => x - b'a' + 10,
        _ => 16,
    }
}

// The number with one more digit; of a number too long the last sixteen digits count.
fn with_digit(v: u64, d: u64) -> u64 {
    (v % 1152921504606846976) * 16 + d % 16
}

// The place after the digits that stand at a place.
fn digits_end(s: &[u8], at: usize) -> usize {
    for i in at..s.len() {
        if digit(s[i]) == 16 {
            return i;
        }
    }
    at.max(s.len())
}

// Their number.
fn number(s: &[u8], at: usize) -> u64 {
    let mut v = 0;
    for i in at..s.len() {
        let d = digit(s[i]);
        if d == 16 {
            return v;
        }
        v = with_digit(v, u64::from(d));
    }
    v
}

// The line above a case, `KIND WIDTH KEEP LENGTH TEXT ROW NUMBER ROOM`, numbers in hexadecimal: the
// title's width; how many bytes stay of the case before, and how many come behind them; how many of
// them all are the text and how many the first row; a number, and the room that is lent.
#[derive(Clone, Copy)]
pub struct Head {
    pub kind: u8,
    pub title: usize,
    pub keep: usize,
    pub more: usize,
    pub text: usize,
    pub row: usize,
    pub number: usize,
    pub room: usize,
}

fn size(s: &[u8], at: usize) -> usize {
    number(s, at) as usize
}

pub fn head_of(line: &[u8]) -> Head {
    Head {
        kind: byte_at(line, 0),
        title: size(line, 2),
        keep: size(line, 5),
        more: size(line, 11),
        text: size(line, 17),
        row: size(line, 23),
        number: size(line, 27),
        room: size(line, 44),
    }
}

// The next n bytes of the input and the LF behind them put at a place: was there room for them, and
// did all come?
pub fn read_part(space: &mut [u8], at: usize, n: usize) -> bool {
    let size = n.saturating_add(1);
    if space.len() < at || space.len() - at < size {
        return false;
    }
    io::read_full(0, &mut space[at..at + size]) == size
}

// The numbers of a body, each followed by one byte, put into the table; how many there are.
pub fn table_of(body: &[u8], table: &mut [u64]) -> usize {
    let mut n = 0;
    let mut i = 0;
    while i < body.len() {
        let next = digits_end(body, i).saturating_add(1);
        if next <= i {
            return n;
        }
        put(table, n, number(body, i));
        n = n.saturating_add(1);
        i = next;
    }
    n
}
