// Reads and writes that any place will do for, and sums that cannot overflow.

// A sum that stops at the largest number.
pub fn plus(a: usize, b: usize) -> usize {
    a.saturating_add(b)
}

// A difference that stops at 0.
pub fn minus(a: usize, b: usize) -> usize {
    a.saturating_sub(b)
}

fn narrow(x: usize) -> u8 {
    (x % 256) as u8
}

// The number at a place, 0 past the end.
pub fn at(s: &[u8], i: usize) -> usize {
    s.get(i).copied().map_or(0, usize::from)
}

pub fn set(s: &mut [u8], i: usize, x: usize) {
    if i < s.len() {
        s[i] = narrow(x);
    }
}

// The part between two places; the empty part where there is none.
pub fn part(s: &[u8], from: usize, to: usize) -> &[u8] {
    if to < from || s.len() < to {
        return &s[..0];
    }
    &s[from..to]
}

// In a text of several words a bar stands between each and the next.
const BAR: usize = 124;

// How many words are still to be passed over, behind a byte.
fn words_left(left: usize, x: usize) -> usize {
    if x == BAR { minus(left, 1) } else { left }
}

// Where word k of the text begins; its end if it has no such word.
fn word_start(s: &[u8], k: usize) -> usize {
    let mut left = k;
    for i in 0..s.len() {
        if left == 0 {
            return i;
        }
        left = words_left(left, at(s, i));
    }
    s.len()
}

// Where the word that begins at a place ends.
fn word_end(s: &[u8], from: usize) -> usize {
    for i in from..s.len() {
        if at(s, i) == BAR {
            return i;
        }
    }
    from.max(s.len())
}

// Word k of a text, the empty part if it has no such word.
pub fn word(s: &[u8], k: usize) -> &[u8] {
    let from = word_start(s, k);
    part(s, from, word_end(s, from))
}

// One byte where there is room, and the next place. A place past the end says that something is
// lost. (No Writer: the enumerator shares no code with what it is held against.)
pub fn put(out: &mut [u8], n: usize, x: usize) -> usize {
    set(out, n, x);
    plus(n, 1)
}

pub fn put_all(out: &mut [u8], n: usize, s: &[u8]) -> usize {
    let mut m = n;
    for i in 0..s.len() {
        m = put(out, m, at(s, i));
    }
    m
}
