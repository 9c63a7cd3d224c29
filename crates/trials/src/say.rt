// The words of the output.
use text_field::Refusal;

pub fn word(s: &[u8]) {
    io::write_all(1, s);
}

pub fn line() {
    word(b"\n");
}

pub fn title(name: &[u8]) {
    word(name);
    word(b": ");
}

fn number(v: u64) {
    io::print_decimal(1, v);
}

// A number behind the words for it.
pub fn told(words: &[u8], v: u64) {
    word(words);
    number(v);
}

pub fn refused(refusal: Refusal) {
    told(b"refused ", refusal.number());
}

// A word with the number of steps that comes with it.
pub fn counted(name: &[u8], steps: usize) {
    word(name);
    told(b" ", steps as u64);
}

// What was put into the lent memory: how much, and its sum.
pub fn done(verb: &[u8], n: usize, sum: u64) {
    word(verb);
    told(b" ", n as u64);
    told(b" sum ", sum);
}

// After an answer: is the lent memory unchanged past the output?
pub fn rest(kept: bool) {
    if kept {
        word(b", rest kept");
    } else {
        word(b", rest CHANGED");
    }
}

// After a refusal: is all of it unchanged?
pub fn all(kept: bool) {
    if kept {
        word(b", all kept\n");
    } else {
        word(b", CHANGED\n");
    }
}

// Does the other direction give back what went in?
pub fn back(same: bool) {
    if same {
        word(b", back the same\n");
    } else {
        word(b", back ANOTHER\n");
    }
}

pub fn name(s: &[u8]) {
    word(b"seeks <");
    word(s);
    word(b">\n");
}

fn byte(x: u8) {
    let s = [x];
    word(&s);
}

// Where a row stands.
pub fn place(at: usize) {
    told(b" ", at as u64);
}

// A path row in the large.
pub fn row(mark: u64, start: u64, count: usize) {
    told(b"mark ", mark);
    told(b" start ", start);
    told(b" steps ", count as u64);
}

pub fn step(label: u8, scope: u8) {
    word(b" ");
    byte(label);
    number(scope as u64);
}

// Does no step come after the last one?
pub fn past(none: bool) {
    if !none {
        word(b" and MORE");
    }
}

// How many records the steps of two rows fill.
pub fn records(n: usize, m: usize) {
    told(b", records ", n as u64);
    told(b" and ", m as u64);
    line();
}

// How many lawful beginnings there are, beside a listing.
pub fn beside(n: u64) {
    told(b"number ", n);
    line();
}

// A text of at most 4,096 bytes as it is.
pub fn short(s: &[u8]) {
    if s.len() <= 4096 {
        word(s);
    }
}

pub fn unknown() {
    word(b"no such case\n");
}
