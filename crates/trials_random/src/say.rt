// What the run counts, by place in the sequence in which it is printed, and what it prints.
use crate::enumerator::cells::word;

pub const GYMS: usize = 0;

pub const QUERIES: usize = 1;

pub const PATHS: usize = 2;

pub const ENTRIES: usize = 3;

// None, one and several found.
pub const FOUND: usize = 4;

pub const SETTLED: usize = 7;

pub const END: usize = 8;

pub const LABEL: usize = 9;

pub const LEFT_OUT: usize = 10;

pub const DIFFERENCES: usize = 11;

// How many there are.
pub const COUNTS: usize = 12;

// The differences that are shown in full.
const SHOWN: u64 = 3;

fn count(counts: &[u64], i: usize) -> u64 {
    counts.get(i).copied().unwrap_or(0)
}

fn keep(counts: &mut [u64], i: usize, x: u64) {
    if i < counts.len() {
        counts[i] = x;
    }
}

pub fn add(counts: &mut [u64], i: usize, n: usize) {
    let x = count(counts, i);
    keep(counts, i, x.saturating_add(n as u64));
}

fn print(s: &[u8]) {
    io::write_all(1, s);
}

// A difference is counted, and the first ones are shown.
pub fn difference(counts: &mut [u64], text: &[u8], due: &[u8], got: &[u8]) {
    add(counts, DIFFERENCES, 1);
    if SHOWN < count(counts, DIFFERENCES) {
        return;
    }
    print(b"DIFFERENCE in the gym\n");
    print(text);
    print(b"due:\n");
    print(due);
    print(b"got:\n");
    print(got);
}

// What the library gave, held to what is due.
pub fn compare(counts: &mut [u64], text: &[u8], due: &[u8], got: &[u8]) {
    if check::same(due, got) {
        return;
    }
    difference(counts, text, due, got);
}

fn print_gyms_name(i: usize) {
    print(word(b"gyms |listings compared |reached paths |entries ", i));
}

fn print_found_name(i: usize) {
    print(word(b"found none |found one |found several ", i));
}

fn print_awaited_name(i: usize) {
    print(word(b"settled |awaiting the end mark |awaiting a label ", i));
}

fn print_last_name(i: usize) {
    print(word(b"left out, too many paths |differences ", i));
}

// What is counted at a place.
fn print_name(i: usize) {
    if i < FOUND {
        return print_gyms_name(i);
    }
    if i < SETTLED {
        return print_found_name(i - FOUND);
    }
    if i < LEFT_OUT {
        return print_awaited_name(i - SETTLED);
    }
    print_last_name(i - LEFT_OUT)
}

fn line(counts: &[u64], i: usize) {
    print_name(i);
    io::print_decimal(1, count(counts, i));
    print(b"\n");
}

pub fn all(counts: &[u64]) {
    for i in 0..COUNTS {
        line(counts, i);
    }
}
