// Gym files: a text read, a graph table written or tested, the name that a query seeks.
use crate::answered::{unwritten, written};
use crate::input::table_of;
use crate::lent::{BYTE, BYTES, CELL, CELLS, front, part};
use crate::{lent, say};
use graph_file::{name_sought, read, write};
use graph_rows::table_refusal;
use text_field::Refusal;

// Does writing these cells give this very text, in a buffer of its length?
fn written_back(table: &[u64], text: &[u8]) -> bool {
    let mut out = [0u8; BYTES];
    let a = write(table, front(&mut out, text.len()));
    let Ok(m) = a else {
        return false;
    };
    check::same(part(&out, 0, m), text)
}

// Does reading this text give these very cells, in a table of their length?
fn read_back(text: &[u8], given: &[u64]) -> bool {
    let mut table = [0u64; CELLS];
    let a = read(text, front(&mut table, given.len()));
    let Ok(m) = a else {
        return false;
    };
    part(&table, 0, m) == given
}

// What reading a text answered, and what the lent cells hold.
fn read_shown(a: Result<usize, Refusal>, text: &[u8], lent: &[u64]) {
    match a {
        Ok(n) => {
            say::done(b"read", n, lent::cells_sum(part(lent, 0, n)));
            say::rest(lent::kept(lent, n, CELL));
            say::back(written_back(part(lent, 0, n), text));
        }
        Err(k) => {
            say::refused(k);
            say::all(lent::kept(lent, 0, CELL));
        }
    }
}

// A text read into a lent table of `room` cells.
pub fn reading(text: &[u8], room: usize) {
    let mut table = [CELL; CELLS];
    let a = read(text, front(&mut table, room));
    read_shown(a, text, part(&table, 0, room));
}

// What writing cells answered, and what the lent bytes hold.
fn write_shown(a: Result<usize, Refusal>, given: &[u64], lent: &[u8]) {
    match a {
        Ok(n) => {
            written(b"written", n, lent);
            say::back(read_back(part(lent, 0, n), given));
        }
        Err(k) => unwritten(k, lent),
    }
}

// Cells written into a lent buffer of `room` bytes.
fn writing(given: &[u64], room: usize) {
    let mut out = [BYTE; BYTES];
    let a = write(given, front(&mut out, room));
    write_shown(a, given, part(&out, 0, room));
}

// Cells that stand in a body in hexadecimal, written.
pub fn writing_of(body: &[u8], room: usize) {
    let mut given = [0u64; CELLS];
    let m = table_of(body, &mut given);
    writing(part(&given, 0, m), room)
}

// Cells that stand in a body in hexadecimal, tested: the refusal's number, 0 if they are a graph.
pub fn testing(body: &[u8]) {
    let mut given = [0u64; CELLS];
    let m = table_of(body, &mut given);
    let number = match table_refusal(part(&given, 0, m)) {
        Ok(()) => 0,
        Err(refusal) => refusal.number(),
    };
    say::told(b"tested ", number);
    say::line();
}

// The name that a query of a text seeks.
pub fn seeking(text: &[u8], query: usize) {
    say::name(name_sought(text, query))
}
