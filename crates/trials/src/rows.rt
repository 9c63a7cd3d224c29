// Path rows: one taken apart and written again, one written from parts that may make none, two
// compared by a file.
use crate::answered::{unwritten, written};
use crate::input::table_of;
use crate::lent::{BYTE, BYTES, front, part};
use crate::{lent, say};
use comparison::{Compared, compare_text};
use path_row::form::read_row;
use path_row::taken::steps_of;
use path_row::writer::write_row;
use text_field::{Refusal, get_or};

// Each step of a row printed, its letter kept and its scope 63 places behind it.
fn steps(row: &[u8], count: usize, kept: &mut [u8]) {
    let taken = steps_of(row);
    for i in 0..count {
        let s = taken.get(i);
        say::step(s.label, s.scope);
        lent::put(kept, i, s.label);
        lent::put(kept, i.saturating_add(63), s.scope);
    }
}

// Is there no step i?
fn is_past(row: &[u8], i: usize) -> bool {
    let s = steps_of(row).get(i);
    s.label == 0 && s.scope == 0
}

// The bytes that are looked at: those that are lent and 64 behind them, as far as there are any.
fn near(room: usize) -> usize {
    room.saturating_add(64).min(BYTES)
}

// What writing a row again answered, and what the lent bytes and those behind them hold.
fn row_shown(a: Result<usize, Refusal>, row: &[u8], lent: &[u8]) {
    match a {
        Ok(n) => {
            written(b"written", n, lent);
            say::back(check::same(part(lent, 0, n), row));
        }
        Err(k) => unwritten(k, lent),
    }
}

// A row written again from its parts.
fn row_again(row: &[u8], mark: u64, start: u64, count: usize, kept: &[u8], room: usize) {
    let letters = part(kept, 0, 63);
    let scopes = part(kept, 63, 126);
    let mut out = [BYTE; BYTES];
    let a = write_row(mark, start, count, letters, scopes, front(&mut out, room));
    row_shown(a, row, part(&out, 0, near(room)));
}

// A row's steps printed, and the row written again from them.
fn steps_apart(row: &[u8], mark: u64, start: u64, count: usize, room: usize) {
    let mut kept = [0u8; 126];
    steps(row, count, &mut kept);
    say::past(is_past(row, count));
    say::word(b", ");
    row_again(row, mark, start, count, &kept, room)
}

// A row taken apart, and its parts written into a lent buffer of `room` bytes.
fn row_apart(row: &[u8], room: usize) {
    let Some((mark, start, count)) = read_row(row) else {
        say::refused(Refusal::NoPathRow);
        return say::line();
    };
    say::row(mark, start, count);
    steps_apart(row, mark, start, count, room)
}

// The number at a place of the table, 0 past its end.
fn number_at(table: &[u64], at: usize) -> u64 {
    get_or(table, at, 0)
}

fn size_at(table: &[u64], at: usize) -> usize {
    number_at(table, at) as usize
}

fn byte_from(table: &[u64], at: usize) -> u8 {
    (number_at(table, at) % 256) as u8
}

// The numbers from a place on, as bytes.
fn bytes_from(table: &[u64], at: usize, out: &mut [u8]) {
    for i in 0..out.len() {
        out[i] = byte_from(table, at.saturating_add(i));
    }
}

// Was what is written read as a row with the mark, the start and the count that the table has?
fn reads_as(row: &[u8], table: &[u64]) -> bool {
    let Some((m, s, n)) = read_row(row) else {
        return false;
    };
    m == number_at(table, 0) && s == number_at(table, 1) && n == size_at(table, 2)
}

// A row written from parts that stand in a table: the mark, the start, how many steps, how many
// letters and how many scopes are lent, then 80 letters and 80 scopes.
fn parts_into(table: &[u64], out: &mut [u8]) -> Result<usize, Refusal> {
    let mut letters = [0u8; 80];
    let mut scopes = [0u8; 80];
    bytes_from(table, 5, &mut letters);
    bytes_from(table, 85, &mut scopes);
    let ls = part(&letters, 0, size_at(table, 3));
    let ss = part(&scopes, 0, size_at(table, 4));
    write_row(
        number_at(table, 0),
        number_at(table, 1),
        size_at(table, 2),
        ls,
        ss,
        out,
    )
}

// What writing parts answered, and what the lent bytes and those behind them hold.
fn parts_shown(a: Result<usize, Refusal>, table: &[u64], lent: &[u8]) {
    match a {
        Ok(n) => {
            written(b"written", n, lent);
            say::back(reads_as(part(lent, 0, n), table));
        }
        Err(k) => unwritten(k, lent),
    }
}

// The parts of a table written into a lent buffer of `room` bytes.
fn parts_written(table: &[u64], room: usize) {
    let mut out = [BYTE; BYTES];
    let a = parts_into(table, front(&mut out, room));
    parts_shown(a, table, part(&out, 0, near(room)));
}

// The same of parts that stand in a body in hexadecimal.
fn parts(body: &[u8], room: usize) {
    let mut table = [0u64; 200];
    table_of(body, &mut table);
    parts_written(&table, room)
}

// Parts begin with `=`, which no row does.
fn are_parts(body: &[u8]) -> bool {
    check::same(part(body, 0, 1), b"=")
}

// A row or parts.
pub fn apart(body: &[u8], room: usize) {
    if are_parts(body) {
        return parts(part(body, 1, body.len()), room);
    }
    row_apart(body, room)
}

// Two rows compared by a text, where n records are lent for the steps of a and m for those of b.
pub fn comparing(text: &[u8], a: &[u8], b: &[u8], n: usize, m: usize) {
    let told = compare_text(text, a, b, n, m);
    match told.answer {
        Ok(Compared::First(k)) => say::counted(b"first", k),
        Ok(Compared::Second(k)) => say::counted(b"second", k),
        Ok(Compared::Neither(k)) => say::counted(b"neither", k),
        Err(k) => say::refused(k),
    }
    say::records(told.first.count, told.second.count);
}
