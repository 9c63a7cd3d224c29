// Graph tables changed: a row's place, an edge at any turn, a row put in, a row taken out, a
// section's rows replaced. The cells need be no graph's.
use crate::input::table_of;
use crate::lent::{CELL, CELLS, cells_sum, front, part};
use crate::say;
use graph_change::{find, has_edge, insert, put_at, remove, replace, take_at};
use text_field::Refusal;

// The most cells that replace a section's rows.
const NEW_CELLS: usize = 1024;

// The values of a row that stand in a body in hexadecimal.
fn row_of(body: &[u8]) -> [u64; 5] {
    let mut row = [0u64; 5];
    table_of(body, &mut row);
    row
}

// Where a row of section k stands, or would stand, in cells that stand in a body.
pub fn finding(body: &[u8], row: &[u8], k: usize) {
    let mut given = [0u64; CELLS];
    let m = table_of(body, &mut given);
    match find(part(&given, 0, m), k, row_of(row)) {
        Ok(p) => say::told(b"there ", p as u64),
        Err(p) => say::told(b"free ", p as u64),
    }
    say::line();
}

// Whether cells that stand in a body have the edge of a row, at whatever turn.
pub fn edge_sought(body: &[u8], row: &[u8]) {
    let mut given = [0u64; CELLS];
    let m = table_of(body, &mut given);
    if has_edge(part(&given, 0, m), row_of(row)) {
        return say::word(b"has it\n");
    }
    say::word(b"has it not\n")
}

// A row put at a place. Its section's number and its values stand in a body.
fn putting(table: &mut [u64], m: usize, place: usize, body: &[u8]) -> Result<usize, Refusal> {
    let mut row = [0u64; 6];
    table_of(body, &mut row);
    let values = [row[1], row[2], row[3], row[4], row[5]];
    put_at(table, m, place, row[0] as usize, values)
}

// The rows of section k replaced by the cells of a body.
fn replacing(table: &mut [u64], m: usize, k: usize, body: &[u8]) -> Result<usize, Refusal> {
    let mut new = [0u64; NEW_CELLS];
    let n = table_of(body, &mut new);
    replace(table, m, k, part(&new, 0, n))
}

// The change of its kind to the first m cells of a table, in section k; at place k where the kind's
// letter is a capital.
fn change(kind: u8, table: &mut [u64], m: usize, k: usize, body: &[u8]) -> Result<usize, Refusal> {
    match kind {
        b'i' => insert(table, m, k, row_of(body)),
        b't' => remove(table, m, k, row_of(body)),
        b'I' => putting(table, m, k, body),
        b'T' => take_at(table, m, k),
        _ => replacing(table, m, k, body),
    }
}

// What was answered, and the sum of all lent cells.
fn changed(a: Result<usize, Refusal>, lent: &[u64]) {
    match a {
        Ok(n) => say::told(b"used ", n as u64),
        Err(n) => say::refused(n),
    }
    say::told(b" sum ", cells_sum(lent));
    say::line();
}

// A table of `room` cells, with those of a body at its front, changed. Where the body has more cells
// than that, the table is said to have more than there are.
pub fn changing(kind: u8, body: &[u8], row: &[u8], k: usize, room: usize) {
    let mut table = [CELL; CELLS];
    let m = table_of(body, front(&mut table, room));
    let a = change(kind, front(&mut table, room), m, k, row);
    changed(a, part(&table, 0, room));
}
