// The rows that leave a scope, found in cells that need be no graph's.
use crate::input::table_of;
use crate::lent::{CELLS, part};
use crate::say;
use graph_table::next_row;

// The place of each row found, one after the other.
fn places(rows: &[u64], s: u64) {
    let mut p: usize = 0;
    while p < rows.len() {
        let at = next_row(rows, s, p);
        if rows.len() <= at {
            return;
        }
        say::place(at);
        p = at + 6;
    }
}

// The same of cells that stand in a body in hexadecimal.
pub fn finding(body: &[u8], s: usize) {
    let mut given = [0u64; CELLS];
    let m = table_of(body, &mut given);
    say::word(b"found");
    places(part(&given, 0, m), s as u64);
    say::line();
}
