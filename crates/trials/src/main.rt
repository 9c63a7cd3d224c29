// Reads cases from standard input and prints for each what a public function answers, and what
// became of the memory lent to it. The programs in tests/trials write the cases and, by a reference
// of their own, the output that is due.
#![tactic(auto)]

mod answered;
mod changes;
mod converted;
mod counted;
mod drawn;
mod edges;
mod files;
mod input;
mod judged;
mod lent;
mod lines;
mod listings;
mod numbered;
mod rows;
mod ruled_files;
mod say;
mod seen;

use graph_table::Form;
use input::{Head, head_of, read_part};
use lent::part;

// A case of a kind that has a text alone. A kind stays the letter that stands in the stored case: as
// an enum, each would be named once more to no use.
fn text_case(kind: u8, text: &[u8], number: usize, room: usize) {
    match kind {
        b'r' => files::reading(text, room),
        b'w' => files::writing_of(text, room),
        b'y' => files::testing(text),
        b'z' => lines::line_from(text, number),
        b'n' => files::seeking(text, number),
        b'l' => listings::listed(text, number, room),
        b's' => listings::summed(text, room),
        b'a' => listings::whole(text, number, room),
        b'd' => seen::seeing(text, number, room),
        b'b' => counted::counting(text, number),
        b'f' => counted::followed(text, number, room),
        b'g' => drawn::drawing(text, room),
        b'e' => edges::finding(text, number),
        b'o' => converted::converting(Form::Old, text, room),
        b'k' => converted::converting(Form::Kinds, text, room),
        b'u' => numbered::renumbering(text, room, number),
        _ => say::unknown(),
    }
}

// A case of its kind. Its bytes are a text, then a first and a second path row where its kind has
// them.
fn case(h: Head, body: &[u8]) {
    let kind = h.kind;
    let room = h.room;
    let number = h.number;
    let middle = h.text.saturating_add(h.row);
    let text = part(body, 0, h.text);
    let first = part(body, h.text, middle);
    match kind {
        b'p' => rows::apart(first, room),
        b'c' => rows::comparing(text, first, part(body, middle, body.len()), number, room),
        b'h' => drawn::taking(text, part(body, middle, body.len()), room),
        b'j' => judged::judging(text, number, first, room),
        b'x' => ruled_files::ruling(text, first, room),
        b'v' => numbered::going_back(text, first, room),
        b'q' => changes::finding(text, first, number),
        b'Q' => changes::edge_sought(text, first),
        b'i' | b't' | b'm' | b'I' | b'T' => changes::changing(kind, text, first, number, room),
        _ => text_case(kind, text, number, room),
    }
}

// The title and the bytes of a case; the bytes go behind those that stay of the case before.
fn one_case(h: Head, space: &mut [u8]) -> bool {
    let mut title = [0u8; 256];
    if !read_part(&mut title, 0, h.title) {
        return false;
    }
    if !read_part(space, h.keep, h.more) {
        return false;
    }
    say::title(part(&title, 0, h.title));
    case(h, part(space, 0, h.keep.saturating_add(h.more)));
    true
}

// The next case of the input, if there is one.
fn next_case(space: &mut [u8]) -> bool {
    let mut line = [0u8; 50];
    if io::read_full(0, &mut line) < line.len() {
        return false;
    }
    one_case(head_of(&line), space)
}

// Nothing says that the input ends, so the loop counts its turns, up to a number that no run uses up.
fn cases(space: &mut [u8]) {
    for _ in 0..u64::MAX {
        if !next_case(space) {
            return;
        }
    }
}

fn main() {
    let mut space = io::large_buffer();
    cases(&mut space);
}
