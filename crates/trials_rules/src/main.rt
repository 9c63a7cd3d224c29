// Reads expressions from standard input and prints for each the rows that it becomes, or what
// refuses it. tests/rules/make writes the cases and, by another method, the output that is due.
#![tactic(auto)]

ghost use Rattle.std.specs.Prelude.{◌≤◌};

use path_rules::{LABELS, Rules, STATES, path_rules};
use text_field::{Refusal, Writer};

// A case is 79 bytes: the number of labels (a digit), of bytes of the expression (two digits),
// eight bytes for labels, 67 for the expression, LF.
const CASE: usize = 79;

// The most bytes of an answer: sixteen lines of eight cells, a sign and LF, and a line without
// bytes.
const ANSWER: usize = 161;

fn digit(x: u8) -> usize
    ensures small { result ≤ 9 }
{
    if x.is_ascii_digit() {
        usize::from(x - b'0')
    } else {
        0
    }
}

// So many bytes from a place on; none if there are fewer.
fn part(s: &[u8], from: usize, count: usize) -> &[u8] {
    match s.get(from..) {
        Some(rest) => rest.get(..count).unwrap_or(&[]),
        None => &[],
    }
}

// A state's sign; a point for none.
fn sign(x: u64) -> u8 {
    match x {
        0..=9 => b'0' + x as u8,
        10..=15 => b'a' + (x - 10) as u8,
        _ => b'.',
    }
}

// Each state: where it leads by each of eight labels, whether it accepts, LF.
fn put_states(r: &Rules, to: &mut Writer) {
    for (q, cells) in r.next.chunks(LABELS).enumerate().take(r.states) {
        for &cell in cells {
            to.put(sign(cell));
        }
        to.put(if r.accepts[q] { b'+' } else { b' ' });
        to.put(b'\n');
    }
}

// The states, or the refusal, and a line without bytes.
fn put_answer(answer: Result<Rules, Refusal>, to: &mut Writer) {
    match answer {
        Ok(r) => put_states(&r, to),
        Err(refusal) => {
            to.put_bytes(b"refused ");
            to.put_number(refusal.number());
            to.put(b'\n');
        }
    }
    to.put(b'\n');
}

fn say(answer: Result<Rules, Refusal>) {
    let mut out = [0u8; ANSWER];
    let mut to = Writer::new(&mut out);
    put_answer(answer, &mut to);
    let end = to.end();
    io::write_all(1, part(&out, 0, end));
}

// The next case answered; false where the input ends.
fn next_case() -> bool {
    let mut line = [0u8; CASE];
    if io::read_full(0, &mut line) < CASE {
        return false;
    }
    let labels = digit(line[0]);
    let bytes = digit(line[1]) * 10 + digit(line[2]);
    say(path_rules(part(&line, 3, labels), part(&line, 11, bytes)));
    true
}

// Nothing says that the input ends, so the loop counts its turns up to a number that no run
// reaches.
fn main() {
    for _ in 0..u64::MAX {
        if !next_case() {
            return;
        }
    }
}
