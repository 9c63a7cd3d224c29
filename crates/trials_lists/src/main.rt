// Reads cases from standard input, each a gym file and the listings delivered for it, and prints
// what becomes of them. tests/trials/make writes the cases and, by a reference of its own, the
// output that is due.
#![tactic(auto)]

ghost use Rattle.std.specs.Prelude.{◌≤◌};

use accepting::{Verdict, accept};
use text_field::Refusal;

// The line above a case, four numbers of five digits, each followed by one byte: the title's
// length; how many bytes stay of the case before, and how many come after them; how many of them all
// are the file.
const HEAD: usize = 24;

fn digit(x: u8) -> usize
    ensures small { result ≤ 9 }
{
    match x {
        b'0'..=b'9' => usize::from(x - b'0'),
        _ => 0,
    }
}

// The bytes from one place up to another; none if these are not places of the text.
fn part(s: &[u8], from: usize, to: usize) -> &[u8] {
    if to < from || s.len() < to {
        return &s[..0];
    }
    &s[from..to]
}

// The number of five digits.
fn number(s: &[u8]) -> usize
    ensures small { result ≤ 99999 }
{
    if s.len() < 5 {
        return 0;
    }
    let high = digit(s[0]) * 10000 + digit(s[1]) * 1000 + digit(s[2]) * 100;
    high + digit(s[3]) * 10 + digit(s[4])
}

// The next n bytes of the input and the LF after them put at a place: was there room for them, and
// did all come?
fn read_part(space: &mut [u8], at: usize, n: usize) -> bool {
    if space.len() < at || space.len() - at <= n {
        return false;
    }
    io::read_full(0, &mut space[at..at + n + 1]) == n + 1
}

fn say(v: Result<Verdict, Refusal>) {
    match v {
        Ok(Verdict::Accepted) => {
            io::write_all(1, b"accepted\n");
        }
        Ok(Verdict::Wrong(i)) => {
            io::write_all(1, b"not accepted ");
            io::print_decimal(1, i as u64);
            io::write_all(1, b"\n");
        }
        Err(refusal) => {
            io::write_all(1, b"refused ");
            io::print_decimal(1, refusal.number());
            io::write_all(1, b"\n");
        }
    }
}

// The title and the bytes of a case; the bytes go after those that stay of the case before.
fn one_case(line: &[u8], space: &mut [u8]) -> bool {
    let width = number(part(line, 0, 5));
    let keep = number(part(line, 6, 11));
    let more = number(part(line, 12, 17));
    let text = number(part(line, 18, 23));
    let mut title = [0u8; 256];
    if !read_part(&mut title, 0, width) {
        return false;
    }
    if !read_part(space, keep, more) {
        return false;
    }
    io::write_all(1, part(&title, 0, width));
    io::write_all(1, b": ");
    say(accept(part(space, 0, text), part(space, text, keep + more)));
    true
}

// The next case of the input, if there is one.
fn next_case(space: &mut [u8]) -> bool {
    let mut line = [0u8; HEAD];
    if io::read_full(0, &mut line) < HEAD {
        return false;
    }
    one_case(&line, space)
}

// Nothing says that the input ends, so the loop counts its turns, up to a number that no run uses up.
fn cases(space: &mut [u8]) {
    for _ in 0..u64::MAX {
        if !next_case(space) {
            return;
        }
    }
}

fn main() {
    let mut space = io::large_buffer();
    cases(&mut space);
}
