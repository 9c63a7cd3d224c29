// Lists the queries of the gym file on standard input, then the summary; for a refused file only
// its refusal. What is printed for a text is `printing`'s to say and to prove; that `print_for` is
// called with what was read is left for the reader to see.
#![tactic(auto)]

use printing::{INPUT, print_for};

fn main() {
    let mut text = [0u8; INPUT];
    let n = io::read_full(0, &mut text);
    print_for(&text[..n]);
}
