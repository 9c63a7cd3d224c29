// What was answered of lent bytes, and what they hold.
use crate::lent::{BYTE, bytes_sum, kept, part};
use crate::say;
use text_field::Refusal;

// n bytes were written: are those behind them as they were?
pub fn written(verb: &[u8], n: usize, lent: &[u8]) {
    say::done(verb, n, bytes_sum(part(lent, 0, n)));
    say::rest(kept(lent, n, BYTE));
}

// Writing was refused: are all as they were?
pub fn unwritten(k: Refusal, lent: &[u8]) {
    say::refused(k);
    say::all(kept(lent, 0, BYTE));
}
