// The list's text: the line `was`, then one number a line.
ghost use Rattle.std.specs.Prelude.{◌≡◌, [], ℕ, ◌≤◌, drop};
ghost use Rattle.text_field.specs.Buffer.{Buf, puts};
ghost use Rattle.text_field.specs.Number.{number_placed};
ghost use Rattle.text_field.specs.Writing.{Wrote};
ghost use Rattle.graph_rows.specs.Format.{most_scopes};
ghost use Rattle.was.specs.WasText.{number_line, was_text, line_number, numbers_after, read_was};
ghost use Rattle.was.specs.Cells.{list_read};

use crate::order::{MOST_SCOPES, is_listed};
use text_field::{Writer, read_number};

// Writes a number and the end of its line.
fn put_line(to: &mut Writer, v: u64)
    ensures wrote { Wrote to.old to.new (number_line v) }
{
    to.put_number(v);
    to.put(b'\n');
}

// Writes the list's text into the buffer, as far as it fits. Returns the place after it.
pub fn put_was(list: &[u64], out: &mut [u8]) -> usize
    ensures written { ◌≡◌ {A = Buf} (out.new, result) (puts (out.old, 0) (was_text list.now)) }
{
    let mut to = Writer::new(out);
    to.put_bytes(b"was\n");
    for &v in list {
        put_line(&mut to, v);
    }
    to.end()
}

// Reads the number on the line at a place. Returns it with the place after its LF.
fn number_line(text: &[u8], at: usize) -> Option<(u64, usize)>
    ensures answer { result ≡ number_placed at (line_number (drop at text.now)) }
{
    let (v, next) = read_number(text, at)?;
    if *text.get(next)? != b'\n' {
        return None;
    }
    Some((v, next + 1))
}

// Reads n different numbers below n from the lines at a place on, after which the text must end.
// Zeros stand after them.
fn read_numbers(text: &[u8], at: usize, n: usize) -> Option<[u64; 64]>
    requires count { n ≤ most_scopes }
    ensures answer { result ≡ list_read (numbers_after n n [] (drop at text.now)) }
{
    let mut list = [0u64; MOST_SCOPES];
    let mut p = at;
    for k in 0..n {
        let (v, next) = number_line(text, p)?;
        if n as u64 <= v || is_listed(&list[..k], v) {
            return None;
        }
        list[k] = v;
        p = next;
    }
    if p < text.len() {
        return None;
    }
    Some(list)
}

// Reads a text as the list of n scopes: its numbers, and zeros after them.
pub fn read_was(text: &[u8], n: usize) -> Option<[u64; 64]>
    requires count { n ≤ most_scopes }
    ensures answer { result ≡ list_read (read_was n text.now) }
{
    if !text.starts_with(b"was\n") {
        return None;
    }
    read_numbers(text, 4, n)
}
