// Numbers, names and lines as text, the lent buffer they are written to, and why a request is
// refused.
#![tactic(auto)]

mod lines;
mod refusal;
mod writer;

ghost use Rattle.std.specs.Prelude.{◌≡◌, ◌≤◌, ◌&&◌, ◌+◌, ◌-◌, ◌*◌, ◌/◌, ◌%◌, length, get_or, drop};
ghost use Rattle.text_field.specs.Bytes.{within, is_digit, is_capital, is_lower, is_name_byte};
ghost use Rattle.text_field.specs.Number.{number_text, growing, digits_from, number_here, number_placed};
ghost use Rattle.text_field.specs.Name.{pack_high, pack_low, name_text, is_name_cells, name_run, name_here, name_placed};
ghost use Rattle.text_field.specs.Buffer.{Buf, put, puts};

pub use lines::next_line;
pub use refusal::Refusal;
pub use writer::Writer;

// A number that is greater, or 0, has no further digit: five digits are not passed, and 0 stands
// alone.
const GROWS: u64 = 9999;

// The bytes of a name at most, and how many may follow its first.
const NAME_BYTES: usize = 16;

const NAME_REST: usize = 15;

// The weight of a cell's first byte.
const TOP: u64 = 72057594037927936;

// The item at i, or another value past the end.
pub fn get_or<T: Copy>(items: &[T], i: usize, otherwise: T) -> T
    ensures answer { result ≡ get_or items.now i otherwise }
{
    items.get(i).copied().unwrap_or(otherwise)
}

// Does the byte lie between two others, or is it one of them?
#[tactic(auto, unfolding(crate::specs::Bytes::within))]
pub fn in_range(low: u8, high: u8, b: u8) -> bool
    ensures answer { result ≡ within low high b }
{
    low <= b && b <= high
}

#[tactic(auto, unfolding(crate::specs::Bytes::is_digit, crate::specs::Bytes::within))]
pub fn is_digit(b: u8) -> bool
    ensures answer { result ≡ is_digit b }
{
    b.is_ascii_digit()
}

#[tactic(auto, unfolding(crate::specs::Bytes::is_capital, crate::specs::Bytes::within))]
pub fn is_capital(b: u8) -> bool
    ensures answer { result ≡ is_capital b }
{
    b.is_ascii_uppercase()
}

#[tactic(auto, unfolding(crate::specs::Bytes::is_lower, crate::specs::Bytes::within))]
pub fn is_lower(b: u8) -> bool
    ensures answer { result ≡ is_lower b }
{
    b.is_ascii_lowercase()
}

#[tactic(auto, unfolding(crate::specs::Bytes::is_name_byte))]
pub fn is_name_byte(b: u8) -> bool
    ensures answer { result ≡ is_name_byte b }
{
    is_lower(b) || (is_digit(b) || b == b'_')
}

// The digit's value, 0 for a byte below the digits.
fn digit_value(b: u8) -> u64
    ensures answer { result ≡ b - 48 }
{
    u64::from(b.saturating_sub(b'0'))
}

// May b be a further digit of a number that is v so far?
#[tactic(auto, unfolding(crate::specs::Number::growing))]
fn goes_on(v: u64, b: u8) -> bool
    ensures answer { result ≡ (is_digit b && growing v) }
{
    is_digit(b) && (v != 0 && v <= GROWS)
}

// The number that was v before place `at`.
fn digits_from(s: &[u8], value: u64, at: usize) -> Option<(u64, usize)>
    requires inside { at ≤ length s.now }
    ensures answer { result ≡ digits_from value at (drop at s.now) }
{
    let mut v = value;
    for i in at..s.len() {
        let b = s[i];
        if !goes_on(v, b) {
            return Some((v, i));
        }
        v = v * 10 + digit_value(b);
    }
    Some((v, s.len()))
}

// The number at a place of the text.
pub fn read_number(s: &[u8], at: usize) -> Option<(u64, usize)>
    ensures answer { result ≡ number_placed at (number_here (drop at s.now)) }
{
    let first = *s.get(at)?;
    if !is_digit(first) {
        return None;
    }
    digits_from(s, digit_value(first), at + 1)
}

// The cell of a name's bytes 0 to 7, big end first; zeros stand for missing bytes.
pub fn pack_high(name: &[u8]) -> u64
    ensures answer { result ≡ pack_high name.now }
{
    let width = name.len().min(8);
    let mut bytes = [0u8; 8];
    bytes[..width].copy_from_slice(&name[..width]);
    u64::from_be_bytes(bytes)
}

// The cell of a name's bytes 8 to 15.
pub fn pack_low(name: &[u8]) -> u64
    ensures answer { result ≡ pack_low name.now }
{
    pack_high(&name[name.len().min(8)..])
}

// How many name bytes stand at the start, of which at most `most` are taken.
fn name_len(s: &[u8], most: usize) -> usize
    ensures answer { result ≡ length (name_run most s.now) }
{
    s.iter()
        .take(most)
        .take_while(|b| is_name_byte(**b))
        .count()
}

// The name at a place of the text.
pub fn read_name(s: &[u8], at: usize) -> Option<(u64, u64, usize)>
    ensures answer { result ≡ name_placed at (name_here (drop at s.now)) }
{
    let first = *s.get(at)?;
    if !is_lower(first) {
        return None;
    }
    let end = at + 1 + name_len(&s[at + 1..], NAME_REST);
    let name = &s[at..end];
    Some((pack_high(name), pack_low(name), end))
}

// x where there is room, and the next place. This and the three below are what a Writer is made of,
// and serve where one piece is put at a place that is known.
pub fn put_byte(out: &mut [u8], n: usize, x: u8) -> usize
    ensures written { ◌≡◌ {A = Buf} (out.new, result) (put (out.old, n) x) }
{
    if n < out.len() {
        out[n] = x;
        n + 1
    } else {
        n
    }
}

// The bytes of a text.
pub fn put_bytes(out: &mut [u8], n: usize, s: &[u8]) -> usize
    ensures written { ◌≡◌ {A = Buf} (out.new, result) (puts (out.old, n) s.now) }
{
    let mut k = n;
    for &x in s {
        k = put_byte(out, k, x);
    }
    k
}

// The byte of a digit.
fn digit_byte(v: u64) -> u8
    ensures answer { result ≡ 48 + v % 10 }
{
    b'0' + (v % 10) as u8
}

// The number in decimal.
pub fn put_number(out: &mut [u8], n: usize, v: u64) -> usize
    ensures written { ◌≡◌ {A = Buf} (out.new, result) (puts (out.old, n) (number_text v)) }
{
    if v < 10 {
        return put_byte(out, n, digit_byte(v));
    }
    let k = put_number(out, n, v / 10);
    put_byte(out, k, digit_byte(v))
}

// How many bytes the number takes.
pub fn number_len(v: u64) -> usize
    ensures answer { result ≡ length (number_text v) }
{
    let mut len: usize = 1;
    let mut x = v;
    while x >= 10 {
        x = x / 10;
        len += 1;
    }
    len
}

fn first_byte(x: u64) -> u8
    ensures answer { result ≡ x / 72057594037927936 }
{
    (x / TOP) as u8
}

// x without its first byte, and the first byte of y after it.
fn shifted(x: u64, y: u64) -> u64
    ensures answer { result ≡ x % 72057594037927936 * 256 + y / 72057594037927936 }
{
    x % TOP * 256 + y / TOP
}

// The bytes that two cells spell.
pub fn put_name(out: &mut [u8], n: usize, high: u64, low: u64) -> usize
    ensures written { ◌≡◌ {A = Buf} (out.new, result) (puts (out.old, n) (name_text high low)) }
{
    let mut k = n;
    let mut h = high;
    let mut l = low;
    while h >= TOP {
        k = put_byte(out, k, first_byte(h));
        h = shifted(h, l);
        l = shifted(l, 0);
    }
    k
}

// Are two cells a name's packing? Reading back what they spell tells.
pub fn is_name(high: u64, low: u64) -> bool
    ensures answer { result ≡ is_name_cells high low }
{
    let mut text = [0u8; NAME_BYTES];
    put_name(&mut text, 0, high, low);
    let Some((h, l, _)) = read_name(&text, 0) else {
        return false;
    };
    h == high && l == low
}
