// Memory that is lent: the mark it holds before a call, whether it still stands after it, and a sum
// of what was put there.
pub const CELL: u64 = 12297829382473034410;

pub const BYTE: u8 = 165;

// The most cells and bytes that a case lends.
pub const CELLS: usize = 12288;

pub const BYTES: usize = 98304;

// The part between two places; the empty part where there is none.
pub fn part<T>(s: &[T], from: usize, to: usize) -> &[T] {
    if to < from || s.len() < to {
        return &s[..0];
    }
    &s[from..to]
}

// The first n items, to be lent; none where there are fewer.
pub fn front<T>(s: &mut [T], n: usize) -> &mut [T] {
    if s.len() < n {
        return &mut s[..0];
    }
    &mut s[..n]
}

// The item at a place, where there is one.
pub fn put<T: Copy>(s: &mut [T], i: usize, x: T) {
    if i < s.len() {
        s[i] = x;
    }
}

// Does the mark stand from a place on?
pub fn kept<T: Copy + PartialEq>(s: &[T], from: usize, mark: T) -> bool {
    s.iter().skip(from).all(|item| *item == mark)
}

// A running sum with one more number, below the prime 4,294,967,291.
fn mixed(sum: u64, x: u64) -> u64 {
    ((sum % 4294967291) * 1000003 + x % 4294967296 + 1) % 4294967291
}

// A cell counts as two numbers, a byte as one.
pub fn cells_sum(s: &[u64]) -> u64 {
    s.iter().fold(0, |sum, cell| mixed(mixed(sum, *cell / 4294967296), *cell))
}

pub fn bytes_sum(s: &[u8]) -> u64 {
    s.iter().fold(0, |sum, byte| mixed(sum, u64::from(*byte)))
}
