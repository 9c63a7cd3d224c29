// What the judge knows of a graph table and of a path row by number.

// A file has 64 scopes and 8 labels at most.
pub const SCOPES: u64 = 64;

pub const LABELS: u64 = 8;
// One past the states of a file stands for none.
pub const NO_STATE: u64 = 16;

// The number of the end `$`; that of a label's end is one more than the label's.
pub const STOP: u64 = 0;
