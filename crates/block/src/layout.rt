// Where each table stands in the block; specs/Layout says what it is.
pub const DELTA: usize = 0;

pub const BETTER: usize = 128;

pub const ACCEPT: usize = 137;

pub const SCOPES: usize = 138;

pub const USABLE: usize = 139;

pub const LETTER: usize = 148;

pub const START: usize = 156;

pub const FIRST: usize = 166;

pub const EDGE: usize = 231;

pub const DECL: usize = 743;

pub const STATES: usize = 808;

pub const TURN: usize = 809;

pub const HINT: usize = 810;

pub const INTO: usize = 810;

pub const BACK: usize = 875;

pub const AFTER: usize = 875;

pub const LEAVING: u64 = 9;

pub const BEFORE: usize = 1387;

pub const EDGES: usize = 1899;

pub const SIZE: usize = 1900;
