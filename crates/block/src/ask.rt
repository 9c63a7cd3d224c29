// A query's own block, the ask: what it says behind its tables; specs/Ask says what it is.
ghost use Rattle.std.specs.Prelude.{◌≡◌};
ghost use Rattle.block.specs.Ask.{ask_start, ask_name, ask_goal};

pub const FROM: usize = 192;

pub const KIND: usize = 193;

pub const HIGH: usize = 194;

pub const LOW: usize = 195;

pub const GOAL: usize = 196;

pub const ASKSIZE: usize = 197;

// The query's start.
pub fn ask_start(ask: &[u64; ASKSIZE]) -> u64
    ensures answer { result ≡ ask_start ask.now }
{
    ask[FROM]
}

// The name sought: its kind, and its two numbers.
pub fn ask_kind(ask: &[u64; ASKSIZE]) -> u64
    ensures answer { result ≡ (ask_name ask.now).kind }
{
    ask[KIND]
}

pub fn ask_high(ask: &[u64; ASKSIZE]) -> u64
    ensures answer { result ≡ (ask_name ask.now).high }
{
    ask[HIGH]
}

pub fn ask_low(ask: &[u64; ASKSIZE]) -> u64
    ensures answer { result ≡ (ask_name ask.now).low }
{
    ask[LOW]
}

// The scopes that declare the name, as a set.
pub fn ask_goal(ask: &[u64; ASKSIZE]) -> u64
    ensures answer { result ≡ ask_goal ask.now }
{
    ask[GOAL]
}
