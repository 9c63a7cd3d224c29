// The memo of what was counted: two cells a slot, the free scopes, and a tag of the scope and state
// with the number. A slot that is filled again is overwritten, so that some places are counted
// again, and none wrongly.
ghost use Rattle.std.specs.Prelude.{◌≡◌, List, ℕ, ◌*◌, ◌≤◌, ◌<◌, length};
ghost use Rattle.beginnings.specs.Beginnings.{MOST};
ghost use Rattle.beginnings.specs.Steps.{SLOTS, tag_of, Recalls, MemoRight};

// Slots, of which the memo has two cells each: half a megabyte in all.
pub const SLOTS: u64 = 32768;

pub const CELLS: usize = 65536;

// Numbers are below this, and tags stand above them.
const VALUES: u64 = 1073741824;

// Below this a number times one of the factors fits a cell.
const HALF: u64 = 4294967296;

// The tag of a scope and a state; no tag is 0.
fn tag(s: u64, q: u64) -> u64
    requires scope { s < 64 }
    requires state { q < 16 }
    ensures tag { result ≡ tag_of s q }
{
    1 + (s * 16 + q)
}

// The slot of free scopes, a scope and a state. Which one it is is left open; the factors, odd and
// without pattern, spread like sets.
pub fn slot_of(free: u64, s: u64, q: u64) -> u64
    requires scope { s < 64 }
    requires state { q < 16 }
    ensures slot { result < SLOTS }
{
    let low = free % HALF * 2654435769;
    let high = (free >> 32) % HALF * 2246822519;
    let place = tag(s, q) * 3266489917;
    let mixed = low ^ (high >> 7) ^ place;
    let spread = mixed ^ (mixed >> 29);
    (((spread % HALF) * 2654435769) >> 12) % SLOTS
}

// The number of the places there, if the slot has it; else 0.
pub fn look_up(memo: &[u64], at: u64, free: u64, s: u64, q: u64) -> u64
    requires size { length memo.now ≡ 2 * SLOTS }
    requires slot { at < SLOTS }
    requires scope { s < 64 }
    requires state { q < 16 }
    ensures told { (block near ask : List ℕ) → MemoRight block near ask memo.now → 0 < result → Recalls block near ask free s q result }
{
    let i = (2 * at) as usize;
    if memo[i] != free {
        return 0;
    }
    let cell = memo[i + 1];
    if cell / VALUES != tag(s, q) {
        return 0;
    }
    cell % VALUES
}

// The number put into the slot.
pub fn store(memo: &mut [u64], at: u64, free: u64, s: u64, q: u64, n: u64)
    requires size { length memo.old ≡ 2 * SLOTS }
    requires slot { at < SLOTS }
    requires scope { s < 64 }
    requires state { q < 16 }
    requires most { n ≤ MOST }
    ensures right { (block near ask : List ℕ) → MemoRight block near ask memo.old → Recalls block near ask free s q n → MemoRight block near ask memo.new }
{
    let i = (2 * at) as usize;
    memo[i] = free;
    memo[i + 1] = tag(s, q) * VALUES + n;
}
