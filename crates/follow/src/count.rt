// Rows are counted, measured against a limit, and their declarations compared.
ghost use Rattle.std.specs.Prelude.{◌≡◌, true, ◌+◌, ◌<◌, List, ℕ};
ghost use Rattle.follow.specs.Tally.{State, noted, is_several, fits, more, take_row, is_done, is_broken};
ghost use Rattle.follow.specs.Walk.{place_row};

use crate::{Bounds, Seen, Tally};

// Do k bytes from place n on end at m or before it? Then their end is a place.
pub fn is_room(m: usize, n: usize, k: usize) -> bool
    ensures room { result ≡ fits m n k }
    ensures end { result ≡ true → n + k < 18446744073709551616 }
{
    k <= m && n <= m - k
}

// One entry more, up to the most.
pub fn one_more(most: u64, entries: u64) -> u64
    ensures counted { result ≡ more most entries }
{
    if entries < most { entries + 1 } else { entries }
}

// The declarations with one more, by its scope and mark.
pub fn note(seen: Seen, at: u64, mark: u64) -> Seen
    ensures noted { result ≡ noted seen at mark }
{
    match seen {
        Seen::None => Seen::One(at, mark),
        Seen::One(a, m) if a == at && m == mark => seen,
        _ => Seen::Several,
    }
}

// Are they several?
fn is_several(seen: Seen) -> bool
    ensures answer { result ≡ is_several seen }
{
    matches!(seen, Seen::Several)
}

// May the walk stop?
pub fn is_done(b: Bounds, tally: Tally) -> bool
    ensures done { result ≡ is_done b tally }
{
    tally.over && (b.most <= tally.entries || is_several(tally.seen))
}

// Did it stop before a difference was seen, so that rows which were not taken may differ?
pub fn is_broken(b: Bounds, tally: Tally) -> bool
    ensures broken { result ≡ is_broken b tally }
{
    is_done(b, tally) && !is_several(tally.seen)
}

// One place, where places are sought: a row of one byte against no room. Nothing is written.
pub fn put_place(bounds: Bounds, tally: Tally) -> Tally
    requires no_room { bounds.limit ≡ 0 }
    ensures counted { (out : List ℕ) → ◌≡◌ {A = State} (out, result) (take_row bounds (out, tally) place_row) }
{
    if is_done(bounds, tally) {
        return tally;
    }
    Tally {
        bytes: tally.bytes,
        entries: one_more(bounds.most, tally.entries),
        over: true,
        seen: note(tally.seen, 0, 0),
    }
}
