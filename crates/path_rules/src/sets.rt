// Sets of small numbers as the bits of a number.
ghost use Rattle.std.specs.Prelude.{◌≡◌, ℕ, ◌^◌, ◌<◌};
ghost use Rattle.path_rules.specs.Sets.{has, only_if, gather, meets};

// How many positions an expression may have, one for each of its letters.
pub const POSITIONS: usize = 10;

// How many numbers labels have.
pub const LABELS: usize = 8;

// The set of the word's end alone.
pub const END: u64 = 1024;

// Is x in the set?
#[tactic(auto, unfolding(crate::specs::Sets::has))]
pub fn has_bit(set: u64, x: u64) -> bool
    requires number { x < 11 }
    ensures answer { result ≡ has set x }
{
    (set >> x) % 2 == 1
}

// The set of one position.
pub fn bit(x: u64) -> u64
    requires number { x < 11 }
    ensures answer { result ≡ 2 ^ x }
{
    1 << x
}

// The set, if so, else the empty one.
#[tactic(auto, unfolding(crate::specs::Sets::only_if))]
pub fn only_if(so: bool, set: u64) -> u64
    ensures answer { result ≡ only_if so set }
{
    if so { set } else { 0 }
}

// Have the two sets something in common?
#[tactic(auto, unfolding(crate::specs::Sets::meets))]
pub fn meet(a: u64, b: u64) -> bool
    ensures answer { result ≡ meets a b }
{
    a & b != 0
}

// The sets of all positions as one.
pub fn gather<F: Fn(usize) -> u64>(set_of: F) -> u64
    requires callable { (p : ℕ) → p < 10 → F.pre set_of p }
    ensures answer { (f : ℕ → ℕ) → ((p v : ℕ) → p < 10 → F.post set_of p v → v ≡ f p) → result ≡ gather f 10 }
{
    let mut all = 0;
    for p in 0..POSITIONS {
        all |= set_of(p);
    }
    all
}
