// Going through the numbers of a set, the least first.
ghost use Rattle.std.specs.Prelude.{◌≡◌, ◌||◌, ℕ, ◌<◌, eqb};
ghost use Rattle.std.specs.Int.Count.{count_trailing_zeros};
ghost use Rattle.block.specs.Sets.{has_scope};

// The least number of a set that is not empty.
pub fn least_of(set: u64) -> u64
    requires some { 0 < set }
    ensures below { result < 64 }
    ensures least { result ≡ count_trailing_zeros 64 set }
{
    u64::trailing_zeros(set) as u64
}

// The set without its least number.
pub fn rest_of(set: u64) -> u64
    requires some { 0 < set }
    ensures less { result < set }
    ensures rest { (u : ℕ) → has_scope set u ≡ (has_scope result u || eqb u (count_trailing_zeros 64 set)) }
{
    set & (set - 1)
}
