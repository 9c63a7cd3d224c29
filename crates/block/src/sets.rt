// Sets of scopes and of states, as the bits of a number; so are those of ends and of labels.
ghost use Rattle.std.specs.Prelude.{◌≡◌, Bool, not, ◌&&◌, ℕ, ◌<◌, eqb};
ghost use Rattle.block.specs.Sets.{has_scope, has_state};

// Is the scope in the set?
pub fn has(set: u64, s: u64) -> bool
    requires scope { s < 64 }
    ensures answer { result ≡ has_scope set s }
{
    (set >> s) % 2 == 1
}

// The set without the scope.
pub fn taken(set: u64, s: u64) -> u64
    requires scope { s < 64 }
    ensures answer { (u : ℕ) → has_scope result u ≡ (has_scope set u && not (eqb u s)) }
{
    set ^ (set & (1 << s))
}

// The set of one scope.
pub fn single(s: u64) -> u64
    requires scope { s < 64 }
    ensures answer { (u : ℕ) → has_scope result u ≡ eqb u s }
{
    1 << s
}

// Is the state in the set? 16 and above is none.
pub fn has_state(set: u64, q: u64) -> bool
    ensures answer { result ≡ has_state set q }
{
    q < 16 && (set >> q) % 2 == 1
}
