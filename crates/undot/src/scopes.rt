// The scopes that a drawing has and those of a file.
ghost use Rattle.std.specs.Prelude.{◌≡◌, ◌≤◌, drop};
ghost use Rattle.dot_text.specs.Reading.{scopes_next};
ghost use Rattle.undot.specs.Scopes.{file_scopes};

use dot_text::scope;

// The scopes of a file at most (document 01, "The gym file").
const MOST_SCOPES: usize = 64;

// Are the scopes drawn from a place on those of a file with `count`, each once?
pub fn has_scopes(dot: &[u8], at: usize, count: u64) -> bool
    requires few { count ≤ 64 }
    ensures answer { result ≡ file_scopes count (scopes_next (drop at dot.now)).value }
{
    let mut met = [false; MOST_SCOPES];
    let mut number: u64 = 0;
    let mut p = at;
    while let Some((s, next)) = scope(dot, p) {
        if count <= s {
            return false;
        }
        let i = s as usize;
        if met[i] {
            return false;
        }
        met[i] = true;
        number += 1;
        p = next;
    }
    number == count
}
