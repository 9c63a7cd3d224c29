// Which free scopes can be come to from a scope by its neighbours. A scope's neighbours are those
// that its edges lead to; a table has a set of them for each of 64 scopes.
ghost use Rattle.std.specs.Prelude.{◌≡◌, true, ◌<◌, length};
ghost use Rattle.scope_graph.specs.Language.{◌∈◌};
ghost use Rattle.scope_graph.specs.Path.{HopOf};
ghost use Rattle.scope_graph.specs.Turns.{Turned};
ghost use Rattle.block.specs.Sets.{has_scope};
ghost use Rattle.block.specs.Block.{block_hops};
ghost use Rattle.beginnings.specs.Steps.{Covers, Flooded};

use block::{SIZE, edge_at, edge_scope, edges_end, edges_from, single, taken};

// The neighbours of a scope.
fn near_of(block: &[u64; SIZE], s: u64) -> u64
    requires scope { s < 64 }
    ensures covers { (h : HopOf Turned) → h ∈ block_hops block.now s → has_scope result h.to ≡ true }
{
    let mut out: u64 = 0;
    for p in edges_from(block, s)..edges_end(block, s) {
        out |= single(edge_scope(edge_at(block, p)));
    }
    out
}

// The neighbours of all scopes.
pub fn near_table(block: &[u64; SIZE]) -> [u64; 64]
    ensures covers { Covers block.now result }
{
    let mut out = [0u64; 64];
    for s in 0..64 {
        out[s as usize] = near_of(block, s);
    }
    out
}

// The free scopes that can be come to from s by free neighbours: each is looked at once, so 64
// looks are enough. All free scopes are an answer too.
pub fn flood(near: &[u64], free: u64, s: u64) -> u64
    requires near { length near.now ≡ 64 }
    requires scope { s < 64 }
    ensures flooded { Flooded near.now free s result }
{
    let mut seen = near[s as usize] & free;
    let mut todo = seen;
    for _ in 0..64 {
        if todo == 0 {
            return seen;
        }
        let u = u64::trailing_zeros(todo) as u64 % 64;
        let next = near[u as usize] & free;
        let more = next ^ (next & seen);
        seen |= more;
        todo = taken(todo, u) | more;
    }
    free
}
