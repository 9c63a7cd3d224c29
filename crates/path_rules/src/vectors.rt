// For each word the set of positions from which it leads to the end: all such sets, found backwards
// from the end.
ghost use Rattle.std.specs.Prelude.{◌≡◌, ◌≤◌, length};
ghost use Rattle.path_rules.specs.Vectors.{before, onward, first_found, vectors_of, noted, note_turn, vectors, alike_on, same_on, place_same};

use crate::sets::{END, LABELS, POSITIONS, bit, gather, has_bit, meet, only_if};

// How many sets of the ten positions and the word's end there are, and as many turns as there are
// sets and labels.
pub const SETS: usize = 2048;

const TURNS: usize = SETS * LABELS;

// Where each position may go on to, and its label.
#[derive(Clone, Copy)]
pub struct Positions {
    pub after: [u64; POSITIONS],
    pub labels: [u64; POSITIONS],
}

// The positions of the label that go on into the set v.
fn positions_before(positions: &Positions, v: u64, l: u64) -> u64
    ensures answer { result ≡ before positions.now.after positions.now.labels v l }
{
    gather(|p| only_if(
        positions.labels[p] == l && meet(positions.after[p], v),
        bit(p as u64),
    ))
}

// Where the positions of the label in the set go on to.
pub fn positions_after(positions: &Positions, s: u64, l: u64) -> u64
    ensures answer { result ≡ onward positions.now.after positions.now.labels s l }
{
    gather(|p| only_if(
        positions.labels[p] == l && has_bit(s, p as u64),
        positions.after[p],
    ))
}

// The sets found so far, in the first `count` cells.
#[derive(Clone, Copy)]
pub struct Found {
    pub cells: [u64; SETS],
    pub count: usize,
}

impl Found {
    // The end's own set is found first.
    #[tactic(auto, unfolding(crate::specs::Vectors::first_found))]
    fn first() -> Found
        ensures answer { result ≡ first_found }
    {
        let mut found = Found {
            cells: [0; SETS],
            count: 1,
        };
        found.cells[0] = END;
        found
    }

    #[tactic(auto, unfolding(crate::specs::Vectors::vectors_of))]
    pub fn sets(&self) -> &[u64]
        requires held { self.now.count ≤ length self.now.cells }
        ensures answer { result.now ≡ vectors_of self.now }
    {
        &self.cells[..self.count]
    }

    // The set noted, if it is new.
    fn note(&mut self, v: u64)
        requires held { self.old.count ≤ length self.old.cells }
        ensures found { self.new ≡ noted self.old v }
    {
        if self.count < self.cells.len() && !self.sets().contains(&v) {
            self.cells[self.count] = v;
            self.count += 1;
        }
    }

    // Turn k: the set before set k / 8 by label k % 8 noted.
    #[tactic(auto, unfolding(crate::specs::Vectors::note_turn))]
    fn note_turn(&mut self, positions: &Positions, k: usize)
        requires held { self.old.count ≤ length self.old.cells }
        ensures found { self.new ≡ note_turn positions.now.after positions.now.labels k self.old }
    {
        if k / LABELS < self.count {
            let v = self.cells[k / LABELS];
            self.note(positions_before(positions, v, (k % LABELS) as u64));
        }
    }
}

// All sets, found backwards from the end's own.
pub fn find_vectors(positions: &Positions) -> Found
    ensures found { result ≡ vectors positions.now.after positions.now.labels }
{
    let mut found = Found::first();
    for k in 0..TURNS {
        found.note_turn(positions, k);
    }
    found
}

// Does the set v meet both sets, or neither?
#[tactic(auto, unfolding(crate::specs::Vectors::alike_on))]
fn alike(v: u64, a: u64, b: u64) -> bool
    ensures answer { result ≡ alike_on v a b }
{
    meet(a, v) == meet(b, v)
}

// Do two sets meet the same ones?
pub fn same(vs: &[u64], a: u64, b: u64) -> bool
    ensures answer { result ≡ same_on vs.now a b }
{
    vs.iter().all(|v| alike(*v, a, b))
}

// The place of the first set that is the same as t.
pub fn place_same(vs: &[u64], sets: &[u64], t: u64) -> Option<usize>
    ensures answer { result ≡ place_same vs.now sets.now t }
{
    sets.iter().position(|s| same(vs, *s, t))
}
