// An expression read byte by byte (02, K6), with no tree in memory: of each part that is read only
// which positions may come first and last, and whether it may be empty, and of all positions which
// may follow which.
ghost use Rattle.std.specs.Prelude.{◌≡◌, ◌<◌, ◌≤◌};
ghost use Rattle.std.specs.Option.{option_map};
ghost use Rattle.path_rules.specs.Parts.{seq_part, alt_part, star_part, letter_part, link_cell, linked};
ghost use Rattle.path_rules.specs.Grammar.{place_of};
ghost use Rattle.path_rules.specs.Reading.{fresh, merged, chosen, pushed, popped, repeated, opened, closed, starred, barred, placed, lettered, read_byte, read_all};

use crate::sets::{LABELS, POSITIONS, bit, has_bit, only_if};
use std::array;

// How many bracket pairs may be open at once: no more than an expression has bytes.
pub const OPEN: usize = 64;

// What is kept of a part: whether it may be empty, and which positions may come first and last.
#[derive(Clone, Copy)]
pub struct Part {
    pub nullable: bool,
    pub first: u64,
    pub last: u64,
}

// The part that is no word, which stands before the first sequence of a choice.
const NO_PART: Part = Part {
    nullable: false,
    first: 0,
    last: 0,
};

// The part that is the empty word only, which stands before the first item of a sequence.
const EMPTY_PART: Part = Part {
    nullable: true,
    first: 0,
    last: 0,
};

// What is known after the bytes so far: the choice and the sequence being read, the item before the
// next byte, if there is one, and what stands before the open brackets; where a position may go on
// to, and its label.
#[derive(Clone, Copy)]
pub struct Reading {
    pub alt: Part,
    pub seq: Part,
    pub atom: Option<Part>,
    pub depth: usize,
    pub letters: usize,
    pub after: [u64; POSITIONS],
    pub labels: [u64; POSITIONS],
    pub alts: [Part; OPEN],
    pub seqs: [Part; OPEN],
}

fn letter_part(at: u64) -> Part
    ensures answer { result ≡ letter_part at }
{
    Part {
        nullable: false,
        first: at,
        last: at,
    }
}

fn seq_part(a: Part, b: Part) -> Part
    ensures answer { result ≡ seq_part a b }
{
    Part {
        nullable: a.nullable && b.nullable,
        first: a.first | only_if(a.nullable, b.first),
        last: b.last | only_if(b.nullable, a.last),
    }
}

fn alt_part(a: Part, b: Part) -> Part
    ensures answer { result ≡ alt_part a b }
{
    Part {
        nullable: a.nullable || b.nullable,
        first: a.first | b.first,
        last: a.last | b.last,
    }
}

fn star_part(a: Part) -> Part
    ensures answer { result ≡ star_part a }
{
    Part {
        nullable: true,
        ..a
    }
}

// Where position p may go on to, when each of `lasts` may go on to `firsts` too.
#[tactic(auto, unfolding(crate::specs::Parts::link_cell))]
fn link_cell(after: &[u64; POSITIONS], lasts: u64, firsts: u64, p: usize) -> u64
    requires position { p < 10 }
    ensures answer { result ≡ link_cell after.now lasts firsts p }
{
    after[p] | only_if(has_bit(lasts, p as u64), firsts)
}

pub fn link(after: &[u64; POSITIONS], lasts: u64, firsts: u64) -> [u64; POSITIONS]
    ensures answer { result ≡ linked after.now lasts firsts }
{
    array::from_fn(|p| link_cell(after, lasts, firsts, p))
}

// The item, if there is one, joined to the sequence before it.
#[tactic(auto, unfolding(crate::specs::Reading::seq_with, crate::specs::Reading::linked_with))]
fn merge(s: &mut Reading)
    ensures answer { s.new ≡ merged s.old }
{
    if let Some(atom) = s.atom {
        s.after = link(&s.after, s.seq.last, atom.first);
        s.seq = seq_part(s.seq, atom);
        s.atom = None;
    }
}

// The sequence joined to the choice before it.
fn choose(s: &mut Reading)
    ensures answer { s.new ≡ chosen s.old }
{
    s.alt = alt_part(s.alt, s.seq);
    s.seq = EMPTY_PART;
    s.atom = None;
}

// Choice and sequence laid aside while a bracket pair is read.
fn push(s: &mut Reading)
    requires depth { s.old.depth < 64 }
    ensures answer { s.new ≡ pushed s.old }
{
    s.alts[s.depth] = s.alt;
    s.seqs[s.depth] = s.seq;
    s.alt = NO_PART;
    s.seq = EMPTY_PART;
    s.atom = None;
    s.depth += 1;
}

// What was read between brackets is the next item behind what was laid aside.
fn pop(s: &mut Reading)
    requires depth { (0 < s.old.depth) × (s.old.depth ≤ 64) }
    ensures answer { s.new ≡ popped s.old }
{
    s.depth -= 1;
    s.atom = Some(s.alt);
    s.alt = s.alts[s.depth];
    s.seq = s.seqs[s.depth];
}

// The item any number of times.
fn repeat(s: &mut Reading, atom: Part)
    ensures answer { s.new ≡ repeated s.old atom }
{
    s.atom = Some(star_part(atom));
    s.after = link(&s.after, atom.last, atom.first);
}

// A letter is the next item; its position is the number of letters before it.
fn put_letter(s: &mut Reading, label: usize)
    requires letters { s.old.letters < 10 }
    ensures answer { s.new ≡ placed s.old label }
{
    s.labels[s.letters] = label as u64;
    s.atom = Some(letter_part(bit(s.letters as u64)));
    s.letters += 1;
}

#[tactic(auto, unfolding(crate::specs::Reading::opened))]
fn open(s: &mut Reading) -> Option<()>
    ensures answer { option_map (λ _. s.new) result ≡ opened s.old }
{
    if s.depth < OPEN {
        merge(s);
        push(s);
        Some(())
    } else {
        None
    }
}

#[tactic(auto, unfolding(crate::specs::Reading::closed))]
fn close(s: &mut Reading) -> Option<()>
    requires depth { s.old.depth ≤ 64 }
    ensures answer { option_map (λ _. s.new) result ≡ closed s.old }
{
    if s.atom.is_some() && 0 < s.depth {
        merge(s);
        choose(s);
        pop(s);
        Some(())
    } else {
        None
    }
}

#[tactic(auto, unfolding(crate::specs::Reading::starred))]
fn star(s: &mut Reading) -> Option<()>
    ensures answer { option_map (λ _. s.new) result ≡ starred s.old }
{
    let atom = s.atom?;
    repeat(s, atom);
    Some(())
}

#[tactic(auto, unfolding(crate::specs::Reading::barred))]
fn bar(s: &mut Reading) -> Option<()>
    ensures answer { option_map (λ _. s.new) result ≡ barred s.old }
{
    if s.atom.is_some() {
        merge(s);
        choose(s);
        Some(())
    } else {
        None
    }
}

#[tactic(auto, unfolding(crate::specs::Reading::lettered))]
fn letter(s: &mut Reading, label: usize) -> Option<()>
    ensures answer { option_map (λ _. s.new) result ≡ lettered s.old label }
{
    if label < LABELS && s.letters < POSITIONS {
        merge(s);
        put_letter(s, label);
        Some(())
    } else {
        None
    }
}

// The place of a byte among the labels; 8 if it is none of them.
fn place(labels: &[u8], b: u8) -> usize
    ensures answer { result ≡ place_of 0 b labels.now }
{
    labels.iter().position(|l| *l == b).unwrap_or(LABELS)
}

// One byte more; none if no expression begins so.
#[tactic(auto, unfolding(crate::specs::Reading::read_byte, crate::specs::Reading::by_kind))]
fn read_byte(labels: &[u8], s: &mut Reading, b: u8) -> Option<()>
    requires depth { s.old.depth ≤ 64 }
    ensures answer { option_map (λ _. s.new) result ≡ read_byte labels.now s.old b }
{
    match b {
        b'(' => open(s),
        b')' => close(s),
        b'*' => star(s),
        b'|' => bar(s),
        _ => letter(s, place(labels, b)),
    }
}

// Nothing read yet.
#[tactic(auto, unfolding(crate::specs::Reading::fresh))]
fn nothing() -> Reading
    ensures answer { result ≡ fresh }
{
    Reading {
        alt: NO_PART,
        seq: EMPTY_PART,
        atom: None,
        depth: 0,
        letters: 0,
        after: [0; POSITIONS],
        labels: [LABELS as u64; POSITIONS],
        alts: [NO_PART; OPEN],
        seqs: [EMPTY_PART; OPEN],
    }
}

// What is known after all bytes; none if no expression begins so.
pub fn read(labels: &[u8], text: &[u8]) -> Option<Reading>
    ensures answer { result ≡ read_all labels.now fresh text.now }
{
    let mut s = nothing();
    for &b in text {
        read_byte(labels, &mut s, b)?;
    }
    Some(s)
}

// The choice as a whole, with the last sequence and item.
pub fn finish(mut s: Reading) -> Reading
    ensures answer { result ≡ chosen (merged s) }
{
    merge(&mut s);
    choose(&mut s);
    s
}
