// Tests whether a row is admitted after the rows so far: refusals 5, 3 and 4.
ghost use Rattle.std.specs.Prelude.{◌≡◌, not, ◌+◌, ◌≤◌, length, drop};
ghost use Rattle.text_field.specs.Answer.{fault_of};
ghost use Rattle.graph_rows.specs.Format.{section_at};
ghost use Rattle.graph_rows.specs.Admission.{row_of, content_in_range, item_in_range, in_range, key_less, listed, ascends, follows, admission};
ghost use Rattle.graph_rows.specs.Table.{content_meaning, item_meaning, items_at, key_at, letters_at, rows_back, sofar_at, Known};
ghost use Rattle.graph_rows.specs.LookBack.{SortedSofar};

use crate::apart::stands_apart;
use crate::format::{
    Layout, MARKS, MOST_SCOPES, STATES, Sequence, TURNS, codes_from, key_place, sequence_of,
};
use crate::items::{Content, Item, place_in};
use crate::rows::{Counts, label_place, row_before, value_at};
use text_field::Refusal;

// Is the value in the range of its field's content?
#[tactic(auto, unfolding(crate::specs::Admission::content_in_range, crate::specs::Table::content_meaning))]
fn content_in_range(labels: u32, scopes: u64, content: Content, v: u64) -> bool
    ensures answer { result ≡ content_in_range labels scopes (content_meaning content) v }
{
    match content {
        Content::State => v < STATES,
        Content::Scope => v < scopes,
        Content::Mark => v < MARKS,
        Content::Count => 1 <= v && v <= MOST_SCOPES,
        Content::Letter => true,
        Content::Label => v < labels as u64,
        Content::End => v <= labels as u64,
        Content::Name => true,
        Content::Kind => true,
        Content::PlainKind => true,
        Content::Turn => v < TURNS,
    }
}

// Is the row's value for the item in its range?
#[tactic(auto, unfolding(crate::specs::Admission::item_in_range, crate::specs::Table::item_meaning))]
fn item_in_range(labels: u32, scopes: u64, item: Item, table: &[u64], p: usize) -> bool
    requires room { p + 6 ≤ length table.now }
    ensures answer { result
        ≡ item_in_range labels scopes (row_of (drop p table.now)) (item_meaning item) }
{
    match item {
        Item::Byte(_) => true,
        Item::Field(content, c) => {
            content_in_range(labels, scopes, content, value_at(table, p, usize::from(c)))
        },
    }
}

// Is every value of the row in its range? The row's items stand at place o of the format.
fn in_range(o: usize, labels: u32, scopes: u64, table: &[u64], p: usize) -> bool
    requires room { p + 6 ≤ length table.now }
    ensures answer { result ≡ in_range labels scopes (items_at o) (row_of (drop p table.now)) }
{
    codes_from(o)
        .iter()
        .take_while(|x| **x != b'\n')
        .all(|x| item_in_range(labels, scopes, Item::of(*x), table, p))
}

// Does the row at place q of a table stand before the one at place p of the same table or another?
// The key stands at place o of the format.
pub fn key_less(o: usize, table: &[u64], q: usize, other: &[u64], p: usize) -> bool
    requires room { (q + 6 ≤ length table.now) × (p + 6 ≤ length other.now) }
    ensures answer { result ≡ key_less (key_at o) (row_of (drop q table.now)) (row_of (drop p other.now)) }
{
    for &x in codes_from(o) {
        if x == b'\n' {
            return false;
        }
        let c = usize::from(place_in(x));
        let v = value_at(table, q, c);
        let w = value_at(other, p, c);
        if v != w {
            return v < w;
        }
    }
    false
}

// Does the row at place p ascend from the one before it? A section's first row does.
fn ascends(k: usize, table: &[u64], p: usize, rows: u32) -> bool
    requires room { p + 6 ≤ length table.now }
    ensures answer { result ≡
        ascends (section_at k).key (rows_back rows p table.now) (row_of (drop p table.now)) }
{
    if rows == 0 {
        return true;
    }
    key_less(key_place(k), table, row_before(p), table, p)
}

// Is x the letter of no label so far?
fn unlisted(table: &[u64], labels: u32, x: u64) -> bool
    ensures answer { result ≡ not (listed x (letters_at labels (drop 1 table.now))) }
{
    label_place(table, labels, x) == labels
}

// May the row at place p follow the section's rows so far?
fn row_follows(k: usize, table: &[u64], p: usize, labels: u32, rows: u32) -> bool
    requires room { p + 6 ≤ length table.now }
    requires sorted { SortedSofar k (rows_back rows p table.now) }
    ensures answer { result ≡ follows (section_at k).sequence (section_at k).key
        (letters_at labels (drop 1 table.now)) (rows_back rows p table.now)
        (row_of (drop p table.now)) }
{
    match sequence_of(k) {
        Sequence::Ascending => ascends(k, table, p, rows),
        Sequence::Apart => stands_apart(table, p, rows),
        Sequence::Once => unlisted(table, labels, value_at(table, p, 0)),
        Sequence::Free => true,
    }
}

// Tests the row at place p as the next row of a section. It is refused by 5, 3 or 4, or admitted.
pub fn admitted(s: Layout, table: &[u64], p: usize, c: Counts) -> Result<(), Refusal>
    requires room { p + 6 ≤ length table.now }
    requires layout { Known s }
    requires sorted { SortedSofar s.section (rows_back c.rows p table.now) }
    ensures answer { fault_of result ≡ admission s.form s.section (sofar_at table.now p c)
        (row_of (drop p table.now)) }
{
    if s.limit <= c.rows as usize {
        return Err(Refusal::TooManyRows);
    }
    if !in_range(s.range, c.labels, c.scopes, table, p) {
        return Err(Refusal::OutOfRange);
    }
    if !row_follows(s.section, table, p, c.labels, c.rows) {
        return Err(Refusal::NotAscending);
    }
    Ok(())
}
