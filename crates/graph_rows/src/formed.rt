// Whether a row of the table can be written as a line of its section.
ghost use Rattle.std.specs.Prelude.{◌≡◌};
ghost use Rattle.text_field.specs.Bytes.{is_capital, is_lower};
ghost use Rattle.graph_rows.specs.Format.{shape_at, every_item};
ghost use Rattle.graph_rows.specs.Values.{field_formed, item_formed, idle_zeros, formed};
ghost use Rattle.graph_rows.specs.Table.{content_meaning, item_meaning, items_at, Known};

use crate::format::{Layout, PLAIN_KIND, codes_from};
use crate::items::{Content, Item};
use crate::rows::VALUES;
use text_field::{get_or, is_name};

// The greatest number of five digits.
const MOST_NUMBER: u64 = 99999;

// Is it a label's letter, A to Z?
#[tactic(auto, unfolding(text_field::specs::Bytes::is_capital, text_field::specs::Bytes::within))]
fn is_letter(v: u64) -> bool
    ensures answer { result ≡ is_capital v }
{
    u64::from(b'A') <= v && v <= u64::from(b'Z')
}

// Is it a kind, a to z?
#[tactic(auto, unfolding(text_field::specs::Bytes::is_lower, text_field::specs::Bytes::within))]
fn is_kind(v: u64) -> bool
    ensures answer { result ≡ is_lower v }
{
    u64::from(b'a') <= v && v <= u64::from(b'z')
}

// Has the value of a field a text of its form, by what the field holds?
#[tactic(auto, unfolding(crate::specs::Values::field_formed, crate::specs::Table::content_meaning))]
fn field_formed(content: Content, v: u64, w: u64) -> bool
    ensures answer { result ≡ field_formed (content_meaning content) v w }
{
    match content {
        Content::State => v <= MOST_NUMBER,
        Content::Scope => v <= MOST_NUMBER,
        Content::Mark => v <= MOST_NUMBER,
        Content::Count => v <= MOST_NUMBER,
        Content::Letter => is_letter(v),
        Content::Label => true,
        Content::End => true,
        Content::Name => is_name(v, w),
        Content::Kind => is_kind(v),
        Content::PlainKind => v == PLAIN_KIND,
        Content::Turn => v <= MOST_NUMBER,
    }
}

// Have the values that the row holds for an item a text of its form?
#[tactic(auto, unfolding(crate::specs::Values::item_formed, crate::specs::Table::item_meaning))]
fn item_formed(item: Item, row: &[u64]) -> bool
    ensures answer { result ≡ item_formed row.now (item_meaning item) }
{
    match item {
        Item::Byte(_) => true,
        Item::Field(content, c) => {
            let c = usize::from(c);
            field_formed(content, get_or(row, c, 0), get_or(row, c + 1, 0))
        },
    }
}

// Has every field of the row a text, by the items at a place of the format?
fn items_formed(o: usize, row: &[u64]) -> bool
    ensures answer { result ≡ every_item (item_formed row.now) (items_at o) }
{
    codes_from(o)
        .iter()
        .take_while(|x| **x != b'\n')
        .all(|x| item_formed(Item::of(*x), row))
}

// Do all places of the row after the first ones, which the items of its line fill, hold 0?
fn idle_zeros(s: Layout, row: &[u64]) -> bool
    requires layout { Known s }
    ensures answer { result ≡ idle_zeros (shape_at s.form s.section).row row.now }
{
    (s.filled..VALUES).all(|d| get_or(row, d, 0) == 0)
}

// Can the row be written as a line of a section?
pub fn is_formed(s: Layout, row: &[u64]) -> bool
    requires layout { Known s }
    ensures answer { result ≡ formed (shape_at s.form s.section).row row.now }
{
    items_formed(s.line, row) && idle_zeros(s, row)
}
