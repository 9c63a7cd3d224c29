// The text of one line, by the items at a place of the format.
ghost use Rattle.std.specs.Prelude.{◌≡◌, ◌%◌, get_or, drop};
ghost use Rattle.text_field.specs.Writing.{Wrote};
ghost use Rattle.graph_file.specs.Line.{end_byte, field_text, item_text, line_text};
ghost use Rattle.graph_rows.specs.Table.{content_meaning, item_meaning, items_at, letters_at};

use graph_rows::{Content, Item, codes_from};
use text_field::{Writer, get_or};

// The letter of a label's number; 0 where there is no such label.
fn letter_of(table: &[u64], labels: u32, v: u64) -> u64
    ensures answer { result ≡ get_or (letters_at labels (drop 1 table.now)) v 0 }
{
    if v < labels as u64 {
        return get_or(table, 1 + 6 * (v as usize) + 1, 0);
    }
    0
}

// The byte of a cell.
fn byte_of(v: u64) -> u8
    ensures answer { result ≡ v % 256 }
{
    (v % 256) as u8
}

// The byte of an end: the end mark `$`, or its label's letter.
fn end_byte(table: &[u64], labels: u32, v: u64) -> u8
    ensures answer { result ≡ end_byte (letters_at labels (drop 1 table.now)) v }
{
    if v == 0 {
        return b'$';
    }
    byte_of(letter_of(table, labels, v - 1))
}

// The text of a field, by what it holds.
fn put_field(table: &[u64], labels: u32, content: Content, v: u64, w: u64, to: &mut Writer)
    ensures wrote { Wrote to.old to.new
        (field_text (letters_at labels (drop 1 table.now)) (content_meaning content) v w) }
{
    match content {
        Content::State | Content::Scope | Content::Mark | Content::Count | Content::Turn => {
            to.put_number(v);
        },
        Content::Letter | Content::Kind => to.put(byte_of(v)),
        Content::Label => to.put(byte_of(letter_of(table, labels, v))),
        Content::End => to.put(end_byte(table, labels, v)),
        Content::Name => to.put_name(v, w),
        Content::PlainKind => {},
    }
}

// The text of an item in a row's line.
fn put_item(table: &[u64], labels: u32, item: Item, row: &[u64], to: &mut Writer)
    ensures wrote { Wrote to.old to.new
        (item_text (letters_at labels (drop 1 table.now)) row.now (item_meaning item)) }
{
    match item {
        Item::Byte(b) => to.put(b),
        Item::Field(content, c) => {
            let c = usize::from(c);
            let v = get_or(row, c, 0);
            let w = get_or(row, c + 1, 0);
            put_field(table, labels, content, v, w, to);
        },
    }
}

// The line of the items at a place of the format: a names line, or a row's line.
pub fn put_line(table: &[u64], labels: u32, o: usize, row: &[u64], to: &mut Writer)
    ensures wrote { Wrote to.old to.new
        (line_text (letters_at labels (drop 1 table.now)) (items_at o) row.now) }
{
    for &x in codes_from(o) {
        if x == b'\n' {
            break;
        }
        put_item(table, labels, Item::of(x), row, to);
    }
    to.put(b'\n');
}
