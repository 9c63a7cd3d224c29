// One line of the file, read against the items at a place of the format.
ghost use Rattle.std.specs.Prelude.{◌≡◌, ◌≤◌, [], drop, length, set, IfSome};
ghost use Rattle.std.proofs.lemmas.List.Edits.{sets};
ghost use Rattle.text_field.specs.Number.{number_here};
ghost use Rattle.text_field.specs.Name.{name_here};
ghost use Rattle.graph_rows.specs.Format.{byte, kind_form, turn_form, edge_section, declaration_section};
ghost use Rattle.graph_rows.specs.Admission.{blank};
ghost use Rattle.graph_file.specs.Line.{number_taken, name_taken, byte_taken, end_taken, read_field, read_item, read_items};
ghost use Rattle.graph_rows.specs.Table.{content_meaning, item_meaning, items_at, letters_at};
ghost use Rattle.graph_file.specs.File.{read_names, form_shown, form_with};
ghost use Rattle.graph_rows.specs.Tested.{form_in};
ghost use Rattle.graph_file.specs.Reader.{values_of, took, passed, row_outcome, line_outcome, item_line};

use graph_rows::{
    Content, DECLARATIONS, EDGES, Item, KIND_FORM, OLD_FORM, PLAIN_KIND, TURN_FORM, codes_from,
    form_in, has_turns, label_place, names_place,
};
use text_field::{get_or, is_capital, is_lower, read_name, read_number};

// The values of a field: one, or a name's two.
#[derive(Clone, Copy)]
pub enum Taken {
    One(u64),
    Two(u64, u64),
}

// What a line gives: the row's values, and the place after the line.
#[derive(Clone, Copy)]
pub struct Line {
    pub row: [u64; 5],
    pub next: usize,
}

// The place after the byte at a place; at the end of the text there is none.
fn past(text: &[u8], at: usize) -> usize
    ensures place { drop result text.now ≡ drop 1 (drop at text.now) }
{
    if at < text.len() { at + 1 } else { at }
}

fn take_number(text: &[u8], at: usize) -> Option<(Taken, usize)>
    ensures answer { took result text.now
        ≡ number_taken (number_here (drop at text.now)) (drop at text.now) }
{
    let (v, next) = read_number(text, at)?;
    Some((Taken::One(v), next))
}

fn take_name(text: &[u8], at: usize) -> Option<(Taken, usize)>
    ensures answer { took result text.now
        ≡ name_taken (name_here (drop at text.now)) (drop at text.now) }
{
    let (high, low, next) = read_name(text, at)?;
    Some((Taken::Two(high, low), next))
}

// One byte that stands for v, if it is of its class.
fn take_byte(of_class: bool, v: u64, text: &[u8], at: usize) -> Option<(Taken, usize)>
    ensures answer { took result text.now ≡ byte_taken of_class v (drop at text.now) }
{
    of_class.then_some((Taken::One(v), past(text, at)))
}

// An end by its byte: the end mark `$`, or a label's letter.
fn take_end(table: &[u64], labels: u32, x: u8, text: &[u8], at: usize) -> Option<(Taken, usize)>
    ensures answer { took result text.now
        ≡ end_taken (letters_at labels (drop 1 table.now)) x (drop at text.now) }
{
    if x == b'$' {
        return take_byte(true, 0, text, at);
    }
    let n = label_place(table, labels, x as u64) as u64;
    take_byte(is_capital(x), n + 1, text, at)
}

// A field, by what it holds.
fn take_field(
    table: &[u64],
    labels: u32,
    content: Content,
    text: &[u8],
    at: usize,
) -> Option<(Taken, usize)>
    ensures answer { took result text.now
        ≡ read_field (letters_at labels (drop 1 table.now)) (content_meaning content)
        (drop at text.now) }
{
    let x = get_or(text, at, 0);
    match content {
        Content::State | Content::Scope | Content::Mark | Content::Count | Content::Turn => {
            take_number(text, at)
        },
        Content::Letter => take_byte(is_capital(x), x as u64, text, at),
        Content::Label => {
            let n = label_place(table, labels, x as u64) as u64;
            take_byte(is_capital(x), n, text, at)
        },
        Content::End => take_end(table, labels, x, text, at),
        Content::Name => take_name(text, at),
        Content::Kind => take_byte(is_lower(x), x as u64, text, at),
        Content::PlainKind => Some((Taken::One(PLAIN_KIND), at)),
    }
}

// The place after a byte that must stand there as it is.
pub fn take_bare(x: u8, text: &[u8], at: usize) -> Option<usize>
    ensures answer { passed result text.now ≡ read_item [] (byte x) (drop at text.now) }
    ensures inside { IfSome result (λ next. next ≤ length text.now) }
{
    if *text.get(at)? != x {
        return None;
    }
    Some(at + 1)
}

// A value put at a place of the row.
fn put_value(row: &mut [u64], c: usize, v: u64)
    ensures written { row.new ≡ set row.old c v }
{
    if c < row.len() {
        row[c] = v;
    }
}

// A field's values put into the row, from a place on.
fn put_values(row: &mut [u64], c: u8, values: Taken)
    ensures written { row.new ≡ sets row.old c (values_of values) }
{
    let c = usize::from(c);
    match values {
        Taken::One(v) => put_value(row, c, v),
        Taken::Two(v, w) => {
            put_value(row, c, v);
            put_value(row, c + 1, w);
        },
    }
}

// One item of a line, its values put into the row. Returns the place after it.
fn line_item(
    table: &[u64],
    labels: u32,
    item: Item,
    row: &mut [u64],
    text: &[u8],
    at: usize,
) -> Option<usize>
    ensures answer { row_outcome result row.new text.now
        ≡ item_line (letters_at labels (drop 1 table.now)) (item_meaning item) row.old
        (drop at text.now) }
{
    match item {
        Item::Byte(b) => take_bare(b, text, at),
        Item::Field(content, c) => {
            let (values, next) = take_field(table, labels, content, text, at)?;
            put_values(row, c, values);
            Some(next)
        },
    }
}

// The line at a place of the text against the items at a place of the format, read into an empty
// row.
pub fn read_line(table: &[u64], labels: u32, o: usize, text: &[u8], at: usize) -> Option<Line>
    ensures answer { line_outcome result text.now
        ≡ read_items (letters_at labels (drop 1 table.now)) (items_at o) blank
        (drop at text.now) }
{
    let mut row = [0u64; 5];
    let mut place = at;
    for &x in codes_from(o) {
        if x == b'\n' {
            break;
        }
        place = line_item(table, labels, Item::of(x), &mut row, text, place)?;
    }
    let next = take_bare(b'\n', text, place)?;
    Some(Line { row, next })
}

// The form, where its names line of section k stands at a place of the text; else the old one.
fn form_at(table: &[u64], form: u64, k: usize, text: &[u8], at: usize) -> u64
    ensures answer { result ≡ form_shown form (read_names form k (drop at text.now)) }
{
    match read_line(table, 0, names_place(form, k), text, at) {
        Some(_) => form,
        None => OLD_FORM,
    }
}

// Does the part of a text begin with turns' names line of edges? Then it is of the form with turns.
// The byte that tells `from label turn to` from `from label to` is looked at first, so that a text
// without turns is not read against the longer line.
pub fn turns_at(table: &[u64], part: &[u8]) -> u64
    ensures answer { result ≡ form_shown turn_form (read_names turn_form edge_section part.now) }
{
    if get_or(part, 12, 0) != b'u' {
        return OLD_FORM;
    }
    form_at(table, TURN_FORM, EDGES, part, 0)
}

// The form of a text whose edges were read: the one with turns if the table's first cell says so,
// else as the text shows it at a place where the names line of declarations is due.
pub fn kinds_at(table: &[u64], text: &[u8], at: usize) -> u64
    ensures answer { result ≡ form_with (form_in table.now)
        (form_shown kind_form (read_names kind_form declaration_section (drop at text.now))) }
{
    if has_turns(form_in(table)) {
        return TURN_FORM;
    }
    form_at(table, KIND_FORM, DECLARATIONS, text, at)
}
