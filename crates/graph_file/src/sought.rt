// The name that a query seeks, handed back as the part of the lent text that holds it.
ghost use Rattle.std.specs.Prelude.{◌≡◌, [], ◌+◌, ◌-◌, ◌≤◌, length, drop, IfSome};
ghost use Rattle.graph_rows.specs.Format.{field, kind, shape_at, query_section};
ghost use Rattle.graph_file.specs.Line.{read_item};
ghost use Rattle.graph_file.specs.NameSought.{after_lines, line_count, rest_of, from_name, name_front, place_from, name_sought, place_sought};
ghost use Rattle.graph_file.specs.Reader.{passed, rest_after};

use crate::line::take_bare;
use crate::reader::{OWN_CELLS, read_whole};
use graph_rows::has_kinds;
use text_field::{is_lower, next_line, read_name, read_number};

// The place of a name's first byte in the text, and the place after its last. The theorems on it
// (specs/Sought) call them `from` and `to`, so it is no Range.
#[derive(Clone, Copy)]
pub struct NamePlace {
    pub from: usize,
    pub to: usize,
}

// How many lines the text has.
pub fn line_count(text: &[u8]) -> usize
    ensures answer { result ≡ line_count text.now }
{
    text.iter().filter(|b| **b == b'\n').count()
}

// The place after the first `lines` lines; the text's end if it has fewer.
fn after_lines(text: &[u8], lines: usize) -> usize
    ensures place { drop result text.now ≡ after_lines lines text.now }
{
    let mut at: usize = 0;
    for _ in 0..lines {
        let Some((_, next)) = next_line(text, at) else {
            return text.len();
        };
        at = next;
    }
    at
}

// The place after the kind that stands at a place.
fn past_kind(text: &[u8], at: usize) -> Option<usize>
    ensures place { rest_after result text.now
        ≡ rest_of (read_item [] (field kind 1) (drop at text.now)) }
    ensures inside { IfSome result (λ next. next ≤ length text.now) }
{
    if !is_lower(*text.get(at)?) {
        return None;
    }
    Some(at + 1)
}

// Where the name stands in the query's line at a place, in a file of a form: behind the start and a
// space, and behind a kind and a space where there are kinds. None where the line is another one.
fn name_start(text: &[u8], form: u64, at: usize) -> Option<usize>
    ensures place { rest_after result text.now
        ≡ from_name (shape_at form query_section).row (drop at text.now) }
    ensures inside { IfSome result (λ next. next ≤ length text.now) }
{
    let (_, next) = read_number(text, at)?;
    let name = take_bare(b' ', text, next)?;
    if !has_kinds(form) {
        return Some(name);
    }
    take_bare(b' ', text, past_kind(text, name)?)
}

// The place after the name that stands at a place; the same place where none does.
fn name_stop(text: &[u8], at: usize) -> usize
    ensures answer { result ≡ at + length (name_front (drop at text.now)) }
{
    let Some((_, _, end)) = read_name(text, at) else {
        return at;
    };
    end
}

// The name in the query's line after so many lines.
fn name_after(text: &[u8], form: u64, lines: usize) -> NamePlace
    ensures answer { result ≡ place_from text.now
        (from_name (shape_at form query_section).row (after_lines lines text.now)) }
{
    let from = name_start(text, form, after_lines(text, lines)).unwrap_or(text.len());
    NamePlace {
        from,
        to: name_stop(text, from),
    }
}

// Where the name that a query of the file seeks stands in the text; the text's end where a refusal
// stands in the way.
pub fn name_place(text: &[u8], query: usize) -> NamePlace
    ensures answer { result ≡ place_sought text.now query }
{
    let none = NamePlace {
        from: text.len(),
        to: text.len(),
    };
    let mut own = [0u64; OWN_CELLS];
    let Ok(r) = read_whole(text, &mut own) else {
        return none;
    };
    let n = r.counts.rows as usize;
    if n <= query {
        return none;
    }
    // an accepted file has more lines than queries
    name_after(text, own[0], line_count(text).saturating_sub(n) + query)
}

// The name that a query of the file seeks, as a part of the lent text; an empty part where a
// refusal stands in the way. The contract speaks of the part's bytes; that it is a part of the
// text, and no copy, is the function's type.
pub fn name_sought(text: &[u8], query: usize) -> &[u8]
    ensures answer { result.now ≡ name_sought text.now query }
{
    let p = name_place(text, query);
    &text[p.from..p.to]
}
