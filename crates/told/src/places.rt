// Fixed bytes that must stand at a place, and the columns of a query.
ghost use Rattle.std.specs.Prelude.{◌≡◌, ◌<◌, drop};
ghost use Rattle.text_field.specs.Buffer.{Buf, puts};
ghost use Rattle.graph_table.specs.Values.{packed};
ghost use Rattle.follow.specs.Text.{head_line};
ghost use Rattle.told.specs.Apart.{after, query_columns};
ghost use Rattle.told.specs.Steps.{place_meaning};

use graph_table::{Form, QueryRow};
use resolution::put_seek;
use text_field::Writer;

// Room for a query's columns: a scope of at most two digits, a kind, a name of at most 16 bytes and
// three spaces, 22 bytes at most. The proof bounds it by 64.
const COLUMNS: usize = 64;

// The place after the bytes, if they stand at the place.
pub(crate) fn past(s: &[u8], at: usize, bytes: &[u8]) -> Option<usize>
    ensures answer { place_meaning s.now result ≡ after bytes.now (drop at s.now) }
{
    let rest = &s[at.min(s.len())..];
    if !rest.starts_with(bytes) {
        return None;
    }
    Some(at + bytes.len())
}

// The place after a listing's names line, by the file's form.
pub(crate) fn past_names(form: Form, s: &[u8], at: usize) -> Option<usize>
    ensures answer { place_meaning s.now result ≡ after (head_line form) (drop at s.now) }
{
    match form {
        Form::Old => past(s, at, b"start seek found awaits\n"),
        Form::Kinds => past(s, at, b"start kind seek found awaits\n"),
    }
}

// The query's start and what it seeks, each with a space after it.
fn put_columns(form: Form, q: QueryRow, out: &mut [u8]) -> usize
    requires kind { q.name.kind < 256 }
    ensures written { ◌≡◌ {A = Buf} (out.new, result) (puts (out.old, 0) (query_columns form q.start (packed q.name))) }
{
    let mut to = Writer::new(out);
    to.put_number(q.start);
    to.put(b' ');
    put_seek(&mut to, form, q.name);
    to.put(b' ');
    to.end()
}

// The place after the query's columns.
pub(crate) fn past_query(form: Form, q: QueryRow, s: &[u8], at: usize) -> Option<usize>
    requires scope { q.start < 64 }
    requires kind { q.name.kind < 256 }
    ensures answer { place_meaning s.now result ≡ after (query_columns form q.start (packed q.name)) (drop at s.now) }
{
    let mut columns = [0u8; COLUMNS];
    let n = put_columns(form, q, &mut columns);
    past(s, at, &columns[..n])
}
