// What a host written in C or Rust calls. A slice is passed as its address and its length. Every
// answer is one number, which include/tewhoranu.h takes apart; only `tewhoranu_name_sought` answers
// a length, and `tewhoranu_version` the version of this interface.
#![tactic(auto)]

mod numbers;

ghost use Rattle.std.specs.Prelude.{◌≡◌, length};
ghost use Rattle.graph_file.specs.File.{read_cells, write_text};
ghost use Rattle.text_field.specs.Answer.{answer, leaves};
ghost use Rattle.graph_file.specs.NameSought.{name_sought};
ghost use Rattle.path_row.specs.Lent.{steps_left};
ghost use Rattle.comparison.specs.Compare.{compare_answer};
ghost use Rattle.resolution.specs.Listing.{listing_for, summary_for};
ghost use Rattle.beginnings.specs.Beginnings.{count_for};
ghost use Rattle.beginnings.specs.Counted.{followed_leaves};
ghost use Rattle.judge.specs.Judge.{judge_answer};
ghost use Rattle.conversion.specs.Conversion.{old_of, new_of};
ghost use Rattle.ruled.specs.Ruled.{ruled_of};
ghost use Rattle.readers.specs.Readers.{readers_for};
ghost use Rattle.renumbering.specs.Renumbering.{renumber_of, room_for, sizes_of, file_of, list_of, back_for};
ghost use Rattle.renumbering.specs.Alone.{file_size};
ghost use Rattle.dot.specs.Drawing.{dot_of};
ghost use Rattle.undot.specs.Undrawn.{undot_of};
ghost use Rattle.tewhoranu.specs.Numbers.{interface_version, written, compared, judged, place_left, listed_left};

use crate::numbers::{compared_number, judged_number, list_bytes, written_number};
use beginnings::listing_counted;
use comparison::compare_text;
use conversion::{to_new, to_old};
use dot::dot;
use graph_file::{name_place, read, write};
use judge::judge_text;
use path_row::form::Step;
use path_row::lent::fill;
use readers::readers;
use renumbering::{back, file_answer, renumber};
use resolution::{listing, summary};
use ruled::rules;
use undot::undot;

// The number that include/tewhoranu.h has as TEWHORANU_VERSION. It goes up when a function gets other
// arguments or answers than an older header says.
const VERSION: u64 = 1;

// The version of this interface, for a host that was compiled with some version's header.
#[unsafe(no_mangle)]
pub extern "C" fn tewhoranu_version() -> u64
    ensures answer { result ≡ interface_version }
{
    VERSION
}

// A gym file's text read into the lent table.
#[unsafe(no_mangle)]
pub extern "C" fn tewhoranu_read(text: &[u8], table: &mut [u64]) -> u64
    ensures answer { result ≡ written (answer (read_cells text.now) (length table.old)) }
    ensures memory { table.new ≡ leaves (read_cells text.now) table.old }
{
    written_number(read(text, table))
}

// A graph table written into the lent buffer as a gym file's text.
#[unsafe(no_mangle)]
pub extern "C" fn tewhoranu_write(table: &[u64], out: &mut [u8]) -> u64
    ensures answer { result ≡ written (answer (write_text table.now) (length out.old)) }
    ensures memory { out.new ≡ leaves (write_text table.now) out.old }
{
    written_number(write(table, out))
}

// The name that a query seeks: its length, 0 where a refusal stands in the way, and the place of
// its first byte in the text. No copy is made.
#[unsafe(no_mangle)]
pub extern "C" fn tewhoranu_name_sought(text: &[u8], query: usize, place: &mut u64) -> u64
    ensures answer { result ≡ length (name_sought text.now query) }
    ensures place { place.new ≡ place_left text.now query place.old }
{
    let p = name_place(text, query);
    let from = p.from;
    let to = p.to;
    if to <= from {
        return 0;
    }
    *place = from as u64;
    (to - from) as u64
}

// A query's listing, written into the lent buffer.
#[unsafe(no_mangle)]
pub extern "C" fn tewhoranu_listing(text: &[u8], query: usize, out: &mut [u8]) -> u64
    ensures answer { result ≡ written (answer (listing_for text.now query) (length out.old)) }
    ensures memory { out.new ≡ leaves (listing_for text.now query) out.old }
{
    written_number(listing(text, query, out))
}

// The same listing, and beside it the number of lawful beginnings that the query follows. Counting
// may take longer than listing.
#[unsafe(no_mangle)]
pub extern "C" fn tewhoranu_listing_counted(
    text: &[u8],
    query: usize,
    out: &mut [u8],
    followed: &mut u64,
) -> u64
    ensures answer { result ≡ written (answer (listing_for text.now query) (length out.old)) }
    ensures memory { out.new ≡ leaves (listing_for text.now query) out.old }
    ensures followed { followed.new ≡
        followed_leaves (answer (listing_for text.now query) (length out.old))
        (count_for text.now query) followed.old }
{
    written_number(listing_counted(text, query, out, followed))
}

// The standing of a path row for a query of a gym file's text. The row's steps go into the lent
// table.
#[unsafe(no_mangle)]
pub extern "C" fn tewhoranu_judge<'s, 'o>(
    text: &'s [u8],
    query: usize,
    row: &'s [u8],
    steps: &'o mut [Step],
) -> u64
    ensures answer_and_memory { (result ≡ judged (judge_answer text.now query row.now (length steps.old)))
        × (steps.new ≡
        steps_left (judge_answer text.now query row.now (length steps.old))
        row.now steps.old) }
{
    let told = judge_text(text, query, row, steps.len());
    fill(steps, told.steps);
    judged_number(told.answer)
}

// Which of two path rows is more specific, by the order of a gym file's text. The steps of each go
// into the table lent for it.
#[unsafe(no_mangle)]
pub extern "C" fn tewhoranu_compare<'s, 'p, 'q>(
    text: &'s [u8],
    a: &'s [u8],
    b: &'s [u8],
    first: &'p mut [Step],
    second: &'q mut [Step],
) -> u64
    ensures answer_and_memory { (result ≡ compared
        (compare_answer text.now a.now b.now
        (length first.old) (length second.old)))
        × (first.new ≡ steps_left
        (compare_answer text.now a.now b.now
        (length first.old) (length second.old))
        a.now first.old)
        × (second.new ≡ steps_left
        (compare_answer text.now a.now b.now
        (length first.old) (length second.old))
        b.now second.old) }
{
    let told = compare_text(text, a, b, first.len(), second.len());
    fill(first, told.first);
    fill(second, told.second);
    compared_number(told.answer)
}

// The summary, written into the lent buffer.
#[unsafe(no_mangle)]
pub extern "C" fn tewhoranu_summary(text: &[u8], out: &mut [u8]) -> u64
    ensures answer { result ≡ written (answer (summary_for text.now) (length out.old)) }
    ensures memory { out.new ≡ leaves (summary_for text.now) out.old }
{
    written_number(summary(text, out))
}

// A gym file's text in the old form, written into the lent buffer.
#[unsafe(no_mangle)]
pub extern "C" fn tewhoranu_to_old(text: &[u8], out: &mut [u8]) -> u64
    ensures answer { result ≡ written (answer (old_of text.now) (length out.old)) }
    ensures memory { out.new ≡ leaves (old_of text.now) out.old }
{
    written_number(to_old(text, out))
}

// A gym file's text in a form with kinds, one with turns as it is, written into the lent buffer.
#[unsafe(no_mangle)]
pub extern "C" fn tewhoranu_to_new(text: &[u8], out: &mut [u8]) -> u64
    ensures answer { result ≡ written (answer (new_of text.now) (length out.old)) }
    ensures memory { out.new ≡ leaves (new_of text.now) out.old }
{
    written_number(to_new(text, out))
}

// A gym file's text with the path rules of an expression in place of its own, written into the lent
// buffer.
#[unsafe(no_mangle)]
pub extern "C" fn tewhoranu_rules(text: &[u8], expression: &[u8], out: &mut [u8]) -> u64
    ensures answer { result ≡ written (answer (ruled_of expression.now text.now) (length out.old)) }
    ensures memory { out.new ≡ leaves (ruled_of expression.now text.now) out.old }
{
    written_number(rules(text, expression, out))
}

// The scopes that see a declaration of a gym file's text, given its place among the rows, written
// into the lent buffer.
#[unsafe(no_mangle)]
pub extern "C" fn tewhoranu_readers(text: &[u8], place: usize, out: &mut [u8]) -> u64
    ensures answer { result ≡ written (answer (readers_for text.now place) (length out.old)) }
    ensures memory { out.new ≡ leaves (readers_for text.now place) out.old }
{
    written_number(readers(text, place, out))
}

// A gym file's text with its scopes numbered for storage, and the list of their old numbers, each
// written into the buffer lent for it. How many bytes the list has goes into `listed`.
#[unsafe(no_mangle)]
pub extern "C" fn tewhoranu_renumber(
    text: &[u8],
    out: &mut [u8],
    list: &mut [u8],
    listed: &mut u64,
) -> u64
    ensures answer { result ≡ written
        (file_size (sizes_of (room_for (length out.old) (length list.old) (renumber_of text.now)))) }
    ensures file { out.new ≡ leaves
        (file_of (room_for (length out.old) (length list.old) (renumber_of text.now))) out.old }
    ensures list { list.new ≡ leaves
        (list_of (room_for (length out.old) (length list.old) (renumber_of text.now))) list.old }
    ensures listed { listed.new ≡ listed_left
        (sizes_of (room_for (length out.old) (length list.old) (renumber_of text.now))) listed.old }
{
    let a = renumber(text, out, list);
    *listed = list_bytes(a, *listed);
    written_number(file_answer(a))
}

// A gym file's text with its scopes under the numbers that a `was` list tells, written into the lent
// buffer.
#[unsafe(no_mangle)]
pub extern "C" fn tewhoranu_back(text: &[u8], was: &[u8], out: &mut [u8]) -> u64
    ensures answer { result ≡ written (answer (back_for text.now was.now) (length out.old)) }
    ensures memory { out.new ≡ leaves (back_for text.now was.now) out.old }
{
    written_number(back(text, was, out))
}

// The scopes and edges of a gym file's text in the DOT language, written into the lent buffer.
#[unsafe(no_mangle)]
pub extern "C" fn tewhoranu_dot(text: &[u8], out: &mut [u8]) -> u64
    ensures answer { result ≡ written (answer (dot_of text.now) (length out.old)) }
    ensures memory { out.new ≡ leaves (dot_of text.now) out.old }
{
    written_number(dot(text, out))
}

// A gym file's text with the edges of a DOT text in place of its own, written into the lent buffer.
#[unsafe(no_mangle)]
pub extern "C" fn tewhoranu_undot(text: &[u8], drawn: &[u8], out: &mut [u8]) -> u64
    ensures answer { result ≡ written (answer (undot_of text.now drawn.now) (length out.old)) }
    ensures memory { out.new ≡ leaves (undot_of text.now drawn.now) out.old }
{
    written_number(undot(text, drawn, out))
}
