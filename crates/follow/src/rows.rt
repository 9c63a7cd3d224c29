// One row's text and size, and the rows of the entries at a place.
ghost use Rattle.std.specs.Prelude.{◌≡◌, [], ◌∷◌, ◌+◌, ◌<◌, ◌≤◌, length, map};
ghost use Rattle.text_field.specs.Number.{number_text};
ghost use Rattle.text_field.specs.Writing.{Wrote};
ghost use Rattle.block.specs.Block.{scope_of, hop_of, declared_part};
ghost use Rattle.block.specs.Ask.{ask_start, ask_name};
ghost use Rattle.board.specs.Marks.{marks_in};
ghost use Rattle.follow.specs.Text.{hops_text, row_text};
ghost use Rattle.follow.specs.Tally.{State, keep_row, take_row, take_rows};
ghost use Rattle.follow.specs.Walk.{path_hops, letter_bytes, entry_rows, marks_at};
ghost use Rattle.follow.specs.Steps.{hops_size, path_size};

use crate::count::{is_done, is_room, note, one_more};
use crate::{Path, Setting, Tally};
use block::{SIZE, ask_start, declared_end, declared_from, edge_label, edge_scope, letter};
use board::name_asked;
use graph_table::{ROW, declaration_row, declares};
use path_row::text::{put_front, put_step};
use text_field::{Writer, number_len};

// How many bytes a number takes: those of a file have five digits at most.
fn number_size(v: u64) -> usize
    ensures digits { result ≡ length (number_text v) }
{
    if v < 10 {
        return 1;
    }
    if v < 100 {
        return 2;
    }
    if v < 1000 {
        return 3;
    }
    if v < 10000 {
        return 4;
    }
    number_len(v)
}

// How many bytes a hop takes: its letter and its scope.
fn hop_size(x: u64) -> usize
    ensures bytes { result ≡ 1 + length (number_text (scope_of x)) }
{
    1 + number_size(edge_scope(x))
}

impl Path {
    // The hops as the path holds them, no more than it has places.
    fn as_slice(&self) -> &[u16]
        ensures few { length result.now ≤ 64 }
        ensures hops { map hop_of result.now ≡ path_hops self.now }
    {
        &self.hops[..self.depth.min(64)]
    }
}

// How many bytes the path's hops take.
fn hops_size(path: Path) -> usize
    ensures bytes { result ≡ hops_size (path_hops path) }
{
    let hops = path.as_slice();
    let mut n: usize = 0;
    for &hop in hops {
        n += hop_size(hop as u64);
    }
    n
}

// How many bytes a row takes without its mark.
fn path_size(path: Path, start: u64) -> usize
    ensures bytes { result ≡ path_size start (path_hops path) }
{
    number_size(start) + hops_size(path) + 2
}

// One hop: its letter and the scope it comes to.
fn put_hop(to: &mut Writer, block: &[u64; SIZE], x: u64)
    ensures wrote { Wrote to.old to.new (hops_text (letter_bytes block.now) (hop_of x ∷ [])) }
{
    let shown = letter(block, edge_label(x)) % 256;
    put_step(to, shown as u8, edge_scope(x));
}

// The hops of the path.
fn put_hops(to: &mut Writer, block: &[u64; SIZE], path: Path)
    ensures wrote { Wrote to.old to.new (hops_text (letter_bytes block.now) (path_hops path)) }
{
    let hops = path.as_slice();
    for &x in hops {
        put_hop(to, block, x as u64);
    }
}

// A listing's row: a path row and a line feed.
fn put_row(to: &mut Writer, block: &[u64; SIZE], path: Path, start: u64, mark: u64)
    ensures wrote { Wrote to.old to.new (row_text (letter_bytes block.now) mark start (path_hops path)) }
{
    put_front(to, mark, start);
    put_hops(to, block, path);
    to.put(b'\n');
}

// A listing's row of k bytes, written at place n if it fits whole into the memory and into what is
// kept of it. (No writer is handed on here and above: the tally has the place, and goes on where
// nothing is written.)
fn keep_row(on: &Setting, path: Path, start: u64, mark: u64, k: usize, out: &mut [u8], n: usize)
    requires size { k ≡ length (row_text (letter_bytes on.now.block.now) mark start (path_hops path)) }
    ensures kept { out.new ≡ keep_row on.now.aim.bounds.kept out.old n (row_text (letter_bytes on.now.block.now) mark start (path_hops path)) }
{
    if !is_room(on.aim.bounds.kept, n, k) || !is_room(out.len(), n, k) {
        return;
    }
    let to = &mut Writer::at(out, n);
    put_row(to, on.block, path, start, mark);
}

// One entry, of the declaration with this mark at this scope: its row is counted, noted, measured
// and, where it fits whole, written. `size` is the row's without its mark.
fn put_entry(
    on: &Setting,
    path: Path,
    start: u64,
    size: usize,
    at: u64,
    mark: u64,
    out: &mut [u8],
    tally: Tally,
) -> Tally
    requires measured { size ≡ path_size start (path_hops path) }
    ensures taken { ◌≡◌ {A = State} (out.new, result) (take_row on.now.aim.bounds (out.old, tally) (record { at = at; mark = mark; text = row_text (letter_bytes on.now.block.now) mark start (path_hops path) })) }
{
    let bounds = on.aim.bounds;
    if is_done(bounds, tally) {
        return tally;
    }
    let n = tally.bytes;
    let entries = one_more(bounds.most, tally.entries);
    let seen = note(tally.seen, at, mark);
    if tally.over {
        return Tally {
            bytes: n,
            entries,
            over: true,
            seen,
        };
    }
    let k = number_size(mark) + size;
    if !is_room(bounds.limit, n, k) {
        return Tally {
            bytes: n,
            entries,
            over: true,
            seen,
        };
    }
    keep_row(on, path, start, mark, k, out, n);
    Tally {
        bytes: n + k,
        entries,
        over: false,
        seen,
    }
}

// The entries of the path at s, from these declarations.
fn put_declared(
    on: &Setting,
    decls: &[u64],
    path: Path,
    s: u64,
    out: &mut [u8],
    tally: Tally,
) -> Tally
    ensures taken { ◌≡◌ {A = State} (out.new, result) (take_rows on.now.aim.bounds (out.old, tally) (entry_rows (letter_bytes on.now.block.now) (ask_start on.now.ask.now) (path_hops path) s (marks_in decls.now s (ask_name on.now.ask.now)))) }
{
    let name = name_asked(on.ask);
    let start = ask_start(on.ask);
    let size = path_size(path, start);
    let mut t = tally;
    for i in 0..decls.len() / ROW {
        let row = declaration_row(decls, i * ROW);
        if !declares(row, s, name) {
            continue;
        }
        t = put_entry(on, path, start, size, s, row.mark, out, t);
    }
    t
}

// The scope's declarations: its cells of the table, as far as that has them.
fn declared<'a>(on: &Setting<'a>, s: u64) -> &'a [u64]
    requires scope { s < 64 }
    ensures part { result.now ≡ declared_part on.now.block.now on.now.table.now s }
{
    let end = (declared_end(on.block, s) as usize).min(on.table.len());
    let from = (declared_from(on.block, s) as usize).min(end);
    &on.table[from..end]
}

// The entries of the path at s: one for each declaration of the name there.
pub(crate) fn put_entries(on: &Setting, path: Path, s: u64, out: &mut [u8], tally: Tally) -> Tally
    requires scope { s < 64 }
    ensures taken { ◌≡◌ {A = State} (out.new, result) (take_rows on.now.aim.bounds (out.old, tally) (entry_rows (letter_bytes on.now.block.now) (ask_start on.now.ask.now) (path_hops path) s (marks_at on.now.block.now on.now.table.now on.now.ask.now s))) }
{
    put_declared(on, declared(on, s), path, s, out, tally)
}
