// What the programs print for a gym file's text on standard output: the listings of its queries,
// then the summary; for a refused file only its refusal.
//
// Proved: every piece handed to `emit` is what the text's output has at that place, and the place
// reached in the end is the output's end. No contract can say what a call of C's does, nor that a
// call is made. So two things are left for the reader to see: `emit` hands its piece to the C
// library; the functions above it move the place only by calling it, once for each piece.
#![tactic(auto)]

mod parts;

ghost use Rattle.std.specs.Prelude.{◌+◌, ◌<◌, ◌≡◌, length};
ghost use Rattle.text_field.specs.Buffer.{puts};
ghost use Rattle.graph_rows.specs.Decode.{queries_of};
ghost use Rattle.graph_file.specs.File.{WasRead};
ghost use Rattle.text_field.specs.Outcome.{done};
ghost use Rattle.text_field.specs.Refusal.{number_of};
ghost use Rattle.board.specs.Made.{Made};
ghost use Rattle.board.specs.Queries.{query_at};
ghost use Rattle.resolution.specs.Listing.{found_for};
ghost use Rattle.resolution.specs.Asked.{found_meaning};
ghost use Rattle.resolution.specs.Figures.{Few, figures_text};
ghost use Rattle.printing.specs.Printed.{refused_line, in_place, lent, table_text, program_text, Due};
ghost use Rattle.printing.specs.Parts.{part_text};

use block::SIZE;
use board::put_board;
use graph_file::with_graph;
pub use parts::{numbered, put_answer, put_refused};
use parts::{put_listing, put_summary};
use resolution::{Figures, Found, counted, query_count};
use text_field::Refusal;

// The room that document 01 has the program lend for a listing; the summary, which is shorter, gets
// it too.
const LENT: usize = 65536;

// Room for a line `refused N`, whatever the number: nine bytes beside N, which has at most 20
// digits.
const LINE: usize = 32;

// What a program reads of its input: one byte more than a file may have, which is enough to know
// that it is too long.
pub const INPUT: usize = 32769;

// The one function that writes. What a call of C's writes cannot be promised, so what it is handed
// is asked: the piece due at place `sent` of the text's output. The place behind it.
fn emit(text: &[u8], sent: usize, piece: &[u8]) -> usize
    requires due { Due text.now sent piece.now }
    ensures answer { result ≡ sent + length piece.now }
{
    io::write_all(1, piece);
    sent + piece.len()
}

// The line of a refused file; the place behind it.
fn print_refused(text: &[u8], sent: usize, r: Refusal) -> usize
    requires due { Due text.now sent (refused_line (number_of r)) }
    ensures answer { result ≡ sent + length (refused_line (number_of r)) }
{
    let mut out = [0u8; LINE];
    let k = put_refused(&mut out, r.number());
    emit(text, sent, &out[..k])
}

// The place behind a query's listing, and the query's `found`.
#[derive(Clone, Copy)]
struct Printed {
    place: usize,
    found: Found,
}

// The listing of query i, in one piece. It is made at the front of the bytes lent, whatever stood
// there; those behind it stay.
fn print_listing(
    text: &[u8],
    sent: usize,
    table: &[u64],
    block: &[u64; SIZE],
    i: usize,
    out: &mut [u8],
) -> Printed
    requires read { WasRead table.now }
    requires made { Made table.now block.now }
    requires number { i < length (queries_of table.now) }
    requires room { length out.old ≡ lent }
    requires due { Due text.now sent (part_text lent table.now i) }
    ensures place { result.place ≡ sent + length (part_text lent table.now i) }
    ensures found { found_meaning result.found ≡ found_for table.now (query_at table.now i) }
    ensures memory { out.new ≡ (puts (out.old, 0) (part_text lent table.now i)).0 }
{
    let p = put_listing(table, block, i, out);
    Printed {
        place: emit(text, sent, &out[..p.size]),
        found: p.found,
    }
}

// The summary of these figures, in one piece; the place behind it.
fn print_summary(text: &[u8], sent: usize, c: Figures, out: &mut [u8]) -> usize
    requires few { Few c }
    requires room { length out.old ≡ lent }
    requires due { Due text.now sent (in_place lent (done (figures_text c))) }
    ensures answer { result ≡ sent + length (in_place lent (done (figures_text c))) }
    ensures memory { out.new ≡ (puts (out.old, 0) (in_place lent (done (figures_text c)))).0 }
{
    let k = put_summary(c, out);
    emit(text, sent, &out[..k])
}

// All listings in turn, then the summary of what they told; the place behind them. One buffer is
// lent to all of them, so that it is cleared once.
fn print_parts(text: &[u8], sent: usize, table: &[u64], block: &[u64; SIZE]) -> usize
    requires read { WasRead table.now }
    requires made { Made table.now block.now }
    requires due { Due text.now sent (table_text table.now) }
    ensures answer { result ≡ sent + length (table_text table.now) }
{
    let n = query_count(table, block);
    let mut out = [0u8; LENT];
    let mut place = sent;
    let mut c = Figures::default();
    for i in 0..n {
        let p = print_listing(text, place, table, block, i, &mut out);
        place = p.place;
        c = counted(c, p.found);
    }
    print_summary(text, place, c, &mut out)
}

// The output for a table that was read, over its board, which is made once; the place behind it.
fn print_table(text: &[u8], sent: usize, table: &[u64]) -> usize
    requires read { WasRead table.now }
    requires due { Due text.now sent (table_text table.now) }
    ensures answer { result ≡ sent + length (table_text table.now) }
{
    let mut block = [0u64; SIZE];
    put_board(table, &mut block);
    print_parts(text, sent, table, &block)
}

// The output for a text, which is read once; its length.
pub fn print_for(text: &[u8]) -> usize
    ensures answer { result ≡ length (program_text text.now) }
{
    match with_graph(text, &mut |table: &[u64]| print_table(text, 0, table)) {
        Ok(end) => end,
        Err(r) => print_refused(text, 0, r),
    }
}
