// The parts of the output: a listing for each query, then the summary.
ghost use Rattle.std.specs.Prelude.{◌≡◌, ◌<◌, length};
ghost use Rattle.text_field.specs.Buffer.{Buf, puts};
ghost use Rattle.text_field.specs.Outcome.{done};
ghost use Rattle.graph_rows.specs.Decode.{queries_of};
ghost use Rattle.graph_file.specs.File.{WasRead};
ghost use Rattle.board.specs.Made.{Made};
ghost use Rattle.board.specs.Queries.{query_at};
ghost use Rattle.resolution.specs.Listing.{found_for, listing_of};
ghost use Rattle.resolution.specs.Asked.{found_meaning};
ghost use Rattle.resolution.specs.Figures.{Few, figures_text};
ghost use Rattle.printing.specs.Printed.{refused_line, in_place};
ghost use Rattle.printing.specs.Parts.{answered, numbered};

use block::SIZE;
use resolution::{Figures, Found, listing_on, summary_by};
use text_field::{Refusal, Writer};

// A query's part: its bytes at the front of what was lent, and the query's `found`.
#[derive(Clone, Copy)]
pub struct Part {
    pub size: usize,
    pub found: Found,
}

// The line `refused N`.
pub fn put_refused(out: &mut [u8], n: u64) -> usize
    ensures written { ◌≡◌ {A = Buf} (out.new, result) (puts (out.old, 0) (refused_line n)) }
{
    let mut to = Writer::new(out);
    to.put_bytes(b"refused ");
    to.put_number(n);
    to.put(b'\n');
    to.end()
}

// What was written stays; for a refusal its line is put in its place.
pub fn put_answer(out: &mut [u8], a: Result<usize, u64>) -> usize
    ensures written { ◌≡◌ {A = Buf} (out.new, result) (answered a out.old) }
{
    match a {
        Ok(size) => size,
        Err(n) => put_refused(out, n),
    }
}

// An answer whose refusal is told by its number.
pub fn numbered(a: Result<usize, Refusal>) -> Result<usize, u64>
    ensures answer { result ≡ numbered a }
{
    match a {
        Ok(size) => Ok(size),
        Err(r) => Err(r.number()),
    }
}

// The listing of query i.
pub fn put_listing(table: &[u64], block: &[u64; SIZE], i: usize, out: &mut [u8]) -> Part
    requires read { WasRead table.now }
    requires made { Made table.now block.now }
    requires number { i < length (queries_of table.now) }
    ensures written { ◌≡◌ {A = Buf} (out.new, result.size) (puts (out.old, 0) (in_place (length out.old) (listing_of table.now i))) }
    ensures found { found_meaning result.found ≡ found_for table.now (query_at table.now i) }
{
    let l = listing_on(table, block, i, out);
    Part {
        size: put_answer(out, numbered(l.answer)),
        found: l.found,
    }
}

// The summary of these figures.
pub fn put_summary(c: Figures, out: &mut [u8]) -> usize
    requires few { Few c }
    ensures written { ◌≡◌ {A = Buf} (out.new, result) (puts (out.old, 0) (in_place (length out.old) (done (figures_text c)))) }
{
    let a = summary_by(c, out);
    put_answer(out, numbered(a))
}
