// The summary: how many queries are found one, several and none, and the share of those found one.
ghost use Rattle.std.specs.Prelude.{◌≡◌, ◌+◌, ◌<◌, length};
ghost use Rattle.text_field.specs.Buffer.{Buf, puts};
ghost use Rattle.text_field.specs.Writing.{Wrote};
ghost use Rattle.text_field.specs.Outcome.{done};
ghost use Rattle.text_field.specs.Answer.{answer, leaves, answer_of};
ghost use Rattle.graph_rows.specs.Decode.{queries_of};
ghost use Rattle.graph_file.specs.File.{WasRead};
ghost use Rattle.board.specs.Made.{Made};
ghost use Rattle.resolution.specs.Summary.{share_text};
ghost use Rattle.resolution.specs.Listing.{summary_of, summary_for};
ghost use Rattle.resolution.specs.Asked.{found_meaning};
ghost use Rattle.resolution.specs.Figures.{figures_after, no_figures, figures_over, total, Few, field_text, counts_text, figures_text};

use crate::ask::ask_of;
use crate::queries::{query_at, query_count};
use crate::text::Found;
use crate::walks::found_of;
use block::SIZE;
use board::put_board;
use graph_file::with_graph;
use share::share_of;
use text_field::{Refusal, Writer, put_bytes};

// How many queries were found so; by default none was counted yet.
#[derive(Clone, Copy, Default)]
pub struct Figures {
    pub one: u64,
    pub several: u64,
    pub none: u64,
}

// One query more, by its `found`.
pub fn counted(c: Figures, f: Found) -> Figures
    requires counted { total c < 9223372036854775808 }
    ensures answer { result ≡ figures_after c (found_meaning f) }
{
    match f {
        Found::None => Figures {
            none: c.none + 1,
            ..c
        },
        Found::One => Figures {
            one: c.one + 1,
            ..c
        },
        Found::Several => Figures {
            several: c.several + 1,
            ..c
        },
    }
}

// All queries of a table that was read, by their `found`.
fn figures_of(table: &[u64], block: &[u64; SIZE]) -> Figures
    requires read { WasRead table.now }
    requires made { Made table.now block.now }
    ensures answer { result ≡ figures_over table.now no_figures (queries_of table.now) }
{
    let n = query_count(table, block);
    let mut c = Figures::default();
    for i in 0..n {
        let ask = ask_of(table, block, query_at(table, block, i));
        c = counted(c, found_of(table, block, &ask));
    }
    c
}

// A number and the space after it.
fn put_field(to: &mut Writer, v: u64)
    ensures wrote { Wrote to.old to.new (field_text v) }
{
    to.put_number(v);
    to.put(b' ');
}

// The names line and the four counts.
fn put_counts(to: &mut Writer, c: Figures)
    requires few { Few c }
    ensures wrote { Wrote to.old to.new (counts_text c) }
{
    to.put_bytes(b"queries one several none share\n");
    put_field(to, c.one + c.several + c.none);
    put_field(to, c.one);
    put_field(to, c.several);
    put_field(to, c.none);
}

// The summary's last field (01, "The listing").
fn put_share(to: &mut Writer, n: u64, one: u64)
    requires few { one < 1000 }
    ensures wrote { Wrote to.old to.new (share_text n one) }
{
    if n == 0 {
        to.put(b'-');
        return;
    }
    to.put_number(share_of(one, n));
}

// The summary's text.
fn put_summary(out: &mut [u8], c: Figures) -> usize
    requires few { Few c }
    ensures written { ◌≡◌ {A = Buf} (out.new, result) (puts (out.old, 0) (figures_text c)) }
{
    let mut to = Writer::new(out);
    put_counts(&mut to, c);
    put_share(&mut to, c.one + c.several + c.none, c.one);
    to.put(b'\n');
    to.end()
}

// The summary of the figures alone. It is at most 64 bytes long.
pub fn summary_by(c: Figures, out: &mut [u8]) -> Result<usize, Refusal>
    requires few { Few c }
    ensures answer { answer_of result ≡ answer (done (figures_text c)) (length out.old) }
    ensures memory { out.new ≡ leaves (done (figures_text c)) out.old }
{
    let mut text = [0u8; 64];
    let k = put_summary(&mut text, c);
    if out.len() < k {
        return Err(Refusal::NoRoom);
    }
    Ok(put_bytes(out, 0, &text[..k]))
}

// The summary of a table that was read.
pub fn summary_of(table: &[u64], out: &mut [u8]) -> Result<usize, Refusal>
    requires accepted { WasRead table.now }
    ensures answer { answer_of result ≡ answer (done (summary_of table.now)) (length out.old) }
    ensures memory { out.new ≡ leaves (done (summary_of table.now)) out.old }
{
    let mut block = [0u64; SIZE];
    put_board(table, &mut block);
    let c = figures_of(table, &block);
    summary_by(c, out)
}

// The summary of a text: refusals 1 to 6, then 9. After a refusal the buffer is as it was.
pub fn summary(text: &[u8], out: &mut [u8]) -> Result<usize, Refusal>
    ensures answer { answer_of result ≡ answer (summary_for text.now) (length out.old) }
    ensures memory { out.new ≡ leaves (summary_for text.now) out.old }
{
    with_graph(text, &mut |table: &[u64]| summary_of(table, out))?
}
