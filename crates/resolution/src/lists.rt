// A query's listing. One walk over its entries compares their declarations, measures their rows and
// keeps the first of them; nothing is written before the whole is known to fit.
ghost use Rattle.std.specs.Prelude.{◌≡◌, length};
ghost use Rattle.text_field.specs.Buffer.{Buf, puts};
ghost use Rattle.text_field.specs.Outcome.{done};
ghost use Rattle.text_field.specs.Answer.{answer, leaves, answer_of};
ghost use Rattle.graph_file.specs.File.{WasRead};
ghost use Rattle.board.specs.Made.{Made};
ghost use Rattle.resolution.specs.Listing.{found_for, found_at, listing_text, listing_of, listing_for};
ghost use Rattle.resolution.specs.Asked.{Ready, query_in, found_meaning, query_head};

use crate::ask::ask_of;
use crate::awaits::awaits_of;
use crate::found::found_by;
use crate::queries::{query_at, query_count};
use crate::text::{Found, put_head};
use crate::walks::{MOST, take_entries};
use block::{ASKSIZE, SIZE};
use board::put_board;
use follow::Bounds;
use graph_file::with_graph;
use graph_table::form_of;
use text_field::{Refusal, Writer, put_bytes};

// Room for what stands above a listing's rows: two names lines and the query's line, at most 73
// bytes. The proof bounds it by 128.
const HEAD: usize = 128;

// How many bytes of rows are kept from the walk: few queries have longer ones, which are walked to
// again.
const KEPT: usize = 512;

// What a listing answers, and the query's `found`, which is known of a listing that is too long
// too. If there is no such query, it is `none`.
#[derive(Clone, Copy)]
pub struct Listed {
    pub answer: Result<usize, Refusal>,
    pub found: Found,
}

// The listing up to its rows.
fn put_heading(
    table: &[u64],
    block: &[u64; SIZE],
    ask: &[u64; ASKSIZE],
    f: Found,
    out: &mut [u8],
) -> usize
    requires ready { Ready table.now block.now ask.now }
    requires found { found_meaning f ≡ found_for table.now (query_in table.now ask.now) }
    ensures written { ◌≡◌ {A = Buf} (out.new, result) (puts (out.old, 0) (query_head table.now ask.now)) }
{
    let a = awaits_of(table, block, ask);
    let mut to = Writer::new(out);
    put_head(&mut to, form_of(table), block, ask, f, a);
    to.end()
}

// The listing of the query that the ask is of. Where its rows alone do not fit, `awaits`, which can
// take long, is not needed.
pub fn list(table: &[u64], block: &[u64; SIZE], ask: &[u64; ASKSIZE], out: &mut [u8]) -> Listed
    requires ready { Ready table.now block.now ask.now }
    ensures answer { answer_of result.answer ≡ answer (done (listing_text table.now (query_in table.now ask.now))) (length out.old) }
    ensures memory { out.new ≡ leaves (done (listing_text table.now (query_in table.now ask.now))) out.old }
    ensures found { found_meaning result.found ≡ found_for table.now (query_in table.now ask.now) }
{
    let room = out.len();
    let mut kept = [0u8; KEPT];
    let bounds = Bounds {
        limit: room,
        kept: KEPT,
        most: MOST,
    };
    let t = take_entries(table, block, ask, bounds, &mut kept, 0);
    let n = t.bytes;
    let found = found_by(table, block, ask, bounds, t);
    if t.over {
        return Listed {
            answer: Err(Refusal::NoRoom),
            found,
        };
    }
    let mut head = [0u8; HEAD];
    let h = put_heading(table, block, ask, found, &mut head);
    if room - n < h {
        return Listed {
            answer: Err(Refusal::NoRoom),
            found,
        };
    }
    let size = h + n;
    put_bytes(out, 0, &head[..h]);
    if n <= KEPT {
        put_bytes(out, h, &kept[..n]);
        return Listed {
            answer: Ok(size),
            found,
        };
    }
    let all = Bounds {
        limit: room,
        kept: room,
        most: MOST,
    };
    take_entries(table, block, ask, all, out, h);
    Listed {
        answer: Ok(size),
        found,
    }
}

// The listing of query i of a table that was read, over its board.
pub fn listing_on(table: &[u64], block: &[u64; SIZE], i: usize, out: &mut [u8]) -> Listed
    requires read { WasRead table.now }
    requires made { Made table.now block.now }
    ensures answer { answer_of result.answer ≡ answer (listing_of table.now i) (length out.old) }
    ensures memory { out.new ≡ leaves (listing_of table.now i) out.old }
    ensures found { found_meaning result.found ≡ found_at table.now i }
{
    if query_count(table, block) <= i {
        return Listed {
            answer: Err(Refusal::NoQuery),
            found: Found::None,
        };
    }
    let ask = ask_of(table, block, query_at(table, block, i));
    list(table, block, &ask, out)
}

// The listing of a query of a table that was read.
pub fn listing_of(table: &[u64], query: usize, out: &mut [u8]) -> Result<usize, Refusal>
    requires accepted { WasRead table.now }
    ensures answer { answer_of result ≡ answer (listing_of table.now query) (length out.old) }
    ensures memory { out.new ≡ leaves (listing_of table.now query) out.old }
{
    let mut block = [0u64; SIZE];
    put_board(table, &mut block);
    let l = listing_on(table, &block, query, out);
    l.answer
}

// The listing of a query of a text: refusals 1 to 6, then 7, then 9. After a refusal the buffer is
// as it was.
pub fn listing(text: &[u8], query: usize, out: &mut [u8]) -> Result<usize, Refusal>
    ensures answer { answer_of result ≡ answer (listing_for text.now query) (length out.old) }
    ensures memory { out.new ≡ leaves (listing_for text.now query) out.old }
{
    with_graph(text, &mut |table: &[u64]| listing_of(table, query, out))?
}
