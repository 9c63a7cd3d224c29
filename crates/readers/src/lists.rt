// The readers of a declaration as a text. It is made in memory of its own first, so that nothing is
// written before it is known to fit.
ghost use Rattle.std.specs.Prelude.{◌≡◌, length};
ghost use Rattle.text_field.specs.Answer.{answer, leaves, answer_of};
ghost use Rattle.graph_file.specs.File.{WasRead};
ghost use Rattle.board.specs.Made.{Made};
ghost use Rattle.readers.specs.Readers.{readers_of, readers_for};

use crate::rows::{declaration_at, declaration_count};
use crate::scopes::put_readers;
use block::SIZE;
use board::put_board;
use graph_file::with_graph;
use text_field::{Refusal, put_bytes};

// Room for the longest text: the names line and 64 scopes of at most two digits, 195 bytes at most.
const LINES: usize = 256;

// The readers of the declaration in row `place` of a table that was read, over its board.
fn readers_on(
    table: &[u64],
    block: &[u64; SIZE],
    place: usize,
    out: &mut [u8],
) -> Result<usize, Refusal>
    requires read { WasRead table.now }
    requires made { Made table.now block.now }
    ensures answer { answer_of result ≡ answer (readers_of table.now place) (length out.old) }
    ensures memory { out.new ≡ leaves (readers_of table.now place) out.old }
{
    if declaration_count(table, block) <= place {
        return Err(Refusal::NoDeclaration);
    }
    let mut lines = [0u8; LINES];
    let d = declaration_at(table, block, place);
    let n = put_readers(table, block, d, &mut lines);
    if out.len() < n {
        return Err(Refusal::NoRoom);
    }
    Ok(put_bytes(out, 0, &lines[..n]))
}

// The readers of a declaration of a table that was read.
fn readers_of(table: &[u64], place: usize, out: &mut [u8]) -> Result<usize, Refusal>
    requires read { WasRead table.now }
    ensures answer { answer_of result ≡ answer (readers_of table.now place) (length out.old) }
    ensures memory { out.new ≡ leaves (readers_of table.now place) out.old }
{
    let mut block = [0u64; SIZE];
    put_board(table, &mut block);
    readers_on(table, &block, place, out)
}

// The readers of the declaration in row `place` of a text, counted from 0: refusals 1 to 6, then
// 11, then 9. After a refusal the buffer is as it was.
pub fn readers(text: &[u8], place: usize, out: &mut [u8]) -> Result<usize, Refusal>
    ensures answer { answer_of result ≡ answer (readers_for text.now place) (length out.old) }
    ensures memory { out.new ≡ leaves (readers_for text.now place) out.old }
{
    with_graph(text, &mut |table: &[u64]| readers_of(table, place, out))?
}
