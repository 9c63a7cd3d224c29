// Cells of a table replaced by others, in place: those after them move up or down.
ghost use Rattle.std.specs.Prelude.{◌≡◌, length, take};
ghost use Rattle.text_field.specs.Outcome.{done};
ghost use Rattle.text_field.specs.Answer.{answer, leaves, answer_of};
ghost use Rattle.graph_change.specs.Cells.{spliced};

use text_field::Refusal;

// Replaces `count` cells from a place on, of the first n of the table, by others: how many cells
// are used then, or `NoRoom` where they are more than the table has. After a refusal the table is
// as it was. A number past the used cells counts as their end.
pub fn splice(
    table: &mut [u64],
    n: usize,
    place: usize,
    count: usize,
    new: &[u64],
) -> Result<usize, Refusal>
    ensures answer { answer_of result ≡ answer (done (spliced place count new.now (take n table.old))) (length table.old) }
    ensures memory { table.new ≡ leaves (done (spliced place count new.now (take n table.old))) table.old }
{
    let used = n.min(table.len());
    let from = place.min(used);
    let to = from + count.min(used - from);
    let left = used - to;
    if table.len() - from - left < new.len() {
        return Err(Refusal::NoRoom);
    }
    let next = from + new.len();
    table.copy_within(to..used, next);
    table[from..next].copy_from_slice(new);
    Ok(next + left)
}
