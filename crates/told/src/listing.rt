// One listing, by the places of its rows.
ghost use Rattle.std.specs.Prelude.{◌≡◌, ◌<◌, drop};
ghost use Rattle.graph_table.specs.Values.{packed};
ghost use Rattle.told.specs.Apart.{listing_here};
ghost use Rattle.told.specs.Steps.{listing_meaning, ListingSpan};

use crate::pairs::read_awaits;
use crate::places::{past, past_names, past_query};
use crate::rows::rows_from;
use crate::words::read_found;
use graph_table::{Form, QueryRow};
use resolution::Found;

// What a listing says: `found`, `awaits` (none for `-`, else a scope and the byte of an end), where
// its first row stands, how many rows there are, and the place after them.
#[derive(Clone, Copy)]
pub struct Listing {
    pub found: Found,
    pub awaits: Option<(u64, u8)>,
    pub first: usize,
    pub count: usize,
    pub next: usize,
}

// The listing of the query at a place of the text, if it has the printed form.
pub fn read_listing(form: Form, q: QueryRow, s: &[u8], at: usize) -> Option<Listing>
    requires scope { q.start < 64 }
    requires kind { q.name.kind < 256 }
    ensures taken { listing_meaning s.now result ≡ listing_here form q.start (packed q.name) (drop at s.now) }
    ensures span { ListingSpan s.now result }
{
    let columns = past_names(form, s, at)?;
    let word = past_query(form, q, s, columns)?;
    let (found, space) = read_found(s, word)?;
    let pair = past(s, space, b" ")?;
    let (awaits, end) = read_awaits(s, pair)?;
    let first = past(s, end, b"\nmark path\n")?;
    let rows = rows_from(s, first);
    Some(Listing {
        found,
        awaits,
        first,
        count: rows.count,
        next: rows.next,
    })
}
