// The name that an ask seeks.
ghost use Rattle.std.specs.Prelude.{◌≡◌};
ghost use Rattle.block.specs.Ask.{ask_name};
ghost use Rattle.graph_table.specs.Values.{packed};

use block::{ASKSIZE, ask_high, ask_kind, ask_low};
use graph_table::Name;

// The name sought, as rows have it.
pub fn name_asked(ask: &[u64; ASKSIZE]) -> Name
    ensures answer { packed result ≡ ask_name ask.now }
{
    Name {
        kind: ask_kind(ask),
        high: ask_high(ask),
        low: ask_low(ask),
    }
}
