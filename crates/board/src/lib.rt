// The board: a file's tables, made of its graph table once and put into the lent block.
#![tactic(auto)]

mod asked;
mod automaton;
mod declarations;
mod edges;
mod hints;
mod letters;
mod making;
mod order;
mod sections;

pub use asked::name_asked;
pub use automaton::hopeful;
pub use declarations::declaring;
pub use making::put_board;
pub use sections::{part, scope_count, section_rows};
