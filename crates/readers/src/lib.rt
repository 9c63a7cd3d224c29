// Who reads a declaration (document 02, K5): the scopes from which a query for its kind and name
// has an entry for it, as a text.
#![tactic(auto)]

mod lists;
mod rows;
mod scopes;

pub use lists::readers;
