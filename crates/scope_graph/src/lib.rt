// How the code holds an end (the end mark, or a label) and two ends of which the first may be
// preferred to the second. What these values mean stands in specs/Order.antt, and the rules
// themselves in the other files there: this crate has no functions.
#![tactic(auto)]

// The form that document 01 binds for order pairs ("Where each language form goes"): a struct of
// two of these, and a preference test that matches on both (`preferred` of crate `comparison`). A
// label has its number and, since two steps of one label are told apart by it (02, K12), a turn; a
// step that is no edge row has none.
#[derive(Clone, Copy)]
pub enum End {
    Stop,
    Label(u64, Option<u64>),
}

#[derive(Clone, Copy)]
pub struct Pair {
    pub less: End,
    pub more: End,
}
