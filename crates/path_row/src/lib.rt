// Path rows: taken apart, put together.
#![tactic(auto)]

pub mod form;
pub mod lent;
pub mod taken;
pub mod text;
pub mod writer;
