// All listings are right; or the number of the first query, counted from 0, whose listing is wrong.
// No Option: `None` for listings that are right would read as if nothing had been told.
#[derive(Clone, Copy)]
pub enum Verdict {
    Accepted,
    Wrong(usize),
}
