// A name as the rules have it: a kind and a name.

// The two numbers that the name's bytes are packed into, and the kind by its letter's byte. They are
// compared in this sequence: most names differ in their first eight bytes.
#[derive(Clone, Copy, PartialEq, Eq)]
pub struct Name {
    pub high: u64,
    pub low: u64,
    pub kind: u64,
}
