//! What a closed engine leaves.
use vll_core::Line;

/// What an engine leaves: the records' values, their pair words, and the calls in order of entry.
#[derive(Drop)]
pub struct Closed {
    pub records: Vec<u64>,
    pub pairs: Vec<u64>,
    pub journal: Vec<Line>,
}
