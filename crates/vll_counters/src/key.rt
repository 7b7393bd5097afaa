//! What the rule is about: the library, and the records as they were at the opening.
use std::snapshot::Snapshot;
use vll_check::Library;

/// What the rule is about: the library, and the records as they were at the opening. It takes no bytes.
#[derive(Drop)]
pub struct Key {
    pub library: Snapshot<Library>,
    pub records: Snapshot<Vec<u64>>,
}
