//! The memory for what closing an engine leaves, so that closing allocates nothing.
ghost use Rattle.std.specs.Prelude.{◌≡◌, ◌≤◌, [], IfOk, vec_capacity};

use std::alloc::{AllocError, Global};
use std::marker::Model;

/// Lists for what closing leaves, so that closing allocates nothing. Contracts see the number of records they have room
/// for.
#[derive(Drop)]
pub struct ClosingMemory {
    pub(crate) count: u32,
    pub(crate) records: Vec<u64>,
    pub(crate) pairs: Vec<u64>,
}

impl Model for ClosingMemory {
    ghost use Rattle.std.specs.Prelude.{◌≡◌, ◌≤◌, ℕ, [], vec_capacity};

    ghost Value = { ℕ };

    ghost view = { λ r. r.count };

    ghost invariant = { λ r. (r.records.items ≡ []) × (r.pairs.items ≡ [])
        × (r.count ≤ vec_capacity r.records) × (r.count ≤ vec_capacity r.pairs) };
}

impl ClosingMemory {
    /// Memory for `count` records. Fails if the system has no memory for it.
    pub fn new(alloc: Global, count: u32) -> Result<ClosingMemory, AllocError>
        ensures { IfOk result (λ r. r ≡ count) }
    {
        Ok(ClosingMemory {
            count,
            records: touched(alloc, count as usize)?,
            pairs: touched(alloc, count as usize)?,
        })
    }

    /// Memory for `count` records in these lists. What they hold is dropped.
    pub fn of(count: u32, mut records: Vec<u64>, mut pairs: Vec<u64>) -> ClosingMemory
        requires records { count ≤ vec_capacity records }
        requires pairs { count ≤ vec_capacity pairs }
        ensures { result ≡ count }
    {
        records.clear();
        pairs.clear();
        ClosingMemory {
            count,
            records,
            pairs,
        }
    }
}

// An empty list with room for `count` words. Each is written once, since a system may provide memory only when it is
// first used.
fn touched(alloc: Global, count: usize) -> Result<Vec<u64>, AllocError>
    ensures empty { IfOk result (λ v. v.items ≡ []) }
    ensures room { IfOk result (λ v. count ≤ vec_capacity v) }
{
    let mut words = vec![in alloc; 0; count]?;
    words.clear();
    Ok(words)
}
