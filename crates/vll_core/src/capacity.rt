//! Lists with capacity, all of it mapped before the first call.
ghost use Rattle.std.specs.Prelude.{◌≡◌, ◌≤◌, [], IfOk, vec_capacity};

use std::alloc::{AllocError, Global};

/// Returns an empty list with capacity for at least `capacity` items. Each slot has been written once, so that the system
/// has mapped all of them, and no later push meets an unmapped page.
pub(crate) fn list_with_capacity<T: Copy>(
    alloc: Global,
    capacity: usize,
    blank: T,
) -> Result<Vec<T>, AllocError>
    ensures items { IfOk result (λ v. v.items ≡ []) }
    ensures capacity { IfOk result (λ v. capacity ≤ vec_capacity v) }
{
    let mut list = Vec::with_capacity(alloc, capacity)?;
    for _ in 0..capacity {
        list.push_reserved(blank);
    }
    list.clear();
    Ok(list)
}
