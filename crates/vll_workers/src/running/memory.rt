//! The memory of a run, which is allocated before its first thread is started.
ghost use Rattle.std.specs.Prelude.{◌≡◌, ◌<◌, [], IfOk, length};
ghost use Rattle.crossbeam_queue.specs.Passes.{view};
ghost use Rattle.vll_tokens.specs.Pool.{HasInHand, all_parts};

use crate::batch::BatchMemory;
use crate::pace::share_of;
use std::alloc::{AllocError, Global};
use vll_engine::{Name, Pacing};
use vll_tokens::{Pool, Roster, Shelf, Worker};

// What a worker needs memory for: what it keeps, and what it has under way.
#[derive(Drop)]
pub(super) struct Desk<N: Name, T: Roster> {
    pub(super) shelf: Shelf<T>,
    pub(super) memory: BatchMemory<N>,
}

impl<N: Name, T: Roster> Desk<N, T> {
    // Allocates the memory of a worker, for a run of `count` tokens by `workers` workers.
    fn new(
        alloc: Global,
        count: usize,
        workers: u32,
        pacing: Pacing,
    ) -> Result<Desk<N, T>, AllocError>
        requires { count ≡ length T.tokens }
    {
        let shelf = Shelf::new(alloc, count)?;
        let memory = BatchMemory::new(alloc, workers, share_of(count, workers), pacing)?;
        Ok(Desk { shelf, memory })
    }
}

// What a run needs memory for: the pool, the calling thread's own worker, which has all tokens in hand, what that has
// under way, and what each other worker needs.
pub(super) struct RunMemory<N: Name, T: Roster> {
    pub(super) pool: Pool<T>,
    pub(super) own: Worker<T>,
    pub(super) own_memory: BatchMemory<N>,
    pub(super) desks: Vec<Desk<N, T>>,
}

// Allocates the memory of a run of `count` tokens by `workers` workers.
pub(super) fn memory_for<N: Name, T: Roster>(
    alloc: Global,
    count: usize,
    workers: u32,
    pacing: Pacing,
) -> Result<RunMemory<N, T>, AllocError>
    requires some { 0 < count }
    requires count { count ≡ length T.tokens }
    ensures workers { IfOk result (λ r. length r.desks.items ≡ workers) }
    ensures kept { IfOk result (λ r. r.own.kept ≡ []) }
    ensures hand { IfOk result (λ r. HasInHand r.pool r.own.pass T.tokens) }
    ensures parts { IfOk result (λ r. (view r.own.pass).parts ≡ all_parts) }
{
    let mut desks = Vec::with_capacity(alloc, workers as usize)?;
    for _ in 0..workers {
        desks.push_reserved(Desk::new(alloc, count, workers, pacing)?);
    }
    let (pool, pass) = Pool::new(alloc, count)?;
    let Desk { shelf, memory } = Desk::new(alloc, count, workers, pacing)?;
    Ok(RunMemory {
        pool,
        own: Worker::new(shelf, pass),
        own_memory: memory,
        desks,
    })
}
