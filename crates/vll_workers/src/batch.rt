//! A batch: what a worker has under way, and the memory for it.
ghost use Rattle.std.specs.Prelude.{◌≡◌, [], IfOk};

use crate::pace::Pace;
use std::alloc::{AllocError, Global};
use vll_core::Ticket;
use vll_engine::{Name, Pacing, Passes, Released};
use vll_tokens::{Stack, Taken};

// What a worker has under way: the tokens that it has taken, passes of calls that may run, calls that were executed,
// and the tickets of those that are finished and not yet reported to the gate.
pub(crate) struct Batch<N: Name> {
    pub(crate) taken: Taken,
    pub(crate) passes: Passes<N>,
    pub(crate) released: Stack<Released>,
    pub(crate) finished: Stack<Ticket>,
    pub(crate) pace: Pace,
}

// The memory for a batch.
pub(crate) struct BatchMemory<N: Name> {
    batch: Batch<N>,
    ghost untried: { batch.taken.untried ≡ [] },
    ghost tried: { batch.taken.tried ≡ [] },
    ghost passes: { batch.passes ≡ [] },
    ghost released: { batch.released ≡ [] },
    ghost finished: { batch.finished ≡ [] },
}

impl<N: Name> BatchMemory<N> {
    // Allocates memory for what one of `workers` workers has under way, which takes at most `most` tokens before a hold.
    pub(crate) fn new(
        alloc: Global,
        workers: u32,
        most: usize,
        pacing: Pacing,
    ) -> Result<BatchMemory<N>, AllocError> {
        let taken = Taken::new(alloc)?;
        let finished = Stack::new(alloc)?;
        let passes = Passes::new(alloc)?;
        match Stack::new(alloc) {
            Ok(released) => Ok(BatchMemory {
                batch: Batch {
                    taken,
                    passes,
                    released,
                    finished,
                    pace: Pace::new(workers, most, pacing),
                },
            }),
            Err(AllocError) => {
                passes.destroy();
                Err(AllocError)
            }
        }
    }

    // Opens the batch: nothing is under way yet.
    pub(crate) fn open(self) -> Batch<N>
        ensures untried { result.taken.untried ≡ [] }
        ensures tried { result.taken.tried ≡ [] }
        ensures passes { result.passes ≡ [] }
        ensures released { result.released ≡ [] }
        ensures finished { result.finished ≡ [] }
    {
        let BatchMemory { batch } = self;
        batch
    }
}

impl<N: Name> Drop for BatchMemory<N> {
    fn drop(self) {
        let BatchMemory { batch } = self;
        batch.end();
    }
}

impl<N: Name> Batch<N> {
    // Ends the batch: nothing is under way any more.
    pub(crate) fn end(self)
        requires passes { self.passes ≡ [] }
        requires released { self.released ≡ [] }
    {
        let Batch {
            taken: _,
            passes,
            released,
            finished: _,
            pace: _,
        } = self;
        passes.destroy();
        released.destroy();
    }
}
