//! What is behind the engine's lock: the queue, its seat of the words, and what decides whether a scan is due.
ghost use Rattle.std.specs.Prelude.{◌≡◌};
ghost use Rattle.vll_queue.specs.Private.Kept.{IsKept};

use crate::name::Name;
use crate::pacing::Pacing;
use crate::patience::Patience;
use std::marker::{Model, PhantomData};
use vll_core::Queue;
use vll_counters::QueueSeat;
use vll_sca::Place;

mod admit;
pub(crate) mod close;
mod finish;
mod lines;
mod next;
mod reply;

/// What is behind the lock: the queue, and its seat of the words. To a contract it is the queue. The contracts of the
/// methods say exactly what they return for that queue.
#[derive(Drop)]
pub struct Locked<N: Name, H: Place> {
    // It comes before the fields of the queue that each call changes, so that a hold changes two cache lines of these.
    patience: Patience,
    queue: Queue<H>,
    seat: QueueSeat,
    of: PhantomData<N>,
}

impl<N: Name, H: Place> Model for Locked<N, H> {
    ghost use Rattle.std.specs.Coded.{codes};
    ghost use Rattle.vll_core.specs.Queue.{Queued};
    ghost use Rattle.vll_queue.specs.Private.Kept.{IsKept};

    ghost Value = { Queued H };

    ghost coded = { Prim.hlevel (codes, H.code) };

    ghost view = { λ s. s.queue };

    ghost invariant = { λ s. IsKept N.engine H.place_of s.seat s.queue };
}

impl<N: Name, H: Place> Locked<N, H> {
    /// A queue with its seat, which has no open turn and no session at it. Scans are put off as the pacing says.
    pub fn new(queue: Queue<H>, seat: QueueSeat, pacing: &Pacing) -> Locked<N, H>
        requires { IsKept N.engine H.place_of seat queue }
        ensures { result ≡ queue }
    {
        Locked {
            queue,
            seat,
            patience: Patience::new(pacing),
            of: PhantomData,
        }
    }
}
