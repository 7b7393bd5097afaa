//! What is left of an engine in which no call runs or waits.
ghost use Rattle.std.specs.Prelude.{◌≡◌};
ghost use Rattle.vll_core.specs.Queue.{lines};
ghost use Rattle.vll_queue.specs.Closed.{IsSerial};
ghost use Rattle.vll_queue.specs.Ended.{IsEnded};

use crate::closed::Closed;
use crate::name::Name;
use crate::session::Session;
use vll_check::Library;
use vll_core::Queue;
use vll_sca::Place;

/// What is left of an engine in which no call runs or waits. The lists have the capacity that the next opening needs.
#[derive(Drop)]
pub struct Ended<H: Place> {
    pub library: Library,
    /// All words as they were read.
    pub words: Vec<u64>,
    /// The records' values, taken from these words.
    pub records: Vec<u64>,
    /// The records' pair words, taken from these words.
    pub pairs: Vec<u64>,
    pub queue: Queue<H>,
    /// The list that held the sessions. It is empty now.
    pub sessions: Vec<Session>,
    /// The number of sessions that there were.
    pub clients: usize,
}

impl<H: Place + Drop> Ended<H> {
    /// Returns what the engine leaves.
    pub fn into_closed<N: Name>(self) -> Closed
        requires { IsEnded H.place_of N.engine self }
        ensures serial { IsSerial N.engine result }
        ensures journal { result.journal.items ≡ lines self.queue }
    {
        Closed {
            records: self.records,
            pairs: self.pairs,
            journal: self.queue.into_journal(),
        }
    }
}
