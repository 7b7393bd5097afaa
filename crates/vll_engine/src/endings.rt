//! What closing and reopening an engine return, if they fail and if an engine was reopened.
ghost use Rattle.std.specs.Prelude.{◌≡◌, ◌<◌, length};
ghost use Rattle.vll_queue.specs.Shown.{library_of, words_of};

use crate::engine::Engine;
use crate::opening::Opening;
use vll_core::Line;
use vll_queue::{Closed, Name, NotEnded, Pacing, Session};
use vll_sca::Place;

/// An engine that was not closed, since calls run or wait in it. It goes on unchanged.
#[derive(Drop)]
pub struct NotClosed<N: Name, H: Place + Drop> {
    pub engine: Engine<N, H>,
    /// The sessions that were passed.
    pub sessions: Vec<Session>,
    /// The number of calls that run: each has a pass that has not reached its end.
    pub running: u32,
    /// The number of blocked calls.
    pub waiting: u32,
}

impl<N: Name, H: Place + Drop> NotClosed<N, H> {
    // The engine of all that was passed to close it.
    pub(crate) fn of(left: NotEnded<N, H>, pacing: Pacing) -> NotClosed<N, H>
        requires library { left.library ≡ library_of N.engine }
        requires words { left.words ≡ words_of N.engine }
        requires memory { left.memory ≡ length N.engine.base.records }
        requires few { N.engine.clients < 4294967296 }
        ensures sessions { result.sessions ≡ left.sessions }
        ensures running { result.running ≡ left.running }
        ensures waiting { result.waiting ≡ left.waiting }
    {
        let NotEnded {
            locked,
            library,
            words,
            memory,
            sessions,
            running,
            waiting,
        } = left;
        NotClosed {
            engine: Engine::new(library, words, locked, memory, pacing),
            sessions,
            running,
            waiting,
        }
    }
}

/// What a reopened engine leaves: the calls in order of entry, each with its reply, and an opening, to be named anew,
/// over the records as these calls have left them.
#[derive(Drop)]
pub struct Reopened<H: Place> {
    /// Its capacity is at least the limit: the list can be passed when the next engine is reopened.
    pub journal: Vec<Line>,
    /// The records of the opening, in a list that can be passed again like the journal's.
    pub records: Vec<u64>,
    pub opening: Opening<H>,
}

/// An engine that was not reopened.
#[derive(Drop)]
pub struct NotReopened<N: Name, H: Place + Drop> {
    /// What `close` returned. If calls run or wait, it is the engine, which goes on. If the allocation failed, the
    /// engine is closed, and this is what it leaves.
    pub left: Result<Closed, NotClosed<N, H>>,
    /// The list that was passed for the journal.
    pub journal: Vec<Line>,
    /// The list that was passed for the records.
    pub records: Vec<u64>,
}
