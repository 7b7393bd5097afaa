//! A hold: the engine's lock, taken once and kept for several steps.
ghost use Rattle.std.specs.Prelude.{◌≡◌};
ghost use Rattle.vll_check.specs.Catalog.{IsCatalog};
ghost use Rattle.vll_queue.specs.Pass.{IsReleased};
ghost use Rattle.vll_queue.specs.Shown.{library_of, words_of};

use crate::latch::Latch;
use std::sync::MutexGuard;
use vll_check::Library;
use vll_core::Ticket;
use vll_counters::Words;
use vll_queue::{Locked, Name, Released};
use vll_sca::Place;

/// An engine's lock, taken once and kept for several functions: a program can finish a call under it, look for the next
/// that may run, and begin others. Dropping the hold releases the lock. Until then every other thread that asks for a
/// hold, or calls a function of the engine that takes `wait`, waits; a thread that does so under its own hold waits
/// forever. `Engine::execute` and `Engine::release` need no hold, and are best called outside one.
pub struct Hold<'a, N: Name, H: Place + Drop> {
    pub(crate) guard: MutexGuard<'a, Locked<N, H>>,
    pub(crate) words: &'a Words,
    pub(crate) library: &'a Library,
    // The latch, if this hold has taken it: only then does it open it.
    latch: Option<&'a Latch>,
    ghost words_are: { words.now ≡ words_of N.engine },
    ghost library_is: { library.now ≡ library_of N.engine },
    ghost catalog: { IsCatalog (library_of N.engine) },
}

impl<'a, N: Name, H: Place + Drop> Hold<'a, N, H> {
    // A hold of a lock that was taken, and of the latch in front of it if that was taken too.
    pub(crate) fn new(
        guard: MutexGuard<'a, Locked<N, H>>,
        words: &'a Words,
        library: &'a Library,
        latch: Option<&'a Latch>,
    ) -> Hold<'a, N, H>
        requires words { words.now ≡ words_of N.engine }
        requires library { library.now ≡ library_of N.engine }
        requires catalog { IsCatalog (library_of N.engine) }
    {
        Hold {
            guard,
            words,
            library,
            latch,
        }
    }

    /// Finishes the call: it is gone, and its line gets the reply. Returns its ticket.
    #[inline(always)]
    pub fn finish(&mut self, released: Released) -> Ticket
        requires released { IsReleased N.engine released }
        ensures { result ≡ released.pass.ticket }
    {
        self.guard.finish(self.words, released)
    }
}

impl<N: Name, H: Place + Drop> Drop for Hold<'_, N, H> {
    // Opens the latch once the lock is free, so that the thread that takes it next finds the lock free too.
    fn drop(self) {
        let Hold {
            guard,
            words: _,
            library: _,
            latch,
        } = self;
        drop(guard);
        if let Some(latch) = latch {
            latch.leave();
        }
    }
}
