//! A gate that records what happens under the engine's lock.
use std::alloc::{AllocError, Global};
use std::sync::{Mutex, Wait};
use vll_core::Ticket;
use vll_workers::{Choice, Gate};

/// What has happened to a call under the engine's lock.
#[derive(Clone, Copy, PartialEq, Eq, Debug)]
pub(crate) enum Happening {
    /// It has entered, and is free.
    Free(Ticket),
    /// It has entered, and waits.
    Blocked(Ticket),
    /// It waited, and was chosen to run.
    Chosen(Ticket, Choice),
    /// It was executed, and is gone.
    Finished(Ticket),
}

// The most that happens to a call.
const MOST_HAPPENINGS: usize = 3;

/// A gate that records what happens under the engine's lock, in this order, and holds no call back.
#[derive(Drop)]
pub(crate) struct Recorder<'a, W: Wait> {
    wait: &'a W,
    happenings: Mutex<Vec<Happening>>,
}

impl<'a, W: Wait> Recorder<'a, W> {
    /// Makes a recorder with room for what happens to this many calls.
    pub(crate) fn new(
        alloc: Global,
        wait: &'a W,
        calls: usize,
    ) -> Result<Recorder<'a, W>, AllocError> {
        let room = Vec::with_capacity(alloc, calls.saturating_mul(MOST_HAPPENINGS))?;
        Ok(Recorder {
            wait,
            happenings: Mutex::new(room),
        })
    }

    /// Returns what has happened, in order.
    pub(crate) fn into_happenings(self) -> Vec<Happening> {
        let Recorder {
            wait: _,
            happenings,
        } = self;
        happenings.into_inner()
    }

    // Notes what has happened. There is room for all that can happen to the calls; if more did, it would be missed here,
    // and no trace made.
    fn note(&self, happening: Happening) {
        let _ = self.happenings.lock(self.wait).push(happening);
    }
}

impl<W: Wait> Gate for Recorder<'_, W> {
    fn before(&self, _ticket: Ticket) {}

    fn after(&self, _ticket: Ticket) {}

    fn entered(&self, ticket: Ticket, is_free: bool) {
        self.note(if is_free {
            Happening::Free(ticket)
        } else {
            Happening::Blocked(ticket)
        });
    }

    fn chosen(&self, ticket: Ticket, by: Choice) {
        self.note(Happening::Chosen(ticket, by));
    }

    fn finished(&self, ticket: Ticket) {
        self.note(Happening::Finished(ticket));
    }

    fn may_wait(&self) -> bool {
        false
    }
}
