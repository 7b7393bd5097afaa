//! A gate that adds up what the workers of a run did.
use std::sync::{Mutex, Wait};
use vll_core::Ticket;
use vll_workers::{Gate, Tally};

/// A gate that adds up what workers did, and holds no call back.
#[derive(Drop)]
pub(crate) struct Adding<'a, R: Wait> {
    rt: &'a R,
    tally: Mutex<Tally>,
}

impl<'a, R: Wait> Adding<'a, R> {
    /// Makes the gate, with no worker left yet.
    pub(crate) fn new(rt: &'a R) -> Adding<'a, R> {
        Adding {
            rt,
            tally: Mutex::new(Tally::none()),
        }
    }

    /// Returns what the workers that have left did.
    pub(crate) fn into_tally(self) -> Tally {
        let Adding { rt: _, tally } = self;
        tally.into_inner()
    }
}

impl<R: Wait> Gate for Adding<'_, R> {
    fn before(&self, _ticket: Ticket) {}

    fn after(&self, _ticket: Ticket) {}

    fn left(&self, tally: Tally) {
        let mut all = self.tally.lock(self.rt);
        *all = all.with(tally);
    }

    fn may_wait(&self) -> bool {
        false
    }
}
