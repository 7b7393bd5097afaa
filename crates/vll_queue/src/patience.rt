//! Decides whether a scan is due: scans that find no call add to a debt, and finished calls pay it off.
use crate::pacing::{Knob, Pacing};

// Decides whether a scan is due. A scan that walks over the queue and finds no call adds a debt of the number of waiting
// entries. Finished calls pay it off, so that what such scans cost a call does not grow with the number of waiting
// calls; so does each scan that is put off, so that none is put off for ever. It only affects speed.
#[derive(Clone, Copy)]
pub(crate) struct Patience {
    owed: u32,
    // The numbers of a `Pacing` by which a scan is put off.
    paid_by_a_call: u32,
    paid_by_a_rest: u32,
    least_owed: u32,
    least_waiting: u32,
}

impl Patience {
    // No debt: a scan is due.
    pub(crate) fn new(pacing: &Pacing) -> Patience {
        Patience {
            owed: 0,
            paid_by_a_call: pacing.get(Knob::PaidByACall),
            paid_by_a_rest: pacing.get(Knob::PaidByARest).max(1),
            least_owed: pacing.get(Knob::LeastOwed).max(1),
            least_waiting: pacing.get(Knob::LeastWaiting),
        }
    }

    // Returns whether a scan is due while `waiting` calls wait. If it is put off, part of the debt is paid off.
    pub(crate) fn is_due(&mut self, waiting: u32) -> bool {
        if waiting < self.least_waiting || self.owed < self.least_owed {
            return true;
        }
        self.owed = self.owed.saturating_sub(self.paid_by_a_rest);
        false
    }

    // Notes that a call was finished.
    pub(crate) fn finished(&mut self) {
        self.owed = self.owed.saturating_sub(self.paid_by_a_call);
    }

    // Notes that a scan walked over the queue and found no call, while `waiting` calls wait.
    pub(crate) fn found_none(&mut self, waiting: u32) {
        self.owed = self.owed.saturating_add(waiting);
    }
}
