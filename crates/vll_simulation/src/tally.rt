//! How often each kind of thing has happened, so that a test can see that none is missing.
use crate::machine::Entry;
use vll_proc::{Reason, Reply};

// What has happened, over all seeds.
#[derive(Clone, Copy, Debug)]
pub(crate) struct Tally {
    free: u64,
    blocked: u64,
    spent: u64,
    busy: u64,
    // Calls started by the front and by scans, of which those of scans were not at the front.
    fronts: u64,
    scans: u64,
    committed: u64,
    aborted: u64,
    moved: u64,
    // Scans that were put off though they would have found a call.
    put_off: u64,
    // Engines that were reopened.
    reopened: u64,
}

impl Tally {
    pub(crate) fn new() -> Tally {
        Tally {
            free: 0,
            blocked: 0,
            spent: 0,
            busy: 0,
            fronts: 0,
            scans: 0,
            committed: 0,
            aborted: 0,
            moved: 0,
            put_off: 0,
            reopened: 0,
        }
    }

    pub(crate) fn enters(&mut self, entry: Entry) {
        add(match entry {
            Entry::Free(_) => &mut self.free,
            Entry::Blocked(_) => &mut self.blocked,
            Entry::Spent => &mut self.spent,
            Entry::Busy | Entry::OutOfStep => &mut self.busy,
        });
    }

    pub(crate) fn starts_front(&mut self, found: Option<u32>) {
        if found.is_some() {
            add(&mut self.fronts);
        }
    }

    pub(crate) fn scans(&mut self, found: Option<u32>) {
        if found.is_some() {
            add(&mut self.scans);
        }
    }

    pub(crate) fn replies(&mut self, reply: &Reply) {
        add(match reply {
            Reply::Committed(_) => &mut self.committed,
            Reply::Aborted(Reason::Moved) => &mut self.moved,
            Reply::Aborted(_) => &mut self.aborted,
        });
    }

    pub(crate) fn puts_off(&mut self, times: u32) {
        self.put_off = self.put_off.saturating_add(times.into());
    }

    pub(crate) fn reopens(&mut self) {
        add(&mut self.reopened);
    }

    // Whether each kind has happened.
    pub(crate) fn has_all(&self) -> bool {
        let Tally {
            free,
            blocked,
            spent,
            busy,
            fronts,
            scans,
            committed,
            aborted,
            moved,
            put_off,
            reopened,
        } = *self;
        let rare = [spent, busy, scans, aborted, moved, put_off, reopened];
        [free, blocked, fronts, committed]
            .iter()
            .chain(&rare)
            .all(|count| *count != 0)
    }
}

fn add(count: &mut u64) {
    *count = count.saturating_add(1);
}
