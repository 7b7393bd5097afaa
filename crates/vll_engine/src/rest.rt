//! How a thread that makes calls waits: for the engine's lock, and while it finds nothing to do.
use std::hint::spin_loop;
use std::thread::yield_now;
use vll_queue::{Knob, Pacing};

// After this many spins of a rest the thread yields to others.
const SPINS_A_YIELD: u32 = 64;

// How a thread that makes calls waits. It only affects speed, and nothing is promised of it.
#[derive(Clone, Copy)]
pub(crate) struct Rest {
    // The next pause between two tries to take the lock, in spins. A client keeps it from call to call: the fewer
    // threads try, the longer what the lock protects stays in the cache of the one that goes on.
    pause: u32,
    // The last rest, in spins.
    rest: u32,
}

impl Rest {
    // The next pause and the next rest are the shortest.
    pub(crate) fn new() -> Rest {
        Rest { pause: 1, rest: 0 }
    }

    // Notes that the first try took the lock: the next pause is half as long.
    pub(crate) fn met_nobody(&mut self) {
        self.pause = 1.max(self.pause / 2);
    }

    // Waits after a try in vain, the `tries`-th: each time twice as long.
    pub(crate) fn pause(&mut self, pacing: &Pacing, tries: u32) {
        if tries % pacing.get(Knob::TriesAYield).max(1) == 0 {
            yield_now();
            return;
        }
        for _ in 0..self.pause {
            spin_loop();
        }
        self.pause = pacing
            .get(Knob::LongestRest)
            .min(self.pause.saturating_mul(2));
    }

    // Notes that something was found to do: the next rest is the shortest.
    pub(crate) fn found(&mut self) {
        self.rest = 0;
    }

    // Waits while there is nothing to do: each time about twice as long.
    pub(crate) fn rest(&mut self, pacing: &Pacing) {
        let longer = self
            .rest
            .saturating_mul(2)
            .saturating_add(pacing.get(Knob::FirstRest));
        self.rest = pacing.get(Knob::LongestRest).min(longer);
        rest_for(self.rest);
    }
}

/// Rests for so many spins of a loop, and yields to other threads once in 64 of them.
pub fn rest_for(spins: u32) {
    for spin in 0..spins {
        if spin % SPINS_A_YIELD == SPINS_A_YIELD - 1 {
            yield_now();
        } else {
            spin_loop();
        }
    }
}
