//! A latch in front of the engine's lock: a thread that finds it taken spins for a while before it takes the lock.
use std::hint::spin_loop;
use std::sync::atomic::{AtomicBool, Ordering};
use std::thread::yield_now;
use vll_queue::{Knob, Pacing};

// A word in front of the engine's lock. A thread that finds the lock taken goes to sleep and has to be woken; one that
// finds this word taken spins for a while. It keeps no thread out, and nothing is claimed of it: the lock alone
// protects.
#[derive(Drop)]
pub(crate) struct Latch {
    taken: AtomicBool,
}

impl Latch {
    // A latch that is not taken.
    pub(crate) fn new() -> Latch {
        Latch {
            taken: AtomicBool::new(false),
        }
    }

    // Tries to take the latch for a while, and returns whether it did. Only the thread that has taken it opens it.
    pub(crate) fn enter(&self, pacing: &Pacing) -> bool {
        let looks_a_yield = pacing.get(Knob::LooksAYield).max(1);
        for look in 1..=pacing.get(Knob::MostLooks) {
            if !self.taken.load(Ordering::SeqCst) && !self.taken.swap(true, Ordering::SeqCst) {
                return true;
            }
            if look % looks_a_yield == 0 {
                yield_now();
            } else {
                spin_loop();
            }
        }
        false
    }

    // Opens the latch: the next thread may take it.
    pub(crate) fn leave(&self) {
        self.taken.store(false, Ordering::SeqCst);
    }
}
