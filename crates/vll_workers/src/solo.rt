//! Whether a worker goes on alone, and when it does.
use std::sync::atomic::{AtomicBool, Ordering};
use vll_engine::{Knob, Pacing, rest_for};

// Whether one of the workers goes on alone. Where nearly all calls conflict, one worker makes them faster than several,
// which take the records and the lock from one another's caches; so the others stand aside. It affects speed alone:
// nothing waits for the worker that goes on.
#[derive(Drop)]
pub(crate) struct Solo {
    is_taken: AtomicBool,
    pacing: Pacing,
}

impl Solo {
    // No worker goes on alone.
    pub(crate) fn new(pacing: Pacing) -> Solo {
        Solo {
            is_taken: AtomicBool::new(false),
            pacing,
        }
    }

    // Whether a worker goes on alone.
    fn is_taken(&self) -> bool {
        self.is_taken.load(Ordering::SeqCst)
    }

    // Lets this worker go on alone, unless another one does. Returns whether it does now.
    fn take(&self) -> bool {
        !self.is_taken() && !self.is_taken.swap(true, Ordering::SeqCst)
    }

    // Ends it. Only the worker that goes on alone does so.
    fn end(&self) {
        self.is_taken.store(false, Ordering::SeqCst)
    }

    // Rests while a worker goes on alone, but not for ever.
    pub(crate) fn stand_aside(&self) {
        for _ in 0..self.pacing.get(Knob::MostAside) {
            if !self.is_taken() {
                return;
            }
            rest_for(self.pacing.get(Knob::AsideRest));
        }
    }
}

// How calls conflict as one worker has seen it, and whether that worker goes on alone.
#[derive(Clone, Copy)]
pub(crate) struct Conflicts {
    // Of the rounds that are to be judged: how many there were, how many held a call back, and how many calls were free.
    rounds: u32,
    held: u32,
    free: u32,
    is_alone: bool,
    // How many judgements are to pass before this worker tries to go on alone, and how many after the next time.
    to_pass: u32,
    patience: u32,
}

impl Conflicts {
    // Nothing was seen yet.
    pub(crate) fn new() -> Conflicts {
        Conflicts {
            rounds: 0,
            held: 0,
            free: 0,
            is_alone: false,
            to_pass: 0,
            patience: 1,
        }
    }

    // Notes that a round began `free` calls that may run, and whether it held another one back.
    pub(crate) fn began(&mut self, free: u32, was_held: bool) {
        self.rounds = self.rounds.saturating_add(1);
        self.held = self.held.saturating_add(u32::from(was_held));
        self.free = self.free.saturating_add(free);
    }

    // Once there were enough rounds, goes on alone if nearly all calls conflict, and no longer if they do not. Whoever
    // went on alone for nothing tries again later each time.
    pub(crate) fn judge(&mut self, solo: &Solo) {
        let pacing = &solo.pacing;
        if self.rounds < pacing.get(Knob::RoundsJudged) {
            return;
        }
        let is_crowded = self.free <= pacing.get(Knob::FewFree);
        if self.is_alone && is_crowded {
            self.patience = 1;
        } else if self.is_alone {
            self.end(solo);
            self.to_pass = self.patience;
            self.patience = pacing
                .get(Knob::MostPatience)
                .min(self.patience.saturating_mul(2));
        } else if self.to_pass > 0 {
            self.to_pass -= 1;
        } else if is_crowded && self.held > pacing.get(Knob::ManyHeld) {
            self.is_alone = solo.take();
        }
        self.rounds = 0;
        self.held = 0;
        self.free = 0;
    }

    // Goes on alone no longer.
    pub(crate) fn end(&mut self, solo: &Solo) {
        if self.is_alone {
            self.is_alone = false;
            solo.end();
        }
    }

    // Whether another worker goes on alone.
    pub(crate) fn are_left_to_another(&self, solo: &Solo) -> bool {
        !self.is_alone && solo.is_taken()
    }
}
