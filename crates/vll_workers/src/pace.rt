//! A worker's pace: how many tokens it takes and calls it begins, how long it rests, and when it leaves.
use crate::solo::{Conflicts, Solo};
use crate::tally::Tally;
use vll_engine::{Knob, Pacing, rest_for};
use vll_tokens::MOST_BATCH;

// What holds back a call that is to begin.
#[derive(Clone, Copy)]
pub(crate) enum HeldBy {
    // It does not look free.
    Look,
    // One of its claims is denied, and it waits.
    Claim,
    // The number of waiting calls is at the cap.
    Cap,
}

// How many tokens a worker takes before a hold and how many calls it begins, for how many rounds it keeps the tokens in
// hand, and how long it waits after a round that found no call that may run; and what it has done so far. It affects
// speed alone.
#[derive(Clone, Copy)]
pub(crate) struct Pace {
    pacing: Pacing,
    most: usize,
    most_calls: u32,
    now: u32,
    longest: u32,
    pause: u32,
    idle: u32,
    had_front: bool,
    keeps: bool,
    // The tokens stay in hand for this many more rounds.
    rounds: u32,
    // In this many more rounds that begin calls, each is looked at once more under the hold.
    heat: u32,
    conflicts: Conflicts,
    tally: Tally,
}

impl Pace {
    // The pace of one of `workers` workers, which takes at most `most` tokens before a hold.
    pub(crate) fn new(workers: u32, most: usize, pacing: Pacing) -> Pace {
        let longest = workers.saturating_mul(pacing.get(Knob::SpinsAWorker));
        let most_calls = pacing.get(Knob::MostCalls).clamp(1, MOST_BATCH as u32);
        Pace {
            pacing,
            most,
            most_calls,
            now: most_calls,
            longest: longest
                .max(pacing.get(Knob::LongestOfFew))
                .min(pacing.get(Knob::LongestOfMany)),
            pause: 0,
            idle: 0,
            had_front: false,
            keeps: false,
            rounds: pacing.get(Knob::RoundsInHand),
            heat: 0,
            conflicts: Conflicts::new(),
            tally: Tally::none(),
        }
    }

    // What the worker has done so far.
    pub(crate) fn tally(&self) -> Tally {
        self.tally
    }

    // Notes that the engine's lock is about to be taken.
    pub(crate) fn takes_hold(&mut self) {
        self.tally.holds = self.tally.holds.saturating_add(1);
    }

    // Whether calls were held back under holds recently, so that each is to be looked at once more before it begins.
    pub(crate) fn is_hot(&self) -> bool {
        self.heat > 0
    }

    // Notes that a call was held back under a hold.
    pub(crate) fn saw_held(&mut self, by: HeldBy) {
        match by {
            HeldBy::Look => {}
            HeldBy::Claim => self.tally.blocked = self.tally.blocked.saturating_add(1),
            HeldBy::Cap => self.tally.busy = self.tally.busy.saturating_add(1),
        }
        let hotter = self.heat.saturating_add(self.pacing.get(Knob::HeatOfOne));
        self.heat = self.pacing.get(Knob::MostHeat).min(hotter);
    }

    // Whether tokens are ever taken before a hold, and not only under it.
    pub(crate) fn takes_ahead(&self) -> bool {
        self.most > 0
    }

    // How many tokens may be in hand before a hold, including those whose calls are put off.
    pub(crate) fn most(&self) -> usize {
        self.most
    }

    // How many calls are to be ready before the next hold: one less if the last round found the front, since the next
    // one may find it too and then begins none.
    pub(crate) fn calls(&self) -> u32 {
        if self.had_front {
            self.now.saturating_sub(1)
        } else {
            self.now
        }
    }

    // Notes whether the front was found.
    pub(crate) fn saw_front(&mut self, had_front: bool) {
        self.had_front = had_front;
        self.tally.front = self.tally.front.saturating_add(u64::from(had_front));
    }

    // Notes whether the scan found a call.
    pub(crate) fn saw_scan(&mut self, had_call: bool) {
        self.tally.scan = self.tally.scan.saturating_add(u64::from(had_call));
    }

    // Notes that `free` calls that may run began, and whether another one was held back.
    pub(crate) fn began(&mut self, free: u32, was_held: bool) {
        self.conflicts.began(free, was_held);
        if free > 0 {
            self.heat = self.heat.saturating_sub(1);
        }
        if was_held {
            self.now = self.now.min(free.max(1));
        } else if free >= self.now {
            self.now = self.most_calls.min(self.now.saturating_add(1));
        }
    }

    // Lets the worker take tokens only under a hold, and so begin one call at a time.
    pub(crate) fn take_under_holds(&mut self) {
        self.most = 0;
    }

    // Lets the worker keep tokens in hand, if there are enough for all.
    pub(crate) fn keep_tokens(&mut self) {
        self.keeps = self.takes_ahead();
    }

    // Whether the tokens stay in hand for the next round.
    pub(crate) fn stay_in_hand(&mut self) -> bool {
        if self.rounds == 0 {
            self.rounds = self.pacing.get(Knob::RoundsInHand);
            return false;
        }
        self.rounds -= 1;
        self.keeps
    }

    // Notes that a call that may run was found. A worker that keeps tokens in hand may go on alone from now on.
    pub(crate) fn went_well(&mut self, solo: &Solo) {
        self.pause = 0;
        self.idle = 0;
        if self.keeps {
            self.conflicts.judge(solo);
        }
    }

    // Notes that the worker has nothing to do.
    pub(crate) fn ends(&mut self, solo: &Solo) {
        self.conflicts.end(solo);
    }

    // Whether the worker is to stand aside, since another one goes on alone.
    pub(crate) fn stands_aside(&self, solo: &Solo) -> bool {
        self.keeps && self.conflicts.are_left_to_another(solo)
    }

    // Whether the worker leaves after a round that finds no call that may run.
    pub(crate) fn is_leaving(&self, had_token: bool) -> bool {
        !had_token && (!self.takes_ahead() || self.idle >= self.pacing.get(Knob::MostIdle))
    }

    // Waits after a round that found no call that may run, longer each time. Reports whether to go on: a worker leaves
    // after rounds that had no token, and rests for less time between these.
    pub(crate) fn rest(&mut self, had_token: bool) -> bool {
        if self.is_leaving(had_token) {
            return false;
        }
        self.tally.rests = self.tally.rests.saturating_add(1);
        let mut longest = self.pacing.get(Knob::LongestOfFew);
        if had_token {
            self.idle = 0;
            longest = self.longest;
        } else {
            self.idle = self.idle.saturating_add(1);
        }
        let longer = self.pause.saturating_mul(2);
        self.pause = longest.min(longer.saturating_add(self.pacing.get(Knob::FirstPause)));
        rest_for(self.pause);
        true
    }
}

// How many tokens a worker may take before a hold: its share, or none if that is less than two.
pub(crate) fn share_of(count: usize, workers: u32) -> usize {
    let share = count / workers.max(1) as usize;
    if share < 2 { 0 } else { share }
}
