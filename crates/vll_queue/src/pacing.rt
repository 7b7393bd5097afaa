//! The numbers by which an engine and its workers look, wait and put off. They affect speed alone.
ghost use Rattle.std.specs.Prelude.{◌≡◌};
ghost use Rattle.vll_queue.specs.Pacing.{number_of, with_number};

/// A number by which an engine or its workers look, wait or put off. A spin takes some ten nanoseconds.
#[derive(Clone, Copy)]
pub enum Knob {
    /// What a finished call pays off of the debt of scans that found no call, in entries that a scan walks over.
    PaidByACall,
    /// What a scan that is put off pays off of it, since its caller has nothing better to do; 0 counts as 1, so that
    /// none is put off for ever.
    PaidByARest,
    /// While less than this is owed, no scan is put off; 0 counts as 1.
    LeastOwed,
    /// While fewer calls than this wait, no scan is put off.
    LeastWaiting,
    /// How often a thread that makes calls tries to take the lock before it goes to sleep.
    MostTries,
    /// After this many tries it yields to other threads; 0 counts as 1.
    TriesAYield,
    /// Its first rest while it finds nothing to do, in spins of a loop.
    FirstRest,
    /// Its longest pause between two tries and its longest rest, in spins.
    LongestRest,
    /// How often a thread looks at the taken latch in front of the lock before it goes on without it.
    MostLooks,
    /// After this many looks it yields to other threads; 0 counts as 1.
    LooksAYield,
    /// The most calls that a worker has ready before a hold, from 1 to the capacity of a batch.
    MostCalls,
    /// How many rounds in a row it keeps its tokens in hand before they go back to the pool.
    RoundsInHand,
    /// After a call was held back under a hold, each call is looked at once more in this many rounds.
    HeatOfOne,
    /// Such calls add up to this many rounds at most.
    MostHeat,
    /// A worker's first rest, in spins.
    FirstPause,
    /// The longest rest of few workers, in spins.
    LongestOfFew,
    /// The longest rest of many workers, most of which have to let the others run.
    LongestOfMany,
    /// The spins of the longest rest for each worker, within these bounds.
    SpinsAWorker,
    /// How many rounds in a row may find no token before a worker leaves.
    MostIdle,
    /// By how many rounds that began calls a worker judges whether nearly all calls conflict, so that one worker had
    /// better go on alone.
    RoundsJudged,
    /// They do if more of these rounds held a call back, and few calls were free.
    ManyHeld,
    /// The most calls that are free in these rounds if nearly all conflict.
    FewFree,
    /// The most judgements that a worker lets pass before it tries again to go on alone.
    MostPatience,
    /// How long a worker that stands aside rests between two looks, in spins.
    AsideRest,
    /// After this many rests it looks for calls all the same.
    MostAside,
}

// How many there are.
const KNOBS: usize = 25;

/// Each of them, with the number that was measured to be fast.
pub const USUAL: [(Knob, u32); KNOBS] = [
    (Knob::PaidByACall, 8),
    (Knob::PaidByARest, 64),
    (Knob::LeastOwed, 64),
    (Knob::LeastWaiting, 64),
    (Knob::MostTries, 512),
    (Knob::TriesAYield, 16),
    (Knob::FirstRest, 32),
    (Knob::LongestRest, 1_024),
    (Knob::MostLooks, 4_096),
    (Knob::LooksAYield, 256),
    (Knob::MostCalls, 16),
    (Knob::RoundsInHand, 16),
    (Knob::HeatOfOne, 8),
    (Knob::MostHeat, 64),
    (Knob::FirstPause, 32),
    (Knob::LongestOfFew, 1_024),
    (Knob::LongestOfMany, 16_384),
    (Knob::SpinsAWorker, 256),
    (Knob::MostIdle, 16),
    (Knob::RoundsJudged, 64),
    (Knob::ManyHeld, 32),
    (Knob::FewFree, 80),
    (Knob::MostPatience, 64),
    (Knob::AsideRest, 1_024),
    (Knob::MostAside, 200),
];

/// The number of each `Knob`. They affect speed alone: whatever they are, every contract holds, and a run makes all its
/// calls. `usual` has those that were measured to be fast; tests draw others, so that threads meet as they seldom do.
#[derive(Clone, Copy)]
pub struct Pacing {
    numbers: [u32; KNOBS],
}

impl Pacing {
    /// The numbers of `USUAL`.
    pub fn usual() -> Pacing {
        let mut pacing = Pacing {
            numbers: [0; KNOBS],
        };
        for (knob, number) in USUAL {
            pacing.numbers[knob as usize] = number;
        }
        pacing
    }

    /// The same, but with this number for a knob.
    pub fn with(mut self, knob: Knob, number: u32) -> Pacing
        ensures { result.numbers ≡ with_number self knob number }
    {
        self.numbers[knob as usize] = number;
        self
    }

    /// The number of a knob.
    #[inline(always)]
    pub fn get(&self, knob: Knob) -> u32
        ensures { result ≡ number_of self.now knob }
    {
        self.numbers[knob as usize]
    }
}
