//! Counts of what the workers of a run did.
ghost use Rattle.std.specs.Prelude.{◌≡◌};
ghost use Rattle.vll_workers.specs.Tallies.{both, nothing};

/// What one worker, or several together, did in a run. It helps to understand a run's speed: no contract says what a
/// worker counts. A count that reaches the largest number stays there.
#[derive(Clone, Copy, PartialEq, Eq, Debug)]
pub struct Tally {
    /// Calls that entered and had to wait.
    pub blocked: u64,
    /// How often a call was refused because the number of waiting calls was at the cap.
    pub busy: u64,
    /// Calls that waited and were started as the front.
    pub front: u64,
    /// Calls that waited and were started by the scan.
    pub scan: u64,
    /// How often the engine's lock was taken.
    pub holds: u64,
    /// How often there was nothing to do, and the worker rested.
    pub rests: u64,
}

impl Tally {
    /// A tally in which nothing was done.
    pub fn none() -> Tally
        ensures { result ≡ nothing }
    {
        Tally {
            blocked: 0,
            busy: 0,
            front: 0,
            scan: 0,
            holds: 0,
            rests: 0,
        }
    }

    /// Adds each count of `others` to that of this tally.
    pub fn with(self, others: Tally) -> Tally
        ensures { result ≡ both self others }
    {
        Tally {
            blocked: self.blocked.saturating_add(others.blocked),
            busy: self.busy.saturating_add(others.busy),
            front: self.front.saturating_add(others.front),
            scan: self.scan.saturating_add(others.scan),
            holds: self.holds.saturating_add(others.holds),
            rests: self.rests.saturating_add(others.rests),
        }
    }
}
