//! The options of the engine that serves a scenario, with the bounds of their numbers.
ghost use Rattle.std.specs.Prelude.{◌≡◌, ◌≤◌, unwrap_or};

use crate::up_to::UpTo;
use vll_core::MOST_WAITING;
use vll_sca::MOST_BITS;

/// What an engine has in place of the scenario's settings.
#[derive(Clone, Copy, Debug)]
pub struct EngineOptions {
    /// How many calls may wait at a time. None: the scenario's cap.
    pub cap: Option<Cap>,
    /// How many places the contention analysis has for the records. None: the scenario's number.
    pub bits: Option<Bits>,
}

/// A number of calls that may wait at a time.
pub type Cap = UpTo<MOST_WAITING>;

/// A number of places for the contention analysis.
pub type Bits = UpTo<MOST_BITS>;

// The number that is given, or else the scenario's.
pub(crate) fn number_or<const MOST: u32>(given: Option<UpTo<MOST>>, own: u32) -> u32
    requires { (1 ≤ own) × (own ≤ MOST) }
    ensures value { result ≡ unwrap_or given.entry own }
    ensures least { 1 ≤ result }
    ensures most { result ≤ MOST }
{
    match given {
        Some(number) => number.get(),
        None => own,
    }
}
