//! The open claims on a record, counted in its pair word: what a request adds, and whether it is granted.
ghost use Rattle.std.specs.Prelude.{◌≡◌, ◌+◌, ◌*◌, ◌/◌, ◌%◌, ◌^◌};
ghost use Rattle.vll_record.specs.Counter.{delta_of, is_granted};

use crate::claim::Mode;

// One Write claim, as a pair word counts it.
const ONE_WRITE: u64 = 1 << 32;

/// The numbers of open claims on a record: CX counts the Write claims, CS the Read claims.
///
/// Both counters share one word, `CX * 2^32 + CS`, so that one step changes and reads both.
#[derive(Clone, Copy, PartialEq, Eq, Debug)]
pub struct Pair {
    /// Open Write claims.
    pub cx: u32,
    /// Open Read claims.
    pub cs: u32,
}

impl Pair {
    /// The pair that a word holds.
    pub fn of(word: u64) -> Pair
        ensures cx { result.cx ≡ word / 2 ^ 32 }
        ensures cs { result.cs ≡ word % 2 ^ 32 }
    {
        Pair {
            cx: (word / ONE_WRITE) as u32,
            cs: (word % ONE_WRITE) as u32,
        }
    }

    /// The word that holds the pair.
    pub fn word(self) -> u64
        ensures { result ≡ self.cx * 2 ^ 32 + self.cs }
    {
        u64::from(self.cx) * ONE_WRITE + u64::from(self.cs)
    }
}

/// Returns what a request of this mode adds to a record's pair word, and its release subtracts.
pub fn delta(mode: Mode) -> u64
    ensures { result ≡ delta_of mode }
{
    match mode {
        Mode::Read => 1,
        Mode::Write => ONE_WRITE,
    }
}

/// Reports whether a request of this mode is granted, given the pair word before it: an exclusive
/// request if no claim was open, a shared one if no Write claim was.
pub fn granted(mode: Mode, old: u64) -> bool
    ensures { result ≡ is_granted mode old }
{
    match mode {
        Mode::Read => old < ONE_WRITE,
        Mode::Write => old == 0,
    }
}
