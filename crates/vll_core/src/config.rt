//! The settings chosen at an opening, the limits of records, calls and workers, and why an opening can fail.
use std::alloc::AllocError;

/// The most records that a machine can have.
pub const MOST_RECORDS: usize = 65_536;

/// The most calls that can be entered in a machine, including finished ones.
pub const MOST_CALLS: u32 = 65_536;

/// The most entered calls that can be allowed to wait at a time.
pub const MOST_WAITING: u32 = 65_536;

/// The most worker threads of a run.
pub const MOST_WORKERS: u32 = 64;

// As docs/SCENARIO.md says.
const _: () = prove!(MOST_RECORDS == 65_536);

const _: () = prove!(MOST_CALLS == 65_536);

const _: () = prove!(MOST_WAITING == 65_536);

const _: () = prove!(MOST_WORKERS == 64);

/// The settings chosen at the opening.
#[derive(Clone, Copy, PartialEq, Eq, Debug)]
pub struct Config {
    /// How many entered calls may wait before no more calls are accepted, from 1 to `MOST_WAITING`.
    pub cap: u32,
    /// How many calls may be entered, from 1 to `MOST_CALLS`.
    pub limit: u32,
    /// How many bits the records share in the contention analysis, from 1 to `MOST_BITS` of `vll_sca`.
    pub bits: u32,
}

/// Why nothing can be opened: the first fault that applies, in this order.
#[derive(Clone, Copy, PartialEq, Eq, Debug)]
pub enum OpenFault {
    /// There are not 1 to `MOST_RECORDS` records.
    Records,
    /// The limit of calls is not 1 to `MOST_CALLS`.
    Limit,
    /// The cap of waiting calls is not 1 to `MOST_WAITING`.
    Cap,
    /// The number of bits is not 1 to `MOST_BITS` of `vll_sca`.
    Bits,
    /// An allocation failed.
    NoMemory,
}

impl From<AllocError> for OpenFault {
    ghost use Rattle.std.specs.Prelude.{◌≡◌};
    ghost use Rattle.vll_core.specs.declared.config.OpenFault.TheVariants.{NoMemory};

    ghost from_gives = { λ _ e. e ≡ NoMemory };

    fn from(_: AllocError) -> OpenFault {
        OpenFault::NoMemory
    }
}
