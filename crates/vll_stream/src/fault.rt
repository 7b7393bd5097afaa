//! Why a service ends before its input does.
use std::alloc::AllocError;
use thiserror::Error;
use vll_lines::RoundFault;
use vll_scenario::WriteFault;

/// Why a service ends before its input does. What was written by then stands.
#[derive(Clone, Copy, PartialEq, Eq, Debug, Error)]
pub enum StreamFault {
    /// The scenario has calls of its own.
    #[error("calls")]
    Calls,
    /// The input could not be read.
    #[error("read")]
    Read,
    /// The output could not be written.
    #[error("write")]
    Write,
    #[error("no memory")]
    NoMemory,
    /// The engine did not finish the calls that were made. This does not happen while only this service uses it.
    #[error("unfinished")]
    Unfinished,
}

impl From<AllocError> for StreamFault {
    ghost use Rattle.std.specs.Prelude.{◌≡◌};
    ghost use Rattle.vll_stream.specs.declared.fault.StreamFault.TheVariants.{NoMemory};

    ghost from_gives = { λ _ e. e ≡ NoMemory };

    fn from(_: AllocError) -> StreamFault {
        StreamFault::NoMemory
    }
}

impl From<WriteFault> for StreamFault {
    ghost use Rattle.std.specs.Prelude.{◌≡◌};
    ghost use Rattle.vll_stream.specs.Private.Faults.{fault_of};

    ghost from_gives = { λ why e. e ≡ fault_of why };

    fn from(why: WriteFault) -> StreamFault {
        match why {
            WriteFault::NoMemory => StreamFault::NoMemory,
            WriteFault::Write => StreamFault::Write,
        }
    }
}

impl From<RoundFault> for StreamFault {
    ghost use Rattle.std.specs.Prelude.{◌≡◌};
    ghost use Rattle.vll_stream.specs.Private.Faults.{fault_of_round};

    ghost from_gives = { λ why e. e ≡ fault_of_round why };

    fn from(why: RoundFault) -> StreamFault {
        match why {
            RoundFault::Read => StreamFault::Read,
            RoundFault::NoMemory => StreamFault::NoMemory,
        }
    }
}
