//! Why something of a line was not read.
use crate::request::LineFault;
use std::alloc::{AllocError, AllocFailed};

/// Why something of a line was not read.
#[derive(Drop)]
pub(crate) enum ReadFault {
    NoMemory,
    Faulty(LineFault),
}

impl From<AllocError> for ReadFault {
    ghost use Rattle.std.specs.Prelude.{◌≡◌};
    ghost use Rattle.vll_lines.specs.declared.read_fault.ReadFault.TheVariants.{NoMemory};

    ghost from_gives = { λ _ e. e ≡ NoMemory };

    fn from(_: AllocError) -> ReadFault {
        ReadFault::NoMemory
    }
}

impl<T: Drop> From<AllocFailed<T>> for ReadFault {
    ghost use Rattle.std.specs.Prelude.{◌≡◌};
    ghost use Rattle.vll_lines.specs.declared.read_fault.ReadFault.TheVariants.{NoMemory};

    ghost from_gives = { λ _ e. e ≡ NoMemory };

    fn from(_: AllocFailed<T>) -> ReadFault {
        ReadFault::NoMemory
    }
}

impl From<LineFault> for ReadFault {
    ghost use Rattle.std.specs.Prelude.{◌≡◌};
    ghost use Rattle.vll_lines.specs.declared.read_fault.ReadFault.TheVariants.{Faulty};

    ghost from_gives = { λ why e. e ≡ Faulty why };

    fn from(why: LineFault) -> ReadFault {
        ReadFault::Faulty(why)
    }
}
