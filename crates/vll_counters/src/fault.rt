//! The fault of opening words.
use std::alloc::AllocError;
use vll_core::OpenFault;

/// An allocation failed.
#[derive(Clone, Copy, PartialEq, Eq, Debug)]
pub struct NoMemory;

impl From<AllocError> for NoMemory {
    fn from(_: AllocError) -> NoMemory {
        NoMemory
    }
}

impl From<NoMemory> for OpenFault {
    ghost use Rattle.std.specs.Prelude.{◌≡◌};
    ghost use Rattle.vll_core.specs.declared.config.OpenFault.TheVariants as OpenFault;

    ghost from_gives = { λ _ e. e ≡ OpenFault.NoMemory };

    fn from(_: NoMemory) -> OpenFault {
        OpenFault::NoMemory
    }
}
