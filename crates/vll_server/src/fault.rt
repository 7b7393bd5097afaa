//! Why a scenario was not served.
use std::alloc::AllocError;
use thiserror::Error;
use vll_workers::RunFault;

/// Why a scenario was not served. After `Write`, a prefix of the outcome has been written, and after any other fault
/// nothing.
#[derive(Clone, Copy, PartialEq, Eq, Debug, Error)]
pub enum ServeFault {
    /// The workers' run failed; this is the fault that it returned.
    #[error("{0}")]
    Run(RunFault),
    /// After the run, calls were left in the engine, of which `running` run and `waiting` wait.
    #[error("unfinished {running} {waiting}")]
    Unfinished { running: u32, waiting: u32 },
    /// An allocation outside the workers' run failed.
    #[error("no memory")]
    NoMemory,
    /// The outcome was not written completely.
    #[error("write")]
    Write,
}

impl From<AllocError> for ServeFault {
    ghost use Rattle.std.specs.Prelude.{◌≡◌};
    ghost use Rattle.vll_server.specs.declared.fault.ServeFault.TheVariants as fault;

    ghost from_gives = { λ _ e. e ≡ fault.NoMemory };

    fn from(_: AllocError) -> ServeFault {
        ServeFault::NoMemory
    }
}
