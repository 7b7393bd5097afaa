//! Why a run is not traced.
use std::alloc::AllocError;
use thiserror::Error;
use vll_server::ServeFault;

/// Why there is no trace of a run.
#[derive(Debug, Drop, Error)]
pub enum TraceFault {
    /// The run has no outcome.
    #[error("{0}")]
    Run(ServeFault),
    /// A schedule would have at least this many events, more than one may have. Nothing was run.
    #[error("the schedule would have at least {0} events")]
    Events(u64),
    /// With its schedule the scenario would have more bytes than a scenario may have.
    #[error("the scenario with its schedule would have {0} bytes")]
    Size(u64),
    /// The machine of atomic steps does not take what the run's workers did, or does not end as the run did.
    #[error("the run is not one of the machine of atomic steps")]
    Refused,
    #[error("no memory")]
    NoMemory,
    /// The writer has failed.
    #[error("write")]
    Write,
}

impl From<AllocError> for TraceFault {
    ghost use Rattle.std.specs.Prelude.{◌≡◌};
    ghost use Rattle.vll_trace.specs.declared.fault.TraceFault.TheVariants.{NoMemory};

    ghost from_gives = { λ _ e. e ≡ NoMemory };

    fn from(_: AllocError) -> TraceFault {
        TraceFault::NoMemory
    }
}

// Why the steps of a run have no order.
#[derive(Debug, Drop)]
pub(crate) enum Unordered {
    // The machine of atomic steps refuses one.
    Refused,
    NoMemory,
}

impl From<AllocError> for Unordered {
    fn from(_: AllocError) -> Unordered {
        Unordered::NoMemory
    }
}

impl From<Unordered> for TraceFault {
    ghost use Rattle.std.specs.Prelude.{◌≡◌};
    ghost use Rattle.vll_trace.specs.declared.fault.TraceFault.TheVariants.{Write};

    ghost from_gives = { λ _ e. ¬ (e ≡ Write) };

    fn from(why: Unordered) -> TraceFault {
        match why {
            Unordered::Refused => TraceFault::Refused,
            Unordered::NoMemory => TraceFault::NoMemory,
        }
    }
}
