//! The faults for which nothing is measured.
use std::alloc::{AllocError, AllocFailed};
use std::io;
use vll_check::CallFault;
use vll_core::{OpenFault, Refusal};
use vll_server::ScenarioFault;
use vll_workers::RunFault;

/// Why nothing could be measured.
#[derive(Clone, Copy, Debug)]
pub(crate) enum Fault {
    NoMemory,
    /// The command line, the clock or standard output failed.
    System,
    Call(CallFault),
    Open(OpenFault),
    Event(Refusal),
    /// A call was blocked or refused, or did not run, although it was alone.
    Refused,
    Scenario(ScenarioFault),
    Run(RunFault),
    /// Calls were left after a run.
    Unfinished,
    /// A scan found a call although each is held back.
    Found,
    /// A call claims a record that is not there.
    NoRecord,
    /// Different ways of making the same calls made or committed different numbers of them.
    Counts,
}

impl From<AllocError> for Fault {
    fn from(_: AllocError) -> Fault {
        Fault::NoMemory
    }
}

impl<T: Drop> From<AllocFailed<T>> for Fault {
    fn from(_: AllocFailed<T>) -> Fault {
        Fault::NoMemory
    }
}

impl From<io::Error> for Fault {
    fn from(_: io::Error) -> Fault {
        Fault::System
    }
}

impl From<CallFault> for Fault {
    fn from(fault: CallFault) -> Fault {
        Fault::Call(fault)
    }
}

impl From<OpenFault> for Fault {
    fn from(fault: OpenFault) -> Fault {
        Fault::Open(fault)
    }
}

impl From<Refusal> for Fault {
    fn from(refusal: Refusal) -> Fault {
        Fault::Event(refusal)
    }
}

impl From<ScenarioFault> for Fault {
    fn from(fault: ScenarioFault) -> Fault {
        Fault::Scenario(fault)
    }
}
