//! Why a program with an embedded engine stops: one type into which `?` converts each fault.
use crate::calling::EngineSpent;
use crate::endings::{NotClosed, NotReopened};
use std::alloc::{AllocError, AllocFailed};
use std::io;
use thiserror::Error;
use vll_check::{CallFault, CheckFault, NameTwice};
use vll_core::OpenFault;
use vll_queue::{BeginRefusal, Name};
use vll_sca::Place;

/// Why a program with an embedded engine stops: `?` converts each fault possible between making procedures and closing
/// the engine.
#[derive(Clone, Copy, PartialEq, Eq, Debug, Error)]
pub enum EngineFault {
    #[error("out of memory")]
    NoMemory,
    #[error("input or output failed")]
    Output,
    /// A procedure is not well-formed.
    #[error("a procedure fails check {0}")]
    Check(CheckFault),
    #[error("two procedures have the same name")]
    NameTwice,
    /// A call cannot be made.
    #[error("a call fails check {0}")]
    Call(CallFault),
    /// The engine cannot be opened.
    #[error("the engine cannot be opened: {0:?}")]
    Open(OpenFault),
    /// A call may not begin.
    #[error("a call may not begin: {0:?}")]
    Refused(BeginRefusal),
    /// Calls still run or wait that should have ended, as in an engine that is to be closed.
    #[error("calls are unfinished")]
    Left,
}

impl From<AllocError> for EngineFault {
    ghost use Rattle.std.specs.Prelude.{◌≡◌};
    ghost use Rattle.vll_engine.specs.declared.fault.EngineFault.TheVariants.{NoMemory};

    ghost from_gives = { λ _ e. e ≡ NoMemory };

    fn from(_: AllocError) -> EngineFault {
        EngineFault::NoMemory
    }
}

impl<T: Drop> From<AllocFailed<T>> for EngineFault {
    ghost use Rattle.std.specs.Prelude.{◌≡◌};
    ghost use Rattle.vll_engine.specs.declared.fault.EngineFault.TheVariants.{NoMemory};

    ghost from_gives = { λ _ e. e ≡ NoMemory };

    fn from(_: AllocFailed<T>) -> EngineFault {
        EngineFault::NoMemory
    }
}

impl From<io::Error> for EngineFault {
    ghost use Rattle.std.specs.Prelude.{◌≡◌};
    ghost use Rattle.vll_engine.specs.declared.fault.EngineFault.TheVariants.{Output};

    ghost from_gives = { λ _ e. e ≡ Output };

    fn from(_: io::Error) -> EngineFault {
        EngineFault::Output
    }
}

impl From<CheckFault> for EngineFault {
    ghost use Rattle.std.specs.Prelude.{◌≡◌};
    ghost use Rattle.vll_engine.specs.declared.fault.EngineFault.TheVariants.{Check};

    ghost from_gives = { λ fault e. e ≡ Check fault };

    fn from(fault: CheckFault) -> EngineFault {
        EngineFault::Check(fault)
    }
}

impl From<NameTwice> for EngineFault {
    ghost use Rattle.std.specs.Prelude.{◌≡◌};
    ghost use Rattle.vll_engine.specs.declared.fault.EngineFault.TheVariants as fault;

    ghost from_gives = { λ _ e. e ≡ fault.NameTwice };

    fn from(_: NameTwice) -> EngineFault {
        EngineFault::NameTwice
    }
}

impl From<CallFault> for EngineFault {
    ghost use Rattle.std.specs.Prelude.{◌≡◌};
    ghost use Rattle.vll_engine.specs.declared.fault.EngineFault.TheVariants.{Call};

    ghost from_gives = { λ fault e. e ≡ Call fault };

    fn from(fault: CallFault) -> EngineFault {
        EngineFault::Call(fault)
    }
}

impl From<OpenFault> for EngineFault {
    ghost use Rattle.std.specs.Prelude.{◌≡◌};
    ghost use Rattle.vll_engine.specs.declared.fault.EngineFault.TheVariants.{Open};

    ghost from_gives = { λ fault e. e ≡ Open fault };

    fn from(fault: OpenFault) -> EngineFault {
        EngineFault::Open(fault)
    }
}

impl From<BeginRefusal> for EngineFault {
    ghost use Rattle.std.specs.Prelude.{◌≡◌};
    ghost use Rattle.vll_engine.specs.declared.fault.EngineFault.TheVariants.{Refused};

    ghost from_gives = { λ why e. e ≡ Refused why };

    fn from(why: BeginRefusal) -> EngineFault {
        EngineFault::Refused(why)
    }
}

impl From<EngineSpent> for EngineFault {
    ghost use Rattle.std.specs.Prelude.{◌≡◌};
    ghost use Rattle.vll_queue.specs.declared.begun.BeginRefusal.TheVariants as refusal;
    ghost use Rattle.vll_engine.specs.declared.fault.EngineFault.TheVariants.{Refused};

    ghost from_gives = { λ _ e. e ≡ Refused refusal.Spent };

    fn from(_: EngineSpent) -> EngineFault {
        EngineFault::Refused(BeginRefusal::Spent)
    }
}

impl<N: Name, H: Place + Drop> From<NotClosed<N, H>> for EngineFault {
    ghost use Rattle.std.specs.Prelude.{◌≡◌};
    ghost use Rattle.vll_engine.specs.declared.fault.EngineFault.TheVariants.{Left};

    ghost from_gives = { λ _ e. e ≡ Left };

    fn from(_: NotClosed<N, H>) -> EngineFault {
        EngineFault::Left
    }
}

impl<N: Name, H: Place + Drop> From<NotReopened<N, H>> for EngineFault {
    ghost use Rattle.std.specs.Prelude.{◌≡◌, IfErr, IfOk};
    ghost use Rattle.vll_engine.specs.declared.fault.EngineFault.TheVariants.{Left, NoMemory};

    ghost from_gives = { λ not e. IfOk not.left (λ _. e ≡ NoMemory) × IfErr not.left (λ _. e ≡ Left) };

    fn from(not: NotReopened<N, H>) -> EngineFault {
        match not.left {
            Ok(_) => EngineFault::NoMemory,
            Err(_) => EngineFault::Left,
        }
    }
}
