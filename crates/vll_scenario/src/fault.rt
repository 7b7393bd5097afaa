//! Why a scenario is refused: the faults, the parts in which they lie, and the words printed for them.
ghost use Rattle.std.specs.Prelude.{◌≡◌};
ghost use Rattle.vll_scenario.specs.Line.{call_number, check_number};

use std::alloc::{AllocError, AllocFailed};
use std::error::Error;
use std::fmt;
use vll_check::{CallFault, CheckFault, NameTwice};

/// A part of a scenario. The parts' shapes are checked in this order.
#[derive(Clone, Copy, PartialEq, Eq, Debug)]
pub enum Part {
    /// The whole: not an object, a member missing, or an unknown member.
    Top,
    Version,
    Records,
    Procs,
    Clients,
    Cap,
    Bits,
    Limit,
    Hash,
    Schedule,
}

/// Where a scenario has the wrong shape: the part, and the index of its first faulty item, from 0. The index is 0 for
/// `top`, for a single value, and if a part that should be a list is not one.
#[derive(Clone, Copy, PartialEq, Eq, Debug)]
pub struct Spot {
    pub part: Part,
    pub index: u32,
}

/// Why a scenario was refused; its text is the rest of the printed line. Reading and the number of bytes are checked
/// first, then `Json`, `Shape`, the other sizes, `Check`, `NameTwice` and `Call`. Of several faulty procedures or calls
/// the lowest is reported.
#[derive(Clone, Copy, PartialEq, Eq, Debug)]
pub enum ScenarioFault {
    /// The reader failed.
    Read,
    /// The bytes are not a JSON text.
    Json,
    /// The JSON tree has the wrong shape.
    Shape(Spot),
    /// A procedure is not well-formed.
    Check {
        index: u32,
        fault: CheckFault,
    },
    /// A call cannot be made.
    Call {
        client: u32,
        index: u32,
        fault: CallFault,
    },
    /// More than `MOST_BYTES` bytes, `MOST_PROCS` procedures, `MOST_CLIENTS` clients, `MOST_EVENTS` events, or
    /// `MOST_CALLS` calls in all scripts; or records, a limit, a cap or bits with which no machine can be opened, as
    /// `open_fault` of `vll_core` says.
    Size,
    NoMemory,
    /// Two procedures have the same name.
    NameTwice,
}

impl From<AllocError> for ScenarioFault {
    ghost use Rattle.std.specs.Prelude.{◌≡◌};
    ghost use Rattle.vll_scenario.specs.declared.fault.ScenarioFault.TheVariants.{NoMemory};

    ghost from_gives = { λ _ e. e ≡ NoMemory };

    fn from(_: AllocError) -> ScenarioFault {
        ScenarioFault::NoMemory
    }
}

impl<T: Drop> From<AllocFailed<T>> for ScenarioFault {
    ghost use Rattle.std.specs.Prelude.{◌≡◌};
    ghost use Rattle.vll_scenario.specs.declared.fault.ScenarioFault.TheVariants.{NoMemory};

    ghost from_gives = { λ _ e. e ≡ NoMemory };

    fn from(_: AllocFailed<T>) -> ScenarioFault {
        ScenarioFault::NoMemory
    }
}

impl From<NameTwice> for ScenarioFault {
    ghost use Rattle.std.specs.Prelude.{◌≡◌};
    ghost use Rattle.vll_scenario.specs.declared.fault.ScenarioFault.TheVariants as fault;

    ghost from_gives = { λ _ e. e ≡ fault.NameTwice };

    fn from(_: NameTwice) -> ScenarioFault {
        ScenarioFault::NameTwice
    }
}

impl fmt::Display for Part {
    ghost use Rattle.std.specs.Prelude.{Some};
    ghost use Rattle.vll_scenario.specs.Line.{part_name};

    ghost output = { λ part. Some (part_name part) };

    fn fmt<W: fmt::Write>(&self, f: &mut fmt::Formatter<W>) -> fmt::Result {
        f.write_str(match self {
            Part::Top => "top",
            Part::Version => "version",
            Part::Records => "records",
            Part::Procs => "procs",
            Part::Clients => "clients",
            Part::Cap => "cap",
            Part::Bits => "bits",
            Part::Limit => "limit",
            Part::Hash => "hash",
            Part::Schedule => "schedule",
        })
    }
}

impl fmt::Display for Spot {
    ghost use Rattle.std.specs.Prelude.{Some};
    ghost use Rattle.vll_scenario.specs.Line.{spot_words};

    ghost output = { λ spot. Some (spot_words spot) };

    fn fmt<W: fmt::Write>(&self, f: &mut fmt::Formatter<W>) -> fmt::Result {
        let Spot { part, index } = *self;
        write!(f, "{part} {index}")
    }
}

impl fmt::Display for ScenarioFault {
    ghost use Rattle.std.specs.Prelude.{Some};
    ghost use Rattle.vll_scenario.specs.Line.{fault_words};

    ghost output = { λ fault. Some (fault_words fault) };

    fn fmt<W: fmt::Write>(&self, f: &mut fmt::Formatter<W>) -> fmt::Result {
        match *self {
            ScenarioFault::Read => f.write_str("read"),
            ScenarioFault::Json => f.write_str("json"),
            ScenarioFault::Shape(spot) => write!(f, "shape {spot}"),
            ScenarioFault::Check { index, fault } => {
                let number = number_of_check(fault);
                write!(f, "check {index} {number}")
            }
            ScenarioFault::Call {
                client,
                index,
                fault,
            } => {
                let number = number_of_call(fault);
                write!(f, "call {client} {index} {number}")
            }
            ScenarioFault::Size => f.write_str("size"),
            ScenarioFault::NoMemory => f.write_str("no memory"),
            ScenarioFault::NameTwice => f.write_str("name twice"),
        }
    }
}

impl Error for ScenarioFault {}

// The printed number of a procedure's fault.
fn number_of_check(fault: CheckFault) -> u32
    ensures { result ≡ check_number fault }
{
    match fault {
        CheckFault::TooManyArgs => 1,
        CheckFault::TooManyKeys => 2,
        CheckFault::KeyArg => 3,
        CheckFault::FixedRecord => 4,
        CheckFault::UnknownKey => 5,
        CheckFault::NotWritable => 6,
        CheckFault::UnknownArg => 7,
        CheckFault::UnknownLocal => 8,
        CheckFault::UnsetLocal => 9,
        CheckFault::TooManyReplies => 10,
        CheckFault::TooDeep => 11,
        CheckFault::TooLong => 12,
        CheckFault::ThroughKey => 13,
        CheckFault::TwoThrough => 14,
        CheckFault::Turns => 15,
        CheckFault::TooMuchWork => 16,
    }
}

// The printed number of a call's fault.
fn number_of_call(fault: CallFault) -> u32
    ensures { result ≡ call_number fault }
{
    match fault {
        CallFault::UnknownProc => 1,
        CallFault::ArgCount => 2,
        CallFault::RecordRange => 3,
    }
}
