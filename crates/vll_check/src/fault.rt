//! The faults of a procedure and of a call, and that of a library with a name twice.
use thiserror::Error;

/// Why a procedure is not well-formed: the lowest number whose test fails.
#[derive(Clone, Copy, PartialEq, Eq, Debug, Error)]
pub enum CheckFault {
    /// More than `MOST_ARGS` arguments.
    #[error("1")]
    TooManyArgs,
    /// More key positions than the edition allows: more than `FIRST_MOST_KEYS` in edition One, more than `MOST_CLAIMS`
    /// in edition Two.
    #[error("2")]
    TooManyKeys,
    /// A key's record is named by an argument that is not declared.
    #[error("3")]
    KeyArg,
    /// A fixed record is not one of the records.
    #[error("4")]
    FixedRecord,
    /// A key position that is not declared is read or set.
    #[error("5")]
    UnknownKey,
    /// A key position that is declared Read is set, even if another position of its record is Write.
    #[error("6")]
    NotWritable,
    /// An argument that is not declared is read.
    #[error("7")]
    UnknownArg,
    /// A local whose index is `MOST_LOCALS` or more is read or set.
    #[error("8")]
    UnknownLocal,
    /// A local that is not surely set before is read.
    #[error("9")]
    UnsetLocal,
    /// More than `MOST_OUTPUTS` replies.
    #[error("10")]
    TooManyReplies,
    /// A body deeper than `MOST_DEPTH`.
    #[error("11")]
    TooDeep,
    /// More than `MOST_NODES` nodes in the body.
    #[error("12")]
    TooLong,
    /// A key position's record is to be found by another one that does not come before it, or that does not name its
    /// record directly.
    #[error("13")]
    ThroughKey,
    /// More than one key position whose record is found by another's value.
    #[error("14")]
    TwoThrough,
    /// A `Repeat` of more than `MOST_TURNS` turns, or any `Repeat` in edition One.
    #[error("15")]
    Turns,
    /// A body whose weight is above `MOST_WEIGHT`.
    #[error("16")]
    TooMuchWork,
}

/// Why a call cannot be made: the lowest number that applies.
#[derive(Clone, Copy, PartialEq, Eq, Debug, Error)]
pub enum CallFault {
    /// No procedure has the name.
    #[error("1")]
    UnknownProc,
    /// The number of arguments is not the declared one.
    #[error("2")]
    ArgCount,
    /// An argument that names a key's record is not below the number of records.
    #[error("3")]
    RecordRange,
}

/// Two procedures have the same name.
#[derive(Clone, Copy, PartialEq, Eq, Debug, Error)]
#[error("name twice")]
pub struct NameTwice;
