//! Record numbers, the modes in which calls claim records, and claims.
use std::marker::Model;

/// A record's number, from 0. Contracts see it as that number.
#[derive(Clone, Copy, PartialEq, Eq, Debug)]
pub struct RecordId(pub u32);

impl Model for RecordId {
    ghost use Rattle.std.specs.Prelude.{ℕ};

    ghost Value = { ℕ };

    ghost view = { λ r. r.0 };

    ghost inverse = { λ n. record { 0 = n } };
}

/// How a call claims a record: shared with other readers, or exclusive.
#[derive(Clone, Copy, PartialEq, Eq, Debug)]
pub enum Mode {
    Read,
    Write,
}

/// A record, and how a call claims it.
#[derive(Clone, Copy, PartialEq, Eq, Debug)]
pub struct Claim {
    pub id: RecordId,
    pub mode: Mode,
}
