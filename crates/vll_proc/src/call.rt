//! Calls of procedures, their replies, and the reasons for which they are aborted.
ghost use Rattle.std.specs.Prelude.{◌≡◌, ◌↔◌, IsTrue};

use crate::limits::MOST_ARGS;
use crate::outputs::Outputs;
use vll_record::{Claims, MOST_CLAIMS};

/// Why a call was aborted.
#[derive(Clone, Copy, PartialEq, Eq, Debug)]
pub enum Reason {
    /// The procedure's own reason.
    Code(u16),
    /// A result above 18446744073709551615.
    Overflow,
    /// A difference below 0.
    Underflow,
    /// A division by 0.
    ZeroDivisor,
    /// When the body began, the record by whose value a key position's record was found held another value.
    Moved,
}

/// The reply to a call: its outputs, or why it was aborted. An aborted call changes no record.
#[derive(Clone, Copy, Debug)]
pub enum Reply {
    Committed(Outputs),
    Aborted(Reason),
}

/// A call of a procedure, with the claims it makes. It owns no memory.
#[derive(Clone, Copy)]
pub struct Call {
    /// The procedure, by its index in the library, from 0.
    pub number: u32,
    pub arg_count: u8,
    /// The arguments, padded with zeros.
    pub args: [u64; MOST_ARGS],
    /// The value by which the record of an indirect key position was found. `None` if no position is indirect, and
    /// until a value is found: until then that position names no record.
    pub found: Option<u64>,
    /// Claims on the records that the key positions name, one for each record.
    pub claims: Claims,
    /// For each key position the index of its claim, padded with zeros.
    pub cells: [u8; MOST_CLAIMS],
}

impl PartialEq for Call {
    ghost use Rattle.vll_proc.specs.Same.{is_same_call};
    ghost use Rattle.vll_proc.specs.Private.Same.{is_same_call-laws};

    ghost eq = { is_same_call };

    ghost laws = { is_same_call-laws };

    /// Reports whether the two are the same call: of one procedure, with the same arguments, value found, claims and
    /// cells.
    fn eq(&self, other: &Call) -> bool
        ensures value { result ≡ is_same_call self.now other.now }
        ensures same { IsTrue result ↔ (self.now ≡ other.now) }
    {
        self.number == other.number
            && self.arg_count == other.arg_count
            && self.args == other.args
            && self.found == other.found
            && self.cells == other.cells
            && self.claims == other.claims
    }
}
