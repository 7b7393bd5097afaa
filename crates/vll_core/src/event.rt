//! The events of a machine, one for each kind of atomic step.
use crate::ticket::Ticket;

/// One atomic step. A running call makes its loads, then, unless it aborted, its stores, and then its releases. Loads
/// and releases go once over all its claims, stores once over its Write claims, each in rising record order.
#[derive(Clone, Copy, PartialEq, Eq, Debug)]
pub enum Event {
    /// The source of the indirect key of the next call of a client's script is loaded, without a claim; the value is
    /// kept for the call, and replaces one kept before. Clients are numbered from 0.
    Find(u32),
    /// A turn opens for the next call of a client's script; a call with an indirect key uses the value that is kept for
    /// it. Clients are numbered from 0.
    Enter(u32),
    /// The call of the open turn requests its next claim, whose delta is added to the record's pair word.
    Claim,
    /// The call of the open turn gets the next ticket, and the turn closes.
    Admit,
    /// The lowest ticket that is not gone, if it waits, begins to run.
    Front,
    /// The first waiting call that is in hash conflict with no earlier one that runs or waits begins to run.
    Scan,
    /// A running call loads the record of its next claim.
    Load(Ticket),
    /// A running call stores the record of its next Write claim.
    Store(Ticket),
    /// A running call releases its next claim, whose delta is taken from the record's pair word.
    Release(Ticket),
    /// A running call that has released all its claims is gone, and its line gets the reply.
    Finish(Ticket),
}
