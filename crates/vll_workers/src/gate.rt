//! Gates: observers of the calls that a run executes, and of its workers as they leave.
use crate::tally::Tally;
use vll_core::Ticket;

/// How a call that waited was chosen to run.
#[derive(Clone, Copy, PartialEq, Eq, Debug)]
pub enum Choice {
    /// It is at the front of the queue.
    Front,
    /// The scan of the queue found it.
    Scan,
}

/// An observer of each call that a run executes, and of each worker that leaves. `before`, `after` and `left` are called
/// outside the engine's lock, by the thread that executes the call, and the call waits for as long as they take. A gate
/// that may wait can wait in such a function until another call has entered and was executed, if another worker is free
/// to do that.
///
/// `entered`, `chosen` and `finished` are called under the engine's lock, so all of them are called one after the other,
/// in the order in which these things happen. They must not wait for another call.
pub trait Gate {
    /// Called when a call is about to be executed.
    fn before(&self, ticket: Ticket);

    /// Called once the call has its reply.
    fn after(&self, ticket: Ticket);

    /// Called under the engine's lock, when a call has entered. One that is not free waits.
    fn entered(&self, _ticket: Ticket, _is_free: bool) {}

    /// Called under the engine's lock, when a call that waited may run.
    fn chosen(&self, _ticket: Ticket, _by: Choice) {}

    /// Called under the engine's lock, when a call that was executed is gone from the queue.
    fn finished(&self, _ticket: Ticket) {}

    /// Called when a worker has left, with what it did: once for each worker, and for the calling thread, which makes
    /// the calls that are left.
    fn left(&self, _tally: Tally) {}

    /// Whether a function of this gate may wait for another call. If so, a worker begins one call at a time, and its
    /// client's token is back in the pool before the call is executed, so that other workers can make that client's
    /// next calls. If not, a worker may keep tokens in hand for some time, begin several calls at once, execute them
    /// one after the other and finish them together: `before` of a call may then come before `after` of an earlier one.
    fn may_wait(&self) -> bool {
        true
    }
}

/// The gate that does nothing.
#[derive(Clone, Copy, Debug)]
pub struct OpenGate;

impl Gate for OpenGate {
    fn before(&self, _ticket: Ticket) {}

    fn after(&self, _ticket: Ticket) {}

    fn may_wait(&self) -> bool {
        false
    }
}
