//! The results of beginning a call, and why a call may not begin.
ghost use Rattle.std.specs.Prelude.{◌≡◌};
ghost use Rattle.vll_queue.specs.Admission.{IsSeatOf, begun};

use crate::pass::Pass;
use vll_core::Ticket;
use vll_counters::PassSeat;
use vll_proc::Call;

/// The result of beginning a call.
pub enum Begun {
    /// Each claim was granted: the call may run, by this pass.
    Free(Pass),
    /// A claim was denied: the call waits under this ticket, until `next_front` or `next_scan` gives a pass for it.
    Blocked(Ticket),
    /// The call has not entered, and has no claim.
    Refused(BeginRefusal),
}

/// The result of beginning a call under the lock. A call that may run gets only a seat there: the caller makes the pass
/// of the call and the seat where the pass is to stay, since each move would copy the call.
pub enum Admission {
    /// Each claim was granted: the call may run.
    Free(PassSeat, Ticket),
    /// A claim was denied: the call waits.
    Blocked(Ticket),
    /// The call has not entered, and has no claim.
    Refused(BeginRefusal),
}

impl Admission {
    /// Returns the result of beginning this call, made of the result that the lock gave.
    #[inline(always)]
    pub fn into_begun(self, call: &Call) -> Begun
        requires { IsSeatOf call.now self }
        ensures { result ≡ begun self }
    {
        match self {
            Admission::Free(seat, ticket) => Begun::Free(Pass::of(call, seat, ticket)),
            Admission::Blocked(ticket) => Begun::Blocked(ticket),
            Admission::Refused(why) => Begun::Refused(why),
        }
    }
}

/// Why a call may not begin: the first of these that holds, in this order.
#[derive(Clone, Copy, PartialEq, Eq, Debug)]
pub enum BeginRefusal {
    /// As many calls as the limit have entered. This stays so.
    Spent,
    /// As many entered calls as the cap wait.
    Busy,
}
