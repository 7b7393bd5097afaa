//! The pass of a running call, and what it becomes once the call is executed and once its claims are released.
ghost use Rattle.std.specs.Prelude.{◌≡◌};

use std::marker::Model;
use vll_core::Ticket;
use vll_counters::PassSeat;
use vll_proc::{Call, Reply};
use vll_record::Claims;

/// The right to execute the running call of a ticket. `Engine::execute` consumes it; it can neither be dropped nor used
/// twice. Contracts see what the pass knows.
pub struct Pass {
    // The first field, so that the call is copied only once, to where the pass is kept.
    pub(crate) call: Call,
    pub(crate) seat: PassSeat,
    pub(crate) ticket: Ticket,
}

impl Model for Pass {
    ghost use Rattle.std.specs.Prelude.{◌≡◌};
    ghost use Rattle.vll_counters.specs.Shown.{PassShown};

    ghost Value = { PassShown };

    ghost view = { λ p. p.seat };

    ghost invariant = { λ p. (p.seat.pass.ticket ≡ p.ticket) × (p.seat.pass.call ≡ p.call) };
}

/// A call that was executed and still has its claims. `Engine::release` consumes it. Contracts see what its pass knows,
/// and its reply.
pub struct Done {
    pub(crate) seat: PassSeat,
    pub(crate) ticket: Ticket,
    pub(crate) claims: Claims,
    pub(crate) reply: Reply,
}

impl Model for Done {
    ghost use Rattle.std.specs.Prelude.{◌≡◌};
    ghost use Rattle.vll_queue.specs.Pass.{DoneShown};

    ghost Value = { DoneShown };

    ghost view = { λ d. record { table = d.seat.table; pass = d.seat.pass; reply = d.reply } };

    ghost invariant = { λ d. (d.seat.pass.ticket ≡ d.ticket) × (d.seat.pass.call.claims ≡ d.claims) };
}

/// A call that was executed and has released its claims. `Engine::finish` consumes it. Contracts see what its pass
/// knows, and its reply.
pub struct Released {
    pub(crate) seat: PassSeat,
    pub(crate) ticket: Ticket,
    pub(crate) reply: Reply,
}

impl Model for Released {
    ghost use Rattle.std.specs.Prelude.{◌≡◌};
    ghost use Rattle.vll_queue.specs.Pass.{DoneShown};

    ghost Value = { DoneShown };

    ghost view = { λ d. record { table = d.seat.table; pass = d.seat.pass; reply = d.reply } };

    ghost invariant = { λ d. d.seat.pass.ticket ≡ d.ticket };
}

impl Pass {
    /// The call's number in the order of entry, from 0.
    pub fn ticket(&self) -> Ticket
        ensures { result ≡ self.now.pass.ticket }
    {
        self.ticket
    }
}

impl Pass {
    /// The pass of this call, which runs by this seat.
    #[inline(always)]
    pub fn of(call: &Call, seat: PassSeat, ticket: Ticket) -> Pass
        requires call { seat.pass.call ≡ call.now }
        requires ticket { seat.pass.ticket ≡ ticket }
        ensures { result ≡ seat }
    {
        Pass {
            call: *call,
            seat,
            ticket,
        }
    }

    /// What is left of a pass whose call has made all its steps, with its reply.
    #[inline(always)]
    pub fn into_released(self, reply: Reply) -> Released
        ensures { result ≡ record { table = self.table; pass = self.pass; reply = reply } }
    {
        let Pass {
            call: _,
            seat,
            ticket,
        } = self;
        Released {
            seat,
            ticket,
            reply,
        }
    }
}

impl Done {
    /// The call's number in the order of entry, from 0.
    pub fn ticket(&self) -> Ticket
        ensures { result ≡ self.now.pass.ticket }
    {
        self.ticket
    }
}

impl Released {
    /// What is left of a call that has made all its steps by this seat, with its reply.
    #[inline(always)]
    pub fn of(seat: PassSeat, ticket: Ticket, reply: Reply) -> Released
        requires ticket { seat.pass.ticket ≡ ticket }
        ensures { result ≡ record { table = seat.table; pass = seat.pass; reply = reply } }
    {
        Released {
            seat,
            ticket,
            reply,
        }
    }

    /// The reply.
    #[inline(always)]
    pub fn reply(&self) -> Reply
        ensures { result ≡ self.now.reply }
    {
        self.reply
    }

    /// The call's number in the order of entry, from 0.
    pub fn ticket(&self) -> Ticket
        ensures { result ≡ self.now.pass.ticket }
    {
        self.ticket
    }
}
