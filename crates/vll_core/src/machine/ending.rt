//! The event that brings a machine nearer to its end.
ghost use Rattle.std.specs.Prelude.{◌≡◌, ◌<◌, ◌^◌, None, Some, IfSome, length, nat_lt, option_map, if◌then◌else◌};
ghost use Rattle.vll_core.specs.Drain.{IsAtEnd};
ghost use Rattle.vll_core.specs.Machine.{running};
ghost use Rattle.vll_core.specs.Moves.{IsReached};
ghost use Rattle.vll_core.specs.Private.Draining.{IsNext, left};
ghost use Rattle.vll_core.specs.Shown.{opening_of};
ghost use Rattle.vll_core.specs.State.{Entered};
ghost use Rattle.vll_core.specs.declared.event.Event.TheVariants as event;

use crate::event::Event;
use crate::machine::{Machine, OpenTurn};
use crate::ticket::Ticket;
use vll_proc::Call;
use vll_sca::Place;

impl<H: Place> Machine<H> {
    // Returns a request or the admission of the open turn's call; if no turn is open, Front or the next step of the
    // lowest ticket that is not gone. `None` exactly if no turn is open and every call is gone.
    pub(crate) fn next_event(&self) -> Option<Event>
        ensures next { IfSome result (IsNext (opening_of H.place_of self.now) self.now.state) }
        ensures end { result ≡ None → IsAtEnd self.now.base self.now.state }
        ensures reached { IsReached (opening_of H.place_of self.now) self.now.state }
        ensures few { left self.now.state < 2 ^ 32 }
    {
        if let Some(turn) = self.turn {
            return Some(turn_event(turn));
        }
        let ticket = self.queue.lowest()?;
        Some(match self.running_call(ticket) {
            Some(call) => self.next_step(ticket, &call),
            None => Event::Front,
        })
    }

    // The next step of a running call, while no turn is open.
    fn next_step(&self, ticket: Ticket, call: &Call) -> Event
        requires closed { self.now.state.turn ≡ None }
        requires runs { Some call.now ≡ option_map (λ (e : Entered). e.call) (running self.now.state ticket) }
        ensures { IsNext (opening_of H.place_of self.now) self.now.state result }
    {
        let execution = &self.execution[ticket.0 as usize];
        if !execution.has_loaded(call) {
            Event::Load(ticket)
        } else if !execution.has_stored(call) {
            Event::Store(ticket)
        } else if execution.next_release(call).is_some() {
            Event::Release(ticket)
        } else {
            Event::Finish(ticket)
        }
    }
}

// What an open turn has to do next: its call requests its claims, and is then admitted.
fn turn_event(turn: OpenTurn) -> Event
    ensures { result ≡ (if nat_lt turn.requested (length turn.call.claims) then event.Claim else event.Admit) }
{
    if (turn.requested as usize) < turn.call.claims.len() {
        Event::Claim
    } else {
        Event::Admit
    }
}
