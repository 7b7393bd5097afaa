//! What an event would act on, if it were made now, and the line that an open turn's call would get.
ghost use Rattle.std.specs.Prelude.{◌≡◌, option_map};
ghost use Rattle.vll_core.specs.Machine.{running};
ghost use Rattle.vll_core.specs.Moves.{entry_release, entry_store, turn_request};
ghost use Rattle.vll_core.specs.Next.{claim_of, entry_load, line_of_turn};

use crate::event::Event;
use crate::line::Line;
use crate::machine::Machine;
use crate::ticket::Ticket;
use vll_record::Claim;
use vll_sca::Place;

impl<H: Place> Machine<H> {
    /// Returns the claim that an event would act on, if it were made now: the next one that the call of the open turn
    /// requests, or that a running call loads, stores or releases. `None` if there is none, and for any other event.
    pub fn claim_of(&self, event: Event) -> Option<Claim>
        ensures { result ≡ claim_of self.now.state event }
    {
        match event {
            Event::Claim => self.next_request(),
            Event::Load(ticket) => self.next_load(ticket),
            Event::Store(ticket) => self.next_store(ticket),
            Event::Release(ticket) => self.next_release(ticket),
            Event::Find(_)
            | Event::Enter(_)
            | Event::Admit
            | Event::Front
            | Event::Scan
            | Event::Finish(_) => None,
        }
    }

    /// Returns the line that the call of the open turn gets when it enters, if a turn is open.
    pub fn line_of_turn(&self) -> Option<Line>
        ensures { result ≡ option_map line_of_turn self.now.state.turn }
    {
        let turn = self.turn?;
        Some(Line {
            client: turn.client,
            call: turn.call,
            reply: None,
        })
    }

    // The claim that the call of the open turn requests next.
    fn next_request(&self) -> Option<Claim>
        ensures { result ≡ turn_request self.now.state.turn }
    {
        let turn = self.turn?;
        turn.call.claims.get(turn.requested as usize)
    }

    // The claim whose record a running call loads next.
    fn next_load(&self, ticket: Ticket) -> Option<Claim>
        ensures { result ≡ entry_load (running self.now.state ticket) }
    {
        let call = self.running_call(ticket)?;
        let execution = &self.execution[ticket.0 as usize];
        execution.next_load(&call)
    }

    // The Write claim whose record a running call stores next.
    fn next_store(&self, ticket: Ticket) -> Option<Claim>
        ensures { result ≡ entry_store (running self.now.state ticket) }
    {
        let call = self.running_call(ticket)?;
        let execution = &self.execution[ticket.0 as usize];
        let next = execution.next_store(&call)?;
        Some(next.0)
    }

    // The claim that a running call releases next.
    fn next_release(&self, ticket: Ticket) -> Option<Claim>
        ensures { result ≡ entry_release (running self.now.state ticket) }
    {
        let call = self.running_call(ticket)?;
        let execution = &self.execution[ticket.0 as usize];
        execution.next_release(&call)
    }
}
