//! The steps of a running call: its loads, its stores, its releases, and its end.
ghost use Rattle.std.specs.Prelude.{◌≡◌, option_map};
ghost use Rattle.vll_core.specs.Machine.{running, step, answer_of};
ghost use Rattle.vll_core.specs.Shown.{after, library_of, opening_of};
ghost use Rattle.vll_core.specs.State.{Entered};
ghost use Rattle.vll_core.specs.declared.event.Event.TheVariants as event;

use crate::machine::Machine;
use crate::refusal::Refusal;
use crate::seen::Seen;
use crate::ticket::Ticket;
use vll_check::Library;
use vll_proc::Call;
use vll_record::{delta, pair_word, value_word};
use vll_sca::{Place, Status};

impl<H: Place> Machine<H> {
    // Loads the record of a running call's next claim.
    pub(crate) fn load(&mut self, library: &Library, ticket: Ticket) -> Result<Seen, Refusal>
        requires same { library.now ≡ library_of self.old }
        ensures answer { result ≡ answer_of (step (opening_of H.place_of self.old) self.old.state (event.Load ticket)) }
        ensures state { self.new ≡ after self.old (step (opening_of H.place_of self.old) self.old.state (event.Load ticket)) }
    {
        let Some(call) = self.running_call(ticket) else {
            return Err(Refusal::NotRunning);
        };
        let index = ticket.0 as usize;
        let Some(claim) = self.execution[index].next_load(&call) else {
            return Err(Refusal::OutOfStep);
        };
        let value = self.words[value_word(claim.id)];
        let procedure = library.proc(call.number).unwrap();
        self.execution[index].load(&call, procedure, value);
        Ok(Seen::Loaded(value))
    }

    // Stores the record of a running call's next Write claim.
    pub(crate) fn store(&mut self, ticket: Ticket) -> Result<Seen, Refusal>
        ensures answer { result ≡ answer_of (step (opening_of H.place_of self.old) self.old.state (event.Store ticket)) }
        ensures state { self.new ≡ after self.old (step (opening_of H.place_of self.old) self.old.state (event.Store ticket)) }
    {
        let Some(call) = self.running_call(ticket) else {
            return Err(Refusal::NotRunning);
        };
        let index = ticket.0 as usize;
        let execution = &self.execution[index];
        if !execution.has_loaded(&call) || execution.has_aborted() {
            return Err(Refusal::OutOfStep);
        }
        let Some((claim, value)) = execution.next_store(&call) else {
            return Err(Refusal::OutOfStep);
        };
        self.words[value_word(claim.id)] = value;
        self.execution[index].stored();
        Ok(Seen::Stored)
    }

    // Releases a running call's next claim.
    pub(crate) fn release(&mut self, ticket: Ticket) -> Result<Seen, Refusal>
        ensures answer { result ≡ answer_of (step (opening_of H.place_of self.old) self.old.state (event.Release ticket)) }
        ensures state { self.new ≡ after self.old (step (opening_of H.place_of self.old) self.old.state (event.Release ticket)) }
    {
        let Some(call) = self.running_call(ticket) else {
            return Err(Refusal::NotRunning);
        };
        let index = ticket.0 as usize;
        let execution = &self.execution[index];
        if !execution.has_stored(&call) {
            return Err(Refusal::OutOfStep);
        }
        let Some(claim) = execution.next_release(&call) else {
            return Err(Refusal::OutOfStep);
        };
        let word = pair_word(claim.id);
        let old = self.words[word];
        self.words[word] = old - delta(claim.mode);
        self.execution[index].released();
        Ok(Seen::Released(old))
    }

    // Finishes a running call that has released all its claims: it is gone, with its reply.
    pub(crate) fn finish(&mut self, ticket: Ticket) -> Result<Seen, Refusal>
        ensures answer { result ≡ answer_of (step (opening_of H.place_of self.old) self.old.state (event.Finish ticket)) }
        ensures state { self.new ≡ after self.old (step (opening_of H.place_of self.old) self.old.state (event.Finish ticket)) }
    {
        if self.turn.is_some() {
            return Err(Refusal::TurnOpen);
        }
        let Some(call) = self.running_call(ticket) else {
            return Err(Refusal::NotRunning);
        };
        let execution = &self.execution[ticket.0 as usize];
        if !execution.has_stored(&call) || execution.next_release(&call).is_some() {
            return Err(Refusal::OutOfStep);
        }
        let reply = execution.reply.as_ref().unwrap();
        self.queue.remove(ticket, reply);
        Ok(Seen::Replied(*reply))
    }

    // Returns the call of a ticket, if it is running.
    pub(crate) fn running_call(&self, ticket: Ticket) -> Option<Call>
        ensures { result ≡ option_map (λ (e : Entered). e.call) (running self.now.state ticket) }
    {
        match self.queue.status(ticket)? {
            Status::Running => Some(self.queue.line(ticket)?.call),
            _ => None,
        }
    }
}
