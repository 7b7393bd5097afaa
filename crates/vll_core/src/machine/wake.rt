//! Starting a waiting call: the front of the queue, or the one that the contention analysis finds.
ghost use Rattle.std.specs.Prelude.{◌≡◌};
ghost use Rattle.vll_core.specs.Machine.{step, answer_of};
ghost use Rattle.vll_core.specs.Shown.{after, opening_of};
ghost use Rattle.vll_core.specs.declared.event.Event.TheVariants as event;

use crate::machine::Machine;
use crate::refusal::Refusal;
use crate::seen::Seen;
use vll_sca::Place;

impl<H: Place> Machine<H> {
    // Starts the front of the queue, if it waits.
    pub(crate) fn front(&mut self) -> Result<Seen, Refusal>
        ensures answer { result ≡ answer_of (step (opening_of H.place_of self.old) self.old.state event.Front) }
        ensures state { self.new ≡ after self.old (step (opening_of H.place_of self.old) self.old.state event.Front) }
    {
        if self.turn.is_some() {
            return Err(Refusal::TurnOpen);
        }
        match self.queue.front() {
            Some(ticket) => Ok(Seen::Run(ticket)),
            None => Err(Refusal::Idle),
        }
    }

    // Starts the first waiting call that is in hash conflict with no earlier one.
    pub(crate) fn scan(&mut self) -> Result<Seen, Refusal>
        ensures answer { result ≡ answer_of (step (opening_of H.place_of self.old) self.old.state event.Scan) }
        ensures state { self.new ≡ after self.old (step (opening_of H.place_of self.old) self.old.state event.Scan) }
    {
        if self.turn.is_some() {
            return Err(Refusal::TurnOpen);
        }
        match self.queue.scan() {
            Some(ticket) => Ok(Seen::Run(ticket)),
            None => Err(Refusal::Idle),
        }
    }
}
