//! An open turn: its call requests its claims, and is admitted.
ghost use Rattle.std.specs.Prelude.{◌≡◌};
ghost use Rattle.vll_core.specs.Machine.{step, answer_of};
ghost use Rattle.vll_core.specs.Shown.{after, library_of, opening_of};
ghost use Rattle.vll_core.specs.declared.event.Event.TheVariants as event;

use crate::execution::Execution;
use crate::machine::{Machine, OpenTurn};
use crate::refusal::Refusal;
use crate::seen::Seen;
use vll_check::Library;
use vll_record::{delta, granted, pair_word};
use vll_sca::Place;

impl<H: Place> Machine<H> {
    // Requests the next claim of the open turn's call.
    pub(crate) fn claim(&mut self) -> Result<Seen, Refusal>
        ensures answer { result ≡ answer_of (step (opening_of H.place_of self.old) self.old.state event.Claim) }
        ensures state { self.new ≡ after self.old (step (opening_of H.place_of self.old) self.old.state event.Claim) }
    {
        let Some(turn) = self.turn else {
            return Err(Refusal::NoTurn);
        };
        let Some(claim) = turn.call.claims.get(turn.requested as usize) else {
            return Err(Refusal::OutOfStep);
        };
        let word = pair_word(claim.id);
        let old = self.words[word];
        self.words[word] = old + delta(claim.mode);
        let granted = granted(claim.mode, old);
        self.turn = Some(OpenTurn {
            requested: turn.requested + 1,
            granted: turn.granted && granted,
            ..turn
        });
        Ok(Seen::Claimed { old, granted })
    }

    // Gives the call of the open turn the next ticket.
    pub(crate) fn admit(&mut self, library: &Library) -> Result<Seen, Refusal>
        requires same { library.now ≡ library_of self.old }
        ensures answer { result ≡ answer_of (step (opening_of H.place_of self.old) self.old.state event.Admit) }
        ensures state { self.new ≡ after self.old (step (opening_of H.place_of self.old) self.old.state event.Admit) }
    {
        let Some(turn) = self.turn else {
            return Err(Refusal::NoTurn);
        };
        if (turn.requested as usize) < turn.call.claims.len() {
            return Err(Refusal::OutOfStep);
        }
        let procedure = library.proc(turn.call.number).unwrap();
        self.execution
            .push_reserved(Execution::new(&turn.call, procedure));
        let ticket = self.queue.admit(turn.client, &turn.call, turn.granted);
        self.turn = None;
        if turn.granted {
            Ok(Seen::Free(ticket))
        } else {
            Ok(Seen::Blocked(ticket))
        }
    }
}
