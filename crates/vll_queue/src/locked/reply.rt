//! The reply in a ticket's line, as a session gets it under the lock.
ghost use Rattle.std.specs.Prelude.{◌≡◌, ◌++◌, ◌∷◌, [], IfNone, IfSome, IsSome, Some, slice_get};
ghost use Rattle.vll_core.specs.Queue.{IsQueued, lines};
ghost use Rattle.vll_proc.specs.Headline.Serial.{answer};
ghost use Rattle.vll_queue.specs.Replied.{reply_in};
ghost use Rattle.vll_queue.specs.Sessions.{SawOthers};
ghost use Rattle.vll_queue.specs.Shown.{words_of};

use super::Locked;
use crate::name::Name;
use crate::session::Session;
use vll_core::Ticket;
use vll_counters::Words;
use vll_proc::Reply;
use vll_sca::Place;

impl<N: Name, H: Place> Locked<N, H> {
    /// Returns the reply in the ticket's line, if there is one. The session sees all calls that have entered, and is
    /// given the ticket if there is a reply.
    pub fn reply(&mut self, words: &Words, session: &mut Session, ticket: Ticket) -> Option<Reply>
        requires words { words.now ≡ words_of N.engine }
        requires session { session.old.table ≡ N.engine.table }
        ensures line { result ≡ reply_in (slice_get (lines self.old) ticket) }
        ensures reply { IfSome result (λ reply. answer N.engine.base.procs session.new.session.seen N.engine.base.records ticket ≡ Some reply) }
        ensures given { IfSome result (λ _. session.new.session.given ≡ session.old.session.given ++ ticket ∷ []) }
        ensures none { IfNone result (session.new.session.given ≡ session.old.session.given) }
        ensures ever { (k : _) → slice_get session.old.session.given k ≡ Some ticket → IsSome result }
        ensures session { (session.new.table ≡ session.old.table) × SawOthers session.old.session session.new.session }
        ensures queue { self.new ≡ self.old }
    {
        let Some(seat) = session.seat.take() else {
            unreachable!()
        };
        let reply = self.reply_of(ticket);
        words.join_session(&mut self.seat, seat, None);
        let given = reply.is_some().then_some(ticket);
        session.seat = Some(words.give_session(&mut self.seat, given));
        reply
    }

    // The reply in the line of a ticket, if there is one.
    fn reply_of(&self, ticket: Ticket) -> Option<Reply>
        ensures reply { result ≡ reply_in (slice_get (lines self.now) ticket) }
        ensures kept { IsQueued self.now }
    {
        self.queue.journal().get(ticket.0 as usize)?.reply
    }
}
