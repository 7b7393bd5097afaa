//! The finish of a call under the lock: it is gone, and its line gets the reply.
ghost use Rattle.std.specs.Prelude.{◌≡◌, ◌++◌, ◌∷◌, [], Some};
ghost use Rattle.vll_core.specs.Queue.{finished};
ghost use Rattle.vll_proc.specs.Headline.Serial.{answer};
ghost use Rattle.vll_queue.specs.Pass.{IsReleased};
ghost use Rattle.vll_queue.specs.Replied.{HasReply};
ghost use Rattle.vll_queue.specs.Sessions.{SawOthers};
ghost use Rattle.vll_queue.specs.Shown.{words_of};

use super::Locked;
use crate::name::Name;
use crate::pass::Released;
use crate::session::Session;
use vll_core::Ticket;
use vll_counters::Words;
use vll_proc::Reply;
use vll_sca::Place;

impl<N: Name, H: Place> Locked<N, H> {
    /// Finishes the call of a pass that has made all its steps: it is gone, and its line gets the reply. Returns its ticket.
    #[inline(always)]
    pub fn finish(&mut self, words: &Words, released: Released) -> Ticket
        requires words { words.now ≡ words_of N.engine }
        requires released { IsReleased N.engine released }
        ensures ticket { result ≡ released.pass.ticket }
        ensures queue { self.new ≡ finished self.old released.pass.ticket released.reply }
        ensures done { HasReply self.new released.pass.ticket released.reply }
    {
        let Released {
            seat,
            ticket,
            reply,
        } = released;
        words.join_pass(&mut self.seat, seat);
        self.queue.remove(ticket, &reply);
        self.patience.finished();
        ticket
    }

    /// As `finish`, and gives the session the ticket. The session sees all calls that have entered.
    #[inline(always)]
    pub fn finish_own(&mut self, words: &Words, session: &mut Session, released: Released)
        requires words { words.now ≡ words_of N.engine }
        requires session { session.old.table ≡ N.engine.table }
        requires released { IsReleased N.engine released }
        ensures reply { answer N.engine.base.procs session.new.session.seen N.engine.base.records released.pass.ticket ≡ Some released.reply }
        ensures given { session.new.session.given ≡ session.old.session.given ++ released.pass.ticket ∷ [] }
        ensures session { (session.new.table ≡ session.old.table) × SawOthers session.old.session session.new.session }
        ensures queue { self.new ≡ finished self.old released.pass.ticket released.reply }
    {
        let Some(seat) = session.seat.take() else {
            unreachable!()
        };
        let ticket = self.finish(words, released);
        words.join_session(&mut self.seat, seat, None);
        session.seat = Some(words.give_session(&mut self.seat, Some(ticket)));
    }
}
