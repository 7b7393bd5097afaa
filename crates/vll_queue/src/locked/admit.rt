//! The entry of a call under the lock, or its refusal.
ghost use Rattle.std.specs.Prelude.{◌≡◌, ◌<◌, All, Some, None, count_by, length};
ghost use Rattle.vll_record.specs.declared.claim.Claim.{Claim};
ghost use Rattle.vll_check.specs.Calls.{IsReady};
ghost use Rattle.vll_check.specs.Catalog.{IsCatalog};
ghost use Rattle.vll_core.specs.Queue.{IsQueued, lines, statuses};
ghost use Rattle.vll_sca.specs.Headline.Status.{is_waiting};
ghost use Rattle.vll_counters.specs.Headline.Views.{calls_in};
ghost use Rattle.vll_queue.specs.Begin.{Begins, refusal};
ghost use Rattle.vll_queue.specs.Admission.{IsRefusedBy, IsSeatOf, asked_turn, begun, begun_by, first_turn};
ghost use Rattle.vll_queue.specs.Looked.{IsLookedUp};
ghost use Rattle.vll_queue.specs.Sessions.{SawOthers};
ghost use Rattle.vll_queue.specs.Shown.{library_of, words_of};

use super::Locked;
use crate::begun::{Admission, BeginRefusal};
use crate::name::Name;
use crate::session::Session;
use vll_counters::{QueueSeat, SessionSeat, Words};
use vll_proc::Call;
use vll_record::granted;
use vll_sca::Place;

impl<N: Name, H: Place> Locked<N, H> {
    /// Enters a ready call of the session's client, which requests all its claims and gets a ticket, or refuses it. The
    /// call runs if all its requests were granted, else it waits.
    #[inline(always)]
    pub fn admit(&mut self, words: &Words, session: &mut Session, call: &Call) -> Admission
        requires words { words.now ≡ words_of N.engine }
        requires session { session.old.table ≡ N.engine.table }
        requires catalog { IsCatalog (library_of N.engine) }
        requires ready { IsReady (library_of N.engine) call.now }
        requires looked_up { IsLookedUp N.engine session.old.session call.now }
        ensures answer { Begins N.engine session.old.session session.new.session call.now (begun result) }
        ensures seat { IsSeatOf call.now result }
        ensures queue { self.new ≡ begun_by self.old session.old.session.client call.now (begun result) }
        ensures refused { IsRefusedBy (refusal self.old) (begun result) }
        ensures given { session.new.session.given ≡ session.old.session.given }
        ensures session { session.new.table ≡ session.old.table }
    {
        let Some(seat) = session.seat.take() else {
            unreachable!()
        };
        if let Some(why) = self.refusal() {
            session.seat = Some(self.visit(words, seat));
            return Admission::Refused(why);
        }
        words.join_session(&mut self.seat, seat, Some(call));
        let free = request_all(words, &mut self.seat, session.client, call);
        let ticket = self.queue.admit(session.client, call, free);
        if !free {
            session.seat = Some(words.give_session(&mut self.seat, None));
            return Admission::Blocked(ticket);
        }
        let pass = words.give_pass(&mut self.seat, ticket);
        session.seat = Some(words.give_session(&mut self.seat, None));
        Admission::Free(pass, ticket)
    }

    // Returns why no call may begin, if none may.
    fn refusal(&self) -> Option<BeginRefusal>
        ensures answer { result ≡ refusal self.now }
        ensures kept { IsQueued self.now }
        ensures limit { self.now.limit ≡ N.engine.config.limit }
        ensures cap { self.now.cap ≡ N.engine.config.cap }
    {
        if self.queue.is_spent() {
            return Some(BeginRefusal::Spent);
        }
        if self.queue.is_busy() {
            return Some(BeginRefusal::Busy);
        }
        None
    }

    // Lets the session join and leave; it has then seen all calls that have entered.
    fn visit(&mut self, words: &Words, session: SessionSeat) -> SessionSeat
        requires words { words.now ≡ words_of N.engine }
        requires session { session.table ≡ N.engine.table }
        ensures queue { self.new ≡ self.old }
        ensures others { SawOthers session.session result.session }
        ensures seen { result.session.seen ≡ calls_in (lines self.old) }
        ensures waited { result.session.waited ≡ count_by is_waiting (statuses self.old) }
        ensures given { result.session.given ≡ session.session.given }
        ensures table { result.table ≡ session.table }
    {
        words.join_session(&mut self.seat, session, None);
        words.give_session(&mut self.seat, None)
    }
}

// Requests all claims of the open turn. Returns whether all were granted.
fn request_all(words: &Words, seat: &mut QueueSeat, client: u32, call: &Call) -> bool
    requires same { seat.old.table ≡ words.now.table }
    requires turn { seat.old.turn ≡ Some (first_turn client call.now) }
    requires there { All (λ (c : Claim). c.id < length words.now.base.records) call.now.claims }
    ensures turn { seat.new ≡ record seat.old { turn = Some (asked_turn client call.now result); past = seat.new.past } }
{
    let mut free = true;
    for claim in call.claims.iter() {
        let mode = claim.mode;
        let old = words.request(seat, claim);
        free = free && granted(mode, old);
    }
    free
}
