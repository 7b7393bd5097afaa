//! A session's seat: how it is made, joins the queue's seat and leaves it, and loads a record under no lock.
ghost use Rattle.std.specs.Prelude.{◌≡◌, ◌<◌, [], length, None, IfSome, IsSome, option_map};
ghost use Rattle.vll_check.specs.Calls.{IsReady};
ghost use Rattle.vll_core.specs.declared.config.TheConstants.{MOST_CALLS};
ghost use Rattle.vll_record.specs.Word.{value_word_of};
ghost use Rattle.vll_counters.specs.Written.{IsOfItsLoad, longer};
ghost use Rattle.vll_counters.specs.Laid.{laid_words};
ghost use Rattle.vll_counters.specs.Queueing.{after_call, makes_session, joins_session, gives_session};
ghost use Rattle.vll_counters.specs.Shown.{queue_view, library_of, left_session};
ghost use Rattle.vll_counters.specs.Steps.{new_session};
ghost use Rattle.vll_counters.specs.Told.{HasFound, KnowsSession, MayLeave, IsGivenOut};

use crate::queue_seat::QueueSeat;
use crate::steps::{Comes, Finds, GivesSession, Known, MakesSession, Opens};
use crate::views::SeatView;
use crate::words::Words;
use atomic_table::Seat;
use std::marker::{Brand, Model};
use vll_core::Ticket;
use vll_proc::Call;
use vll_record::{RecordId, value_word};

/// A client's seat. Contracts see what its session knows: the entered calls that it has seen, the tickets whose reply
/// it was given, and the number of calls that waited when it last left the lock.
#[derive(Drop)]
pub struct SessionSeat {
    pub(crate) seat: Seat<(), SeatView>,
}

impl Model for SessionSeat {
    ghost use Rattle.std.specs.Prelude.{◌≡◌, []};
    ghost use Rattle.vll_counters.specs.History.{seat_view};
    ghost use Rattle.vll_counters.specs.Shown.{SessionShown, session_of};
    ghost use Rattle.vll_counters.specs.declared.views.View.TheVariants.{Session};

    ghost Value = { SessionShown };

    ghost view = { λ s. record { table = s.seat.table_id; session = session_of s.seat.me.0.view; past = s.seat.me.0.past } };

    ghost invariant = { λ s. s.seat.me ≡ (seat_view (Session (session_of s.seat.me.0.view)) s.seat.me.0.past, []) };
}

impl Words {
    /// Makes one more client's session, before any call.
    pub fn make_session(&self, queue: &mut QueueSeat) -> SessionSeat
        requires same { queue.old.table ≡ self.now.table }
        requires empty { queue.old.lines ≡ [] }
        ensures queue { queue.new ≡ after_call self.now.base makes_session queue.old }
        ensures session { result ≡ record { table = self.now.table; session = new_session queue.old.clients; past = queue.old.past } }
    {
        SessionSeat {
            seat: self
                .table
                .shared
                .split_seat::<MakesSession>(&mut queue.seat),
        }
    }

    /// Loads a record for a session by one load of its value word, which needs no lock. Returns the record's value at the
    /// moment of that load. `step` says which writes came before it: they are the seat's new past, and the old past is a
    /// beginning of them. The session has then seen all calls that had entered at some moment with these words, and of its
    /// own client no more than before. Calls without claims write no word, so the words do not determine that list. In the
    /// serial run of these calls the record has the returned value before some ticket, and that ticket comes after each
    /// ticket whose reply the session was given and whose call claims the record.
    pub fn find(&self, session: &mut SessionSeat, id: RecordId) -> u64
        requires same { session.old.table ≡ self.now.table }
        requires there { id < length self.now.base.records }
        ensures table { session.new.table ≡ session.old.table }
        ensures step { IsOfItsLoad (laid_words self.now.base.records) (λ words. HasFound self.now.base session.old.session session.new.session words id result) session.old.past session.new.past (value_word_of id) result }
    {
        self.find_knowing::<Brand>(session, id)
    }

    fn find_knowing<T: Known>(&self, session: &mut SessionSeat, id: RecordId) -> u64
        requires told { (T.base ≡ self.now.base) × (T.number ≡ id) }
        requires same { session.old.table ≡ self.now.table }
        requires there { id < length self.now.base.records }
        ensures table { session.new.table ≡ session.old.table }
        ensures step { IsOfItsLoad (laid_words self.now.base.records) (λ words. HasFound self.now.base session.old.session session.new.session words id result) session.old.past session.new.past (value_word_of id) result }
    {
        self.table
            .shared
            .load::<Finds<T>>(&mut session.seat, value_word(id))
    }

    /// Joins a session to the queue's seat. If it brings a call, a turn opens for it. What the session has seen is a
    /// beginning of the entered calls, with all calls of its client, and the tickets whose reply it was given are gone.
    pub fn join_session(&self, queue: &mut QueueSeat, session: SessionSeat, call: Option<&Call>)
        requires same { (queue.old.table ≡ self.now.table) × (session.table ≡ self.now.table) }
        requires alone { queue.old.session ≡ None }
        requires closed { queue.old.turn ≡ None }
        requires ready { IfSome call (λ c. IsReady (library_of self.now) c.now) }
        requires room { IfSome call (λ _. length queue.old.lines < MOST_CALLS) }
        ensures queue { queue.new ≡ record (after_call self.now.base (joins_session session.session (option_map (λ c. c.now) call.entry)) queue.old) { past = longer queue.old.past session.past } }
        ensures session { KnowsSession self.now.base (queue_view queue.old) session.session }
    {
        self.join_session_knowing::<Brand>(queue, session, call);
    }

    fn join_session_knowing<T: Known>(
        &self,
        queue: &mut QueueSeat,
        session: SessionSeat,
        call: Option<&Call>,
    )
        requires told { (T.base ≡ self.now.base) × (T.call ≡ option_map (λ c. c.now) call) }
        requires same { (queue.old.table ≡ self.now.table) × (session.table ≡ self.now.table) }
        requires alone { queue.old.session ≡ None }
        requires closed { queue.old.turn ≡ None }
        requires ready { IfSome call (λ c. IsReady (library_of self.now) c.now) }
        requires room { IfSome call (λ _. length queue.old.lines < MOST_CALLS) }
        ensures queue { queue.new ≡ record (after_call self.now.base (joins_session session.session (option_map (λ c. c.now) call.entry)) queue.old) { past = longer queue.old.past session.past } }
        ensures session { KnowsSession self.now.base (queue_view queue.old) session.session }
    {
        let _ = call;
        let SessionSeat { seat } = session;
        self.table.shared.join_seat::<Comes>(&mut queue.seat, seat);
        self.table.shared.load::<Opens<T>>(&mut queue.seat, 0);
    }

    /// Returns the joined session, which leaves the queue, has seen all entered calls, and knows how many wait. If its
    /// turn is open, the turn's call enters and waits: not all of its claims were granted. The session is given the
    /// reply of a ticket that is gone, or none.
    pub fn give_session(&self, queue: &mut QueueSeat, given: Option<Ticket>) -> SessionSeat
        requires same { queue.old.table ≡ self.now.table }
        requires there { IsSome queue.old.session }
        requires may_leave { MayLeave queue.old.turn }
        requires gone { IsGivenOut queue.old.statuses given }
        ensures queue { queue.new ≡ after_call self.now.base gives_session queue.old }
        ensures session { IfSome queue.old.session (λ g. result ≡ left_session queue.old given g) }
    {
        self.give_session_knowing::<Brand>(queue, given)
    }

    fn give_session_knowing<T: Known>(
        &self,
        queue: &mut QueueSeat,
        given: Option<Ticket>,
    ) -> SessionSeat
        requires told { T.given ≡ given }
        requires same { queue.old.table ≡ self.now.table }
        requires there { IsSome queue.old.session }
        requires may_leave { MayLeave queue.old.turn }
        requires gone { IsGivenOut queue.old.statuses given }
        ensures queue { queue.new ≡ after_call self.now.base gives_session queue.old }
        ensures session { IfSome queue.old.session (λ g. result ≡ left_session queue.old given g) }
    {
        let _ = given;
        SessionSeat {
            seat: self
                .table
                .shared
                .split_seat::<GivesSession<T>>(&mut queue.seat),
        }
    }
}
