//! The queue's seat, and its steps for calls: requesting claims, giving passes, and ending them.
ghost use Rattle.std.specs.Prelude.{◌≡◌, ◌+◌, ◌<◌, true, length, Some, None, slice_get, option_map};
ghost use Rattle.vll_core.specs.declared.line.Line.{Line};
ghost use Rattle.vll_record.specs.Counter.{delta_of};
ghost use Rattle.vll_record.specs.Headline.Word.{pair_word_of_record};
ghost use Rattle.vll_counters.specs.Written.{IsOfItsStep, longer};
ghost use Rattle.vll_counters.specs.Laid.{laid_words};
ghost use Rattle.vll_counters.specs.Queueing.{after_call, requests, gives_pass, joins_pass};
ghost use Rattle.vll_counters.specs.Shown.{queue_view, next_claim};
ghost use Rattle.vll_counters.specs.Steps.{new_pass};
ghost use Rattle.vll_counters.specs.Told.{IsCounterNow, MayRun, KnowsPass, has_stored_pass};

use crate::pass_seat::PassSeat;
use crate::steps::{Comes, Ends, GivesPass, Known, Requests};
use crate::views::SeatView;
use crate::words::Words;
use atomic_table::Seat;
use std::marker::{Brand, Model};
use vll_core::Ticket;
use vll_record::{Claim, delta, pair_word};

/// The queue's seat, which is kept under the queue's lock. Contracts see the lines and the statuses of all tickets, the
/// open turn, the session that has joined it, and the number of clients.
#[derive(Drop)]
pub struct QueueSeat {
    pub(crate) seat: Seat<(), SeatView>,
}

impl Model for QueueSeat {
    ghost use Rattle.std.specs.Prelude.{◌≡◌, []};
    ghost use Rattle.vll_counters.specs.History.{seat_view};
    ghost use Rattle.vll_counters.specs.Shown.{QueueShown, queue_in, shown_queue, settled};
    ghost use Rattle.vll_counters.specs.declared.views.View.TheVariants.{Queue};

    ghost Value = { QueueShown };

    ghost view = { λ s. shown_queue s.seat.table_id s.seat.me.0.past (queue_in s.seat.me.0.view) };

    ghost invariant = { λ s. (s.seat.id ≡ 0) × (s.seat.me ≡ (seat_view (Queue (settled (queue_in s.seat.me.0.view))) s.seat.me.0.past, [])) };
}

impl Words {
    /// Requests the open turn's next claim by one fetch_add on the record's pair word. Returns the word from before this
    /// step, which is the record's counter at that very moment. `step` says which writes came before it: the seat's old
    /// past is a beginning of them, and the last write of its new past is this step's own.
    pub fn request(&self, queue: &mut QueueSeat, claim: Claim) -> u64
        requires same { queue.old.table ≡ self.now.table }
        requires next { next_claim queue.old.turn ≡ Some claim }
        requires there { claim.id < length self.now.base.records }
        ensures queue { queue.new ≡ record (after_call self.now.base (requests claim result) queue.old) { past = queue.new.past } }
        ensures step { IsOfItsStep (laid_words self.now.base.records) (λ words. IsCounterNow self.now.base (queue_view queue.old) words claim.id result) queue.old.past queue.new.past (pair_word_of_record claim.id) result (result + delta_of claim.mode) }
    {
        self.request_knowing::<Brand>(queue, claim)
    }

    fn request_knowing<T: Known>(&self, queue: &mut QueueSeat, claim: Claim) -> u64
        requires told { (T.base ≡ self.now.base) × (T.claim ≡ claim) }
        requires same { queue.old.table ≡ self.now.table }
        requires next { next_claim queue.old.turn ≡ Some claim }
        requires there { claim.id < length self.now.base.records }
        ensures queue { queue.new ≡ record (after_call self.now.base (requests claim result) queue.old) { past = queue.new.past } }
        ensures step { IsOfItsStep (laid_words self.now.base.records) (λ words. IsCounterNow self.now.base (queue_view queue.old) words claim.id result) queue.old.past queue.new.past (pair_word_of_record claim.id) result (result + delta_of claim.mode) }
    {
        self.table
            .shared
            .fetch_add::<Requests<T>>(&mut queue.seat, pair_word(claim.id), delta(claim.mode))
    }

    /// Starts a call and returns its pass. If a turn is open, it is the turn's call, which was granted all its claims
    /// and enters; else it is a waiting call that no lower ticket holds back.
    pub fn give_pass(&self, queue: &mut QueueSeat, ticket: Ticket) -> PassSeat
        requires same { queue.old.table ≡ self.now.table }
        requires may_run { MayRun queue.old.lines queue.old.statuses queue.old.turn ticket }
        ensures queue { queue.new ≡ after_call self.now.base (gives_pass ticket) queue.old }
        ensures pass { (l : Line) → slice_get queue.new.lines ticket ≡ Some l → result ≡ record { table = self.now.table; pass = new_pass ticket l.call queue.new.lines; past = queue.old.past } }
    {
        self.give_pass_knowing::<Brand>(queue, ticket)
    }

    fn give_pass_knowing<T: Known>(&self, queue: &mut QueueSeat, ticket: Ticket) -> PassSeat
        requires told { T.number ≡ ticket }
        requires same { queue.old.table ≡ self.now.table }
        requires may_run { MayRun queue.old.lines queue.old.statuses queue.old.turn ticket }
        ensures queue { queue.new ≡ after_call self.now.base (gives_pass ticket) queue.old }
        ensures pass { (l : Line) → slice_get queue.new.lines ticket ≡ Some l → result ≡ record { table = self.now.table; pass = new_pass ticket l.call queue.new.lines; past = queue.old.past } }
    {
        let _ = ticket;
        PassSeat {
            seat: self
                .table
                .shared
                .split_seat::<GivesPass<T>>(&mut queue.seat),
        }
    }

    /// Consumes the pass of a running call that has made all its stores and releases: the call is gone, and its line
    /// has its serial reply.
    pub fn join_pass(&self, queue: &mut QueueSeat, pass: PassSeat)
        requires same { (queue.old.table ≡ self.now.table) × (pass.table ≡ self.now.table) }
        requires closed { queue.old.turn ≡ None }
        requires stored { has_stored_pass self.now.base pass.pass ≡ true }
        requires released { pass.pass.releases ≡ length pass.pass.call.claims }
        ensures queue { queue.new ≡ record (after_call self.now.base (joins_pass pass.pass) queue.old) { past = longer queue.old.past pass.past } }
        ensures pass { KnowsPass (queue_view queue.old) pass.pass }
    {
        self.join_pass_knowing::<Brand>(queue, pass);
    }

    fn join_pass_knowing<T: Known>(&self, queue: &mut QueueSeat, pass: PassSeat)
        requires told { T.base ≡ self.now.base }
        requires same { (queue.old.table ≡ self.now.table) × (pass.table ≡ self.now.table) }
        requires closed { queue.old.turn ≡ None }
        requires stored { has_stored_pass self.now.base pass.pass ≡ true }
        requires released { pass.pass.releases ≡ length pass.pass.call.claims }
        ensures queue { queue.new ≡ record (after_call self.now.base (joins_pass pass.pass) queue.old) { past = longer queue.old.past pass.past } }
        ensures pass { KnowsPass (queue_view queue.old) pass.pass }
    {
        let PassSeat { seat } = pass;
        self.table.shared.join_seat::<Comes>(&mut queue.seat, seat);
        self.table.shared.load::<Ends<T>>(&mut queue.seat, 0);
    }
}
