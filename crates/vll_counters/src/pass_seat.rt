//! The seat of a pass, and its steps under no lock: loads, stores and releases.
ghost use Rattle.std.specs.Prelude.{◌≡◌, ◌-◌, ◌<◌, true, false, length, Some, slice_get, slice_index};
ghost use Rattle.vll_proc.specs.Headline.Serial.{apply};
ghost use Rattle.vll_core.specs.State.{writes, is_aborted};
ghost use Rattle.vll_record.specs.Counter.{delta_of};
ghost use Rattle.vll_record.specs.Headline.Word.{pair_word_of_record};
ghost use Rattle.vll_counters.specs.Written.{IsOfItsStep};
ghost use Rattle.vll_counters.specs.Laid.{laid_words};
ghost use Rattle.vll_counters.specs.Shown.{passed, record_of};
ghost use Rattle.vll_counters.specs.Steps.{loaded, stored, released, records_before_pass, reply_of_pass};
ghost use Rattle.vll_counters.specs.Told.{IsValueNow, IsCountedNow, has_stored_pass};

use crate::steps::{Known, Loads, Releases, Stores};
use crate::views::SeatView;
use crate::words::Words;
use atomic_table::Seat;
use std::marker::{Brand, Model};
use vll_record::{Claim, RecordId, delta, pair_word, value_word};

/// The seat of one running call, which makes its steps under no lock. `Words::join_pass` has to consume it. Contracts
/// see its ticket and call, the entered calls up to its own, the numbers of its steps, and the values it has loaded.
pub struct PassSeat {
    pub(crate) seat: Seat<(), SeatView>,
}

impl Model for PassSeat {
    ghost use Rattle.std.specs.Prelude.{◌≡◌, []};
    ghost use Rattle.vll_counters.specs.History.{seat_view};
    ghost use Rattle.vll_counters.specs.Shown.{PassShown, pass_of_view};
    ghost use Rattle.vll_counters.specs.declared.views.View.TheVariants.{Pass};

    ghost Value = { PassShown };

    ghost view = { λ s. record { table = s.seat.table_id; pass = pass_of_view s.seat.me.0.view; past = s.seat.me.0.past } };

    ghost invariant = { λ s. s.seat.me ≡ (seat_view (Pass (pass_of_view s.seat.me.0.view)) s.seat.me.0.past, []) };
}

impl Words {
    /// Loads the record of the pass's next claim, by one load of its value word. The value is the record's present one,
    /// and the one before the pass's ticket if the entered calls run one at a time.
    pub fn load(&self, pass: &mut PassSeat, id: RecordId) -> u64
        requires same { pass.old.table ≡ self.now.table }
        requires next { record_of (slice_get pass.old.pass.call.claims pass.old.pass.loads) ≡ Some id }
        requires there { id < length self.now.base.records }
        ensures pass { pass.new ≡ passed pass.old (loaded result pass.old.pass) }
        ensures value { IsValueNow self.now.base pass.old.pass id result }
    {
        self.load_knowing::<Brand>(pass, id)
    }

    fn load_knowing<T: Known>(&self, pass: &mut PassSeat, id: RecordId) -> u64
        requires told { (T.base ≡ self.now.base) × (T.number ≡ id) }
        requires same { pass.old.table ≡ self.now.table }
        requires next { record_of (slice_get pass.old.pass.call.claims pass.old.pass.loads) ≡ Some id }
        requires there { id < length self.now.base.records }
        ensures pass { pass.new ≡ passed pass.old (loaded result pass.old.pass) }
        ensures value { IsValueNow self.now.base pass.old.pass id result }
    {
        self.table
            .shared
            .load::<Loads<T>>(&mut pass.seat, value_word(id))
    }

    /// Stores the record of the pass's next Write claim, by one store to its value word, once all its loads are made.
    /// Its call does not abort, and `value` is the record's value after the call is applied to the records before the
    /// pass's ticket.
    pub fn store(&self, pass: &mut PassSeat, id: RecordId, value: u64)
        requires same { pass.old.table ≡ self.now.table }
        requires next { record_of (slice_get (writes pass.old.pass.call) pass.old.pass.stores) ≡ Some id }
        requires there { id < length self.now.base.records }
        requires loaded { pass.old.pass.loads ≡ length pass.old.pass.call.claims }
        requires commits { is_aborted (reply_of_pass self.now.base pass.old.pass) ≡ false }
        requires value { value ≡ slice_index (apply self.now.base.procs pass.old.pass.call (records_before_pass self.now.base pass.old.pass)).records id }
        ensures pass { pass.new ≡ passed pass.old (stored pass.old.pass) }
    {
        self.table
            .shared
            .store::<Stores>(&mut pass.seat, value_word(id), value);
    }

    /// Releases the pass's next claim by one fetch_sub on the record's pair word, once all its stores are made. Returns
    /// the word from before this step, which is the record's counter at that very moment. `step` says which writes came
    /// before it: the seat's old past is a beginning of them, and the last write of its new past is this step's own.
    pub fn release(&self, pass: &mut PassSeat, claim: Claim) -> u64
        requires same { pass.old.table ≡ self.now.table }
        requires next { slice_get pass.old.pass.call.claims pass.old.pass.releases ≡ Some claim }
        requires there { claim.id < length self.now.base.records }
        requires stored { has_stored_pass self.now.base pass.old.pass ≡ true }
        ensures pass { pass.new ≡ record (passed pass.old (released pass.old.pass)) { past = pass.new.past } }
        ensures step { IsOfItsStep (laid_words self.now.base.records) (λ words. IsCountedNow self.now.base pass.old.pass words claim.id result) pass.old.past pass.new.past (pair_word_of_record claim.id) result (result - delta_of claim.mode) }
    {
        self.release_knowing::<Brand>(pass, claim)
    }

    fn release_knowing<T: Known>(&self, pass: &mut PassSeat, claim: Claim) -> u64
        requires told { (T.base ≡ self.now.base) × (T.claim ≡ claim) }
        requires same { pass.old.table ≡ self.now.table }
        requires next { slice_get pass.old.pass.call.claims pass.old.pass.releases ≡ Some claim }
        requires there { claim.id < length self.now.base.records }
        requires stored { has_stored_pass self.now.base pass.old.pass ≡ true }
        ensures pass { pass.new ≡ record (passed pass.old (released pass.old.pass)) { past = pass.new.past } }
        ensures step { IsOfItsStep (laid_words self.now.base.records) (λ words. IsCountedNow self.now.base pass.old.pass words claim.id result) pass.old.past pass.new.past (pair_word_of_record claim.id) result (result - delta_of claim.mode) }
    {
        self.table
            .shared
            .fetch_sub::<Releases<T>>(&mut pass.seat, pair_word(claim.id), delta(claim.mode))
    }
}
