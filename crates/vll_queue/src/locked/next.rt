//! The start of a waiting call under the lock, at the front or by the scan, and the pass for it.
ghost use Rattle.std.specs.Prelude.{◌≡◌, ◌<◌, ◌++◌, ◌∷◌, [], length, vec_capacity, IfSome, IsFalse, None, Some, option_map, slice_get};
ghost use Rattle.vll_core.specs.declared.line.Line.{Line};
ghost use Rattle.vll_core.specs.Queue.{fronted, found_by, front_among, lines, scanned, started_if, statuses};
ghost use Rattle.vll_counters.specs.Shown.{after, with_pass_given};
ghost use Rattle.vll_counters.specs.Steps.{new_pass};
ghost use Rattle.vll_counters.specs.Told.{MayStart};
ghost use Rattle.vll_queue.specs.Pass.{IsFresh};
ghost use Rattle.vll_queue.specs.Admission.{IsPassAt};
ghost use Rattle.vll_queue.specs.Shown.{words_of};

use super::Locked;
use crate::name::Name;
use crate::pass::Pass;
use crate::patience::Patience;
use vll_core::{Queue, Ticket};
use vll_counters::{PassSeat, QueueSeat, Words};
use vll_sca::Place;

impl<N: Name, H: Place> Locked<N, H> {
    /// Starts the lowest ticket that is not gone, if it waits, and returns its seat.
    pub fn next_front(&mut self, words: &Words) -> Option<(PassSeat, Ticket)>
        requires words { words.now ≡ words_of N.engine }
        ensures ticket { option_map (λ p. p.1) result ≡ front_among (statuses self.old) }
        ensures pass { IfSome result (λ p. IsFresh N.engine p.0) }
        ensures line { IfSome result (λ p. IsPassAt (lines self.new) p.0 p.1) }
        ensures queue { self.new ≡ fronted self.old }
    {
        let ticket = self.queue.front()?;
        Some((give_pass(words, &mut self.seat, ticket), ticket))
    }

    // Starts the ticket that the contention analysis finds, and returns its seat.
    fn next_scan(&mut self, words: &Words) -> Option<(PassSeat, Ticket)>
        requires words { words.now ≡ words_of N.engine }
        ensures ticket { option_map (λ p. p.1) result ≡ found_by H.place_of self.old }
        ensures pass { IfSome result (λ p. IsFresh N.engine p.0) }
        ensures line { IfSome result (λ p. IsPassAt (lines self.new) p.0 p.1) }
        ensures queue { self.new ≡ scanned H.place_of self.old }
    {
        let ticket = scan(&mut self.queue, &mut self.patience)?;
        Some((give_pass(words, &mut self.seat, ticket), ticket))
    }

    /// Starts the ticket that the contention analysis finds, and returns its seat. A scan that may be put off is made only
    /// if it is due.
    pub fn next_scan_if_due(
        &mut self,
        words: &Words,
        may_be_put_off: bool,
    ) -> Option<(PassSeat, Ticket)>
        requires words { words.now ≡ words_of N.engine }
        ensures ticket { IfSome result (λ p. found_by H.place_of self.old ≡ Some p.1) }
        ensures always { IsFalse may_be_put_off → option_map (λ p. p.1) result ≡ found_by H.place_of self.old }
        ensures pass { IfSome result (λ p. IsFresh N.engine p.0) }
        ensures line { IfSome result (λ p. IsPassAt (lines self.new) p.0 p.1) }
        ensures queue { self.new ≡ started_if self.old (option_map (λ p. p.1) result) }
    {
        if may_be_put_off && self.puts_off_a_scan() {
            return None;
        }
        self.next_scan(words)
    }

    // Returns whether a scan is put off now. One that walks over nothing is not.
    fn puts_off_a_scan(&mut self) -> bool
        ensures { self.new ≡ self.old }
    {
        !self.queue.is_fruitless() && !self.patience.is_due(self.queue.waiting())
    }

    /// Appends the pass of a seat, with the call in its ticket's line.
    pub fn push_pass(&self, seat: PassSeat, ticket: Ticket, passes: &mut Vec<Pass>)
        requires line { IsPassAt (lines self.now) seat ticket }
        requires room { length passes.old.items < vec_capacity passes.old }
        ensures more { passes.new.items ≡ passes.old.items ++ seat ∷ [] }
        ensures room { vec_capacity passes.new ≡ vec_capacity passes.old }
    {
        let Some(line) = self.queue.line(ticket) else {
            unreachable!()
        };
        passes.push_reserved(Pass {
            call: line.call,
            seat,
            ticket,
        });
    }

    /// The pass of a seat, with the call in its ticket's line.
    pub fn pass(&self, seat: PassSeat, ticket: Ticket) -> Pass
        requires line { IsPassAt (lines self.now) seat ticket }
        ensures { result ≡ seat }
    {
        let Some(line) = self.queue.line(ticket) else {
            unreachable!()
        };
        Pass {
            call: line.call,
            seat,
            ticket,
        }
    }
}

// Starts the call that the contention analysis finds, if it finds one, and notes what the scan has cost.
fn scan<H: Place>(queue: &mut Queue<H>, patience: &mut Patience) -> Option<Ticket>
    ensures ticket { result ≡ found_by H.place_of queue.old }
    ensures scanned { queue.new ≡ scanned H.place_of queue.old }
{
    let walks = !queue.is_fruitless();
    let found = queue.scan();
    if walks && found.is_none() {
        patience.found_none(queue.waiting());
    }
    found
}

// Gives the pass of a call that waited and that nothing before it holds back, and returns its seat.
fn give_pass(words: &Words, seat: &mut QueueSeat, ticket: Ticket) -> PassSeat
    requires same { seat.old.table ≡ words.now.table }
    requires closed { seat.old.turn ≡ None }
    requires may { MayStart seat.old.lines seat.old.statuses ticket }
    ensures seat { seat.new ≡ after seat.old (with_pass_given seat.old ticket) }
    ensures pass { (l : Line) → slice_get seat.old.lines ticket ≡ Some l → result ≡ record { table = words.now.table; pass = new_pass ticket l.call seat.old.lines; past = seat.old.past } }
{
    words.give_pass(seat, ticket)
}
