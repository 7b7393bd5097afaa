//! What a worker does with what it has begun: it executes calls, finishes them, and puts the tokens back.
ghost use Rattle.std.specs.Prelude.{◌≡◌, ◌≤◌, ◌+◌, ◌++◌, [], All, IfNone, IfSome, length};
ghost use Rattle.crossbeam_queue.specs.Passes.{view};
ghost use Rattle.vll_engine.specs.Onto.{IsOfLast};
ghost use Rattle.vll_queue.specs.Pass.{IsReleased};
ghost use Rattle.vll_workers.specs.Private.Work.{IsAtWork};

use super::Work;
use crate::gate::Gate;
use std::sync::Wait;
use vll_core::Ticket;
use vll_engine::{Hold, Name, Passes, Released};
use vll_sca::Place;
use vll_tokens::{MOST_BATCH, Roster, Stack, Taken, Worker};

impl<N: Name, H: Place + Send + Drop, T: Roster, W: Wait, G: Gate> Work<'_, N, H, T, W, G> {
    // Puts the tokens back into the pool, those that were tried after the others.
    pub(super) fn put_back(self, worker: &mut Worker<T>, taken: &mut Taken)
        requires old { IsAtWork T.tokens self.pool.now worker.old (taken.old.untried ++ taken.old.tried) }
        ensures new { IsAtWork T.tokens self.entry.pool.now worker.new [] }
        ensures parts { (view worker.new.pass).parts ≡ (view worker.old.pass).parts }
        ensures untried { taken.new.untried ≡ [] }
        ensures tried { taken.new.tried ≡ [] }
    {
        while let Some(token) = taken.untried.pop() {
            worker.put(self.wait, self.pool, token);
        }
        while let Some(token) = taken.tried.pop() {
            worker.put(self.wait, self.pool, token);
        }
    }

    // Keeps the tokens in hand for the next round: those that are left join those that were tried.
    pub(super) fn keep_in_hand(self, worker: &Worker<T>, taken: &mut Taken)
        requires old { IsAtWork T.tokens self.pool.now worker.now (taken.old.untried ++ taken.old.tried) }
        requires few { length taken.old.untried + length taken.old.tried ≤ MOST_BATCH }
        ensures new { IsAtWork T.tokens self.entry.pool.now worker.now taken.new.tried }
        ensures untried { taken.new.untried ≡ [] }
        ensures few { length taken.new.tried ≤ MOST_BATCH }
    {
        while let Some(token) = taken.untried.pop() {
            taken.tried.push(token);
        }
    }

    // Executes the calls, and releases the claims of each right after it.
    pub(super) fn execute_all(self, passes: &mut Passes<N>, released: &mut Stack<Released>)
        requires few { length passes.old ≤ MOST_BATCH }
        requires released { released.old ≡ [] }
        ensures passes { passes.new ≡ [] }
        ensures released { All (IsReleased N.engine) released.new }
        ensures few { length released.new ≤ MOST_BATCH }
    {
        while let Some(done) = self.run_last(passes) {
            released.push(done);
        }
    }

    // Calls the gate's `before` for the last pass, executes its call, and releases its claims.
    #[inline(always)]
    fn run_last(self, passes: &mut Passes<N>) -> Option<Released>
        ensures released { IfSome result (IsReleased N.engine) }
        ensures same { IfSome result (λ r. IsOfLast passes.old passes.new r.pass) }
        ensures none { IfNone result (passes.new ≡ []) }
    {
        if let Some(ticket) = passes.last() {
            self.gate.before(ticket);
        }
        passes.run_last(self.engine)
    }

    // Finishes the calls that were executed, and tells the gate of each.
    pub(super) fn finish_all(
        self,
        hold: &mut Hold<'_, N, H>,
        released: &mut Stack<Released>,
        finished: &mut Stack<Ticket>,
    )
        requires released { All (IsReleased N.engine) released.old }
        requires few { length released.old ≤ MOST_BATCH }
        requires finished { finished.old ≡ [] }
        ensures { released.new ≡ [] }
    {
        while let Some(done) = released.pop() {
            let ticket = hold.finish(done);
            self.gate.finished(ticket);
            finished.push(ticket);
        }
    }

    // Calls the gate's `after` for the finished calls.
    pub(super) fn tell_all(self, finished: &mut Stack<Ticket>)
        ensures { finished.new ≡ [] }
    {
        while let Some(ticket) = finished.pop() {
            self.gate.after(ticket);
        }
    }
}
