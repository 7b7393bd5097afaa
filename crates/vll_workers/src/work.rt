//! What the workers of a run share, and a worker's rounds, from the opening of its batch until it leaves.
ghost use Rattle.std.specs.Prelude.{◌≡◌, ◌<◌, ◌≤◌, ◌+◌, ◌++◌, ◌∷◌, [], All, IfSome, length, suc};
ghost use Rattle.crossbeam_queue.specs.Passes.{view};
ghost use Rattle.vll_queue.specs.Pass.{IsReleased};
ghost use Rattle.vll_tokens.specs.Pool.{AreSame, HasInHand, all_parts};
ghost use Rattle.vll_workers.specs.Private.Work.{IsAtWork};
ghost use Rattle.vll_tokens.specs.Tokens.{AreFit, IsFit, clients_of};

use crate::batch::{Batch, BatchMemory};
use crate::gate::Gate;
use crate::pace::Pace;
use crate::solo::Solo;
use std::sync::{Mutex, Wait};
use vll_engine::{Engine, Name};
use vll_sca::Place;
use vll_tokens::{MOST_BATCH, Pool, Roster, Taken, Worker};

// What the workers of a run share.
#[derive_where(Clone, Copy)]
pub(crate) struct Work<'a, N: Name, H: Place + Send + Drop, T: Roster, W: Wait, G: Gate> {
    pub(crate) wait: &'a W,
    pub(crate) engine: &'a Engine<N, H>,
    pub(crate) pool: &'a Pool<T>,
    // Locked until the tokens are in the pool.
    pub(crate) door: &'a Mutex<()>,
    pub(crate) solo: &'a Solo,
    pub(crate) gate: &'a G,
}

impl<'a, N: Name, H: Place + Send + Drop, T: Roster, W: Wait, G: Gate> Work<'a, N, H, T, W, G> {
    // Waits until the tokens are in the pool, and works until there is nothing to do.
    pub(crate) fn come_and_run(self, worker: Worker<T>, memory: BatchMemory<N>) -> Worker<T>
        requires fit { AreFit N.engine T.tokens }
        requires limit { T.limit ≡ N.engine.config.limit }
        requires hand { HasInHand self.pool.now worker.pass worker.kept }
        requires part { 0 < (view worker.pass).parts }
        ensures hand { HasInHand self.entry.pool.now result.pass result.kept }
        ensures parts { (view result.pass).parts ≡ (view worker.pass).parts }
    {
        let mut worker = worker;
        let mut batch = self.open(memory);
        drop(self.door.lock(self.wait));
        self.run(&mut worker, &mut batch);
        self.gate.left(batch.pace.tally());
        batch.end();
        worker
    }

    // Works until the worker, which has all parts, keeps all tokens.
    pub(crate) fn run_to_the_end(self, worker: Worker<T>, memory: BatchMemory<N>) -> Worker<T>
        requires fit { AreFit N.engine T.tokens }
        requires limit { T.limit ≡ N.engine.config.limit }
        requires hand { HasInHand self.pool.now worker.pass worker.kept }
        requires parts { (view worker.pass).parts ≡ all_parts }
        ensures { AreSame (clients_of T.tokens) (clients_of result.kept) }
    {
        let mut worker = worker;
        let mut batch = self.open(memory);
        for _ in self.wait.forever() {
            let Some(token) = worker.take_last(self.wait, self.pool) else {
                self.gate.left(batch.pace.tally());
                batch.end();
                return worker;
            };
            batch.taken.tried.push(token);
            self.run(&mut worker, &mut batch);
        }
        unreachable!()
    }

    // Opens a batch with nothing under way. If the gate may wait for calls, they begin one by one, and no token stays
    // in hand after a hold.
    fn open(self, memory: BatchMemory<N>) -> Batch<N>
        ensures untried { result.taken.untried ≡ [] }
        ensures tried { result.taken.tried ≡ [] }
        ensures passes { result.passes ≡ [] }
        ensures released { result.released ≡ [] }
        ensures finished { result.finished ≡ [] }
    {
        let mut batch = memory.open();
        if self.gate.may_wait() {
            batch.pace.take_under_holds();
        } else {
            batch.pace.keep_tokens();
        }
        batch
    }

    // Works until there is nothing to do: starts with the tokens that were kept in hand, and leaves nothing under way.
    fn run(self, worker: &mut Worker<T>, batch: &mut Batch<N>)
        requires fit { AreFit N.engine T.tokens }
        requires limit { T.limit ≡ N.engine.config.limit }
        requires old { IsAtWork T.tokens self.pool.now worker.old batch.old.taken.tried }
        requires few { length batch.old.taken.tried ≤ MOST_BATCH }
        requires untried { batch.old.taken.untried ≡ [] }
        requires passes { batch.old.passes ≡ [] }
        requires released { batch.old.released ≡ [] }
        requires finished { batch.old.finished ≡ [] }
        ensures new { IsAtWork T.tokens self.entry.pool.now worker.new [] }
        ensures parts { (view worker.new.pass).parts ≡ (view worker.old.pass).parts }
        ensures untried { batch.new.taken.untried ≡ [] }
        ensures tried { batch.new.taken.tried ≡ [] }
        ensures passes { batch.new.passes ≡ [] }
        ensures released { batch.new.released ≡ [] }
        ensures finished { batch.new.finished ≡ [] }
    {
        for _ in self.wait.forever() {
            let had_token = self.round(worker, batch);
            if batch.passes.len() > 0 {
                batch.pace.went_well(self.solo);
                self.execute_all(&mut batch.passes, &mut batch.released);
            } else if !batch.pace.rest(had_token) {
                batch.pace.ends(self.solo);
                self.put_back(worker, &mut batch.taken);
                return;
            } else if batch.pace.stands_aside(self.solo) {
                self.stand_aside(worker, &mut batch.taken);
            }
        }
        unreachable!()
    }

    // Finishes the calls that were executed and looks for calls that may run, under one hold of the engine's lock.
    // Reports whether there was a token. The tokens go back to the pool, or stay in hand for the next round.
    fn round(self, worker: &mut Worker<T>, batch: &mut Batch<N>) -> bool
        requires fit { AreFit N.engine T.tokens }
        requires limit { T.limit ≡ N.engine.config.limit }
        requires old { IsAtWork T.tokens self.pool.now worker.old batch.old.taken.tried }
        requires few { length batch.old.taken.tried ≤ MOST_BATCH }
        requires untried { batch.old.taken.untried ≡ [] }
        requires passes { batch.old.passes ≡ [] }
        requires released { All (IsReleased N.engine) batch.old.released }
        requires few_released { length batch.old.released ≤ MOST_BATCH }
        requires finished { batch.old.finished ≡ [] }
        ensures new { IsAtWork T.tokens self.entry.pool.now worker.new batch.new.taken.tried }
        ensures few { length batch.new.taken.tried ≤ MOST_BATCH }
        ensures parts { (view worker.new.pass).parts ≡ (view worker.old.pass).parts }
        ensures untried { batch.new.taken.untried ≡ [] }
        ensures released { batch.new.released ≡ [] }
        ensures finished { batch.new.finished ≡ [] }
    {
        let most = batch.pace.most();
        let calls = batch.pace.calls();
        self.take_some(worker, &mut batch.taken, most, calls);
        batch.pace.takes_hold();
        let mut hold = self.engine.hold(self.wait);
        self.finish_all(&mut hold, &mut batch.released, &mut batch.finished);
        let had_token = self.next_runnable(
            worker,
            &mut hold,
            &mut batch.taken,
            &mut batch.passes,
            &mut batch.pace,
        );
        drop(hold);
        self.settle(worker, &mut batch.taken, &mut batch.pace);
        self.tell_all(&mut batch.finished);
        had_token
    }

    // Puts the tokens back into the pool, and rests while another worker goes on alone.
    fn stand_aside(self, worker: &mut Worker<T>, taken: &mut Taken)
        requires old { IsAtWork T.tokens self.pool.now worker.old (taken.old.untried ++ taken.old.tried) }
        ensures new { IsAtWork T.tokens self.entry.pool.now worker.new [] }
        ensures parts { (view worker.new.pass).parts ≡ (view worker.old.pass).parts }
        ensures untried { taken.new.untried ≡ [] }
        ensures tried { taken.new.tried ≡ [] }
    {
        self.put_back(worker, taken);
        self.solo.stand_aside();
    }

    // Puts the tokens back into the pool, or keeps them in hand for the next round.
    fn settle(self, worker: &mut Worker<T>, taken: &mut Taken, pace: &mut Pace)
        requires old { IsAtWork T.tokens self.pool.now worker.old (taken.old.untried ++ taken.old.tried) }
        requires few { length taken.old.untried + length taken.old.tried ≤ MOST_BATCH }
        ensures new { IsAtWork T.tokens self.entry.pool.now worker.new taken.new.tried }
        ensures parts { (view worker.new.pass).parts ≡ (view worker.old.pass).parts }
        ensures untried { taken.new.untried ≡ [] }
        ensures few { length taken.new.tried ≤ MOST_BATCH }
    {
        if pace.stay_in_hand() {
            self.keep_in_hand(worker, taken);
        } else {
            self.put_back(worker, taken);
        }
    }
}

mod beginning;
mod executing;
mod taking;
