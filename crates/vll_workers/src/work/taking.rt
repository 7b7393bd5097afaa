//! What a worker does before it begins calls: it takes tokens, and looks at the words that their next calls claim.
ghost use Rattle.std.specs.Prelude.{◌≡◌, ◌<◌, ◌≤◌, ◌+◌, ◌++◌, ◌∷◌, length};
ghost use Rattle.crossbeam_queue.specs.Passes.{view};
ghost use Rattle.vll_workers.specs.Private.Work.{IsAtWork};
ghost use Rattle.vll_tokens.specs.Tokens.{AreFit, IsFit};

use super::Work;
use crate::gate::Gate;
use std::sync::Wait;
use vll_engine::Name;
use vll_sca::Place;
use vll_tokens::{MOST_BATCH, Roster, Stack, Taken, Token, Worker};

impl<N: Name, H: Place + Send + Drop, T: Roster, W: Wait, G: Gate> Work<'_, N, H, T, W, G> {
    // Takes tokens, first those that were kept in hand, then those of the pool, until `calls` calls are ready to begin
    // or `most` tokens are taken.
    pub(super) fn take_some(
        self,
        worker: &mut Worker<T>,
        taken: &mut Taken,
        most: usize,
        calls: u32,
    )
        requires fit { AreFit N.engine T.tokens }
        requires old { IsAtWork T.tokens self.pool.now worker.old (taken.old.untried ++ taken.old.tried) }
        requires few { length taken.old.untried + length taken.old.tried ≤ MOST_BATCH }
        ensures new { IsAtWork T.tokens self.entry.pool.now worker.new (taken.new.untried ++ taken.new.tried) }
        ensures parts { (view worker.new.pass).parts ≡ (view worker.old.pass).parts }
        ensures few { length taken.new.untried + length taken.new.tried ≤ MOST_BATCH }
    {
        let mut ready = 0u32;
        for _ in 0..most {
            if ready >= calls || taken.untried.len() == MOST_BATCH {
                return;
            }
            let Some(more) = self.take_one(worker, taken, calls - ready) else {
                return;
            };
            ready = ready.saturating_add(more);
        }
    }

    // Takes a token that was kept in hand, or else one from the pool, if there is one. Returns how many of its next
    // calls, at most `most`, are ready to begin.
    fn take_one(self, worker: &mut Worker<T>, taken: &mut Taken, most: u32) -> Option<u32>
        requires fit { AreFit N.engine T.tokens }
        requires old { IsAtWork T.tokens self.pool.now worker.old (taken.old.untried ++ taken.old.tried) }
        requires few { length taken.old.untried + length taken.old.tried ≤ MOST_BATCH }
        requires room { length taken.old.untried < MOST_BATCH }
        ensures new { IsAtWork T.tokens self.entry.pool.now worker.new (taken.new.untried ++ taken.new.tried) }
        ensures parts { (view worker.new.pass).parts ≡ (view worker.old.pass).parts }
        ensures few { length taken.new.untried + length taken.new.tried ≤ MOST_BATCH }
    {
        if let Some(token) = taken.tried.pop() {
            return Some(self.add(token, &mut taken.untried, most));
        }
        let token = worker.take(self.wait, self.pool)?;
        Some(self.add(token, &mut taken.untried, most))
    }

    // Adds a token whose next calls are to begin. Returns how many of them, at most `most`, are ready, or `most` if its
    // next call has an indirect key, so that no other token is taken after it and that call is the first to begin.
    fn add(self, token: Token, tokens: &mut Stack<Token>, most: u32) -> u32
        requires fit { IsFit N.engine token }
        requires room { length tokens.old < MOST_BATCH }
        ensures { tokens.new ≡ token ∷ tokens.old }
    {
        let mut token = token;
        let ready = self.look_at(&mut token, most);
        let is_first = ready > 0 && self.is_indirect(&token, 0);
        tokens.push(token);
        if is_first { most } else { ready }
    }

    // Looks at the words that the token's next calls, at most `most`, claim, so that they are cached when these begin,
    // and notes how many are ready to begin: those in a row that look free. If none does, the next one is put off,
    // unless it was put off too often: then it is ready regardless.
    fn look_at(self, token: &mut Token, most: u32) -> u32
        requires { IsFit N.engine token.old }
        ensures { token.new ≡ token.old }
    {
        let mut ready = self.looks_free(token, most);
        if ready == 0 && !token.put_off() {
            ready = 1;
        }
        token.looked(ready);
        ready
    }

    // How many of the token's next calls in a row, at most `most`, look free. One with an indirect key is not counted
    // after another call, since it is the first of a batch.
    pub(super) fn looks_free(self, token: &Token, most: u32) -> u32
        requires { IsFit N.engine token.now }
    {
        for ahead in 0..most {
            let Some(call) = token.upcoming(ahead) else {
                return ahead;
            };
            if !self.engine.look(call) {
                return ahead;
            }
            if ahead > 0 && self.is_indirect(token, ahead) {
                return ahead;
            }
        }
        most
    }

    // Whether the token's call `ahead` places after the next one has an indirect key. Its value is best found while no
    // call that this worker began is still to be executed: such a call may store to the record that is looked at, and
    // so abort the other one.
    pub(super) fn is_indirect(self, token: &Token, ahead: u32) -> bool
        requires { IsFit N.engine token.now }
    {
        match token.upcoming(ahead) {
            Some(call) => self.engine.library().source(call).is_some(),
            None => false,
        }
    }
}
