//! What a worker does under a hold: it looks for calls that may run, and begins others.
ghost use Rattle.std.specs.Prelude.{◌≡◌, ◌≤◌, ◌+◌, ◌++◌, [], All, length};
ghost use Rattle.crossbeam_queue.specs.Passes.{view};
ghost use Rattle.vll_tokens.specs.Settled.{IsSettled};
ghost use Rattle.vll_workers.specs.Private.Work.{IsAtWork};
ghost use Rattle.vll_tokens.specs.Tokens.{AreFit, IsFit, IsOf};
ghost use Rattle.vll_queue.specs.declared.begun.BeginRefusal.TheVariants.{Spent};

use super::Work;
use crate::gate::{Choice, Gate};
use crate::pace::{HeldBy, Pace};
use std::sync::Wait;
use vll_engine::{BeginRefusal, BegunOnto, Hold, Name, Passes};
use vll_sca::Place;
use vll_tokens::{MOST_BATCH, Roster, Taken, Token, Worker};

// What happened to a token's calls that were to begin.
enum Course {
    // All that began are free.
    Free,
    // One waits, or may not begin now.
    Held(HeldBy),
    // The engine takes no more.
    Spent,
}

impl<N: Name, H: Place + Send + Drop, T: Roster, W: Wait, G: Gate> Work<'_, N, H, T, W, G> {
    // Finds the calls to execute: the call at the front, if it waits. Else begins the tokens' next calls, and finds
    // those that are free; if there is none, the one that the scan finds. So no worker rests or leaves while a waiting
    // call may run. Reports whether there was a token.
    pub(super) fn next_runnable(
        self,
        worker: &mut Worker<T>,
        hold: &mut Hold<'_, N, H>,
        taken: &mut Taken,
        passes: &mut Passes<N>,
        pace: &mut Pace,
    ) -> bool
        requires fit { AreFit N.engine T.tokens }
        requires limit { T.limit ≡ N.engine.config.limit }
        requires old { IsAtWork T.tokens self.pool.now worker.old (taken.old.untried ++ taken.old.tried) }
        requires few { length taken.old.untried + length taken.old.tried ≤ MOST_BATCH }
        requires passes { passes.old ≡ [] }
        ensures new { IsAtWork T.tokens self.entry.pool.now worker.new (taken.new.untried ++ taken.new.tried) }
        ensures few { length taken.new.untried + length taken.new.tried ≤ MOST_BATCH }
        ensures parts { (view worker.new.pass).parts ≡ (view worker.old.pass).parts }
    {
        if passes.next_front(hold) {
            self.tell_chosen(passes, Choice::Front);
            pace.saw_front(true);
            return true;
        }
        pace.saw_front(false);
        if taken.untried.is_empty() {
            self.take_some(worker, taken, MOST_BATCH, 1);
        }
        let had_token = !taken.untried.is_empty();
        let mut was_held = false;
        for _ in 0..taken.untried.len() {
            was_held |= !self.begin_next(worker, hold, taken, passes, pace);
        }
        pace.began(passes.len() as u32, was_held);
        // A worker that takes tokens only under a hold leaves once it finds the pool empty there.
        if !pace.takes_ahead() {
            self.put_back(worker, taken);
        }
        if passes.len() == 0 {
            self.scan(hold, passes, pace);
        }
        had_token
    }

    // Looks for a waiting call that may run.
    fn scan(self, hold: &mut Hold<'_, N, H>, passes: &mut Passes<N>, pace: &mut Pace)
        requires { passes.old ≡ [] }
    {
        let was_found = passes.next_scan(hold, false);
        if was_found {
            self.tell_chosen(passes, Choice::Scan);
        }
        pace.saw_scan(was_found);
    }

    // Tells the gate of the call of the last pass, which was chosen to run.
    fn tell_chosen(self, passes: &Passes<N>, by: Choice) {
        if let Some(ticket) = passes.last() {
            self.gate.chosen(ticket, by);
        }
    }

    // Tells the gate of a call that has entered: one that is free has the last pass.
    fn tell_entered(self, begun: &BegunOnto, passes: &Passes<N>) {
        match begun {
            BegunOnto::Free => {
                if let Some(ticket) = passes.last() {
                    self.gate.entered(ticket, true);
                }
            }
            BegunOnto::Blocked(ticket) => self.gate.entered(*ticket, false),
            BegunOnto::Refused(_) => {}
        }
    }

    // Begins the next calls of the last token, and reports whether all that began are free. The token is set aside, or
    // stays with the worker if no call is left or the engine takes no more. If calls were held back recently, its words
    // are looked at once more, and its call is put off if it does not look free now. A call with an indirect key begins
    // as the first of a batch, and is otherwise left for another batch.
    fn begin_next(
        self,
        worker: &mut Worker<T>,
        hold: &mut Hold<'_, N, H>,
        taken: &mut Taken,
        passes: &mut Passes<N>,
        pace: &mut Pace,
    ) -> bool
        requires fit { AreFit N.engine T.tokens }
        requires limit { T.limit ≡ N.engine.config.limit }
        requires old { IsAtWork T.tokens self.pool.now worker.old (taken.old.untried ++ taken.old.tried) }
        requires few { length taken.old.untried + length taken.old.tried ≤ MOST_BATCH }
        ensures new { IsAtWork T.tokens self.entry.pool.now worker.new (taken.new.untried ++ taken.new.tried) }
        ensures few { length taken.new.untried + length taken.new.tried ≤ MOST_BATCH }
        ensures parts { (view worker.new.pass).parts ≡ (view worker.old.pass).parts }
    {
        let Some(mut token) = taken.untried.pop() else {
            return true;
        };
        if token.is_through() {
            worker.keep(self.pool, token);
            return true;
        }
        if self.is_left(&mut token, passes, pace) {
            taken.tried.push(token);
            return false;
        }
        match self.begin_calls(hold, &mut token, passes, pace.is_hot()) {
            Course::Free => {
                taken.tried.push(token);
                true
            }
            Course::Held(by) => {
                pace.saw_held(by);
                taken.tried.push(token);
                false
            }
            Course::Spent => {
                worker.keep(self.pool, token);
                false
            }
        }
    }

    // Whether the token's next call is left for another batch.
    fn is_left(self, token: &mut Token, passes: &Passes<N>, pace: &mut Pace) -> bool
        requires { IsFit N.engine token.old }
        ensures { token.new ≡ token.old }
    {
        if token.ready() == 0 {
            return true;
        }
        if pace.is_hot() && self.looks_free(token, 1) == 0 && token.put_off() {
            pace.saw_held(HeldBy::Look);
            return true;
        }
        passes.len() > 0 && self.is_indirect(token, 0)
    }

    // Whether the token's next call is to be looked at once more, as each after the first one is, and does not look
    // free.
    fn looks_held(self, token: &Token, first: u32, is_hot: bool) -> bool
        requires { IsFit N.engine token.now }
    {
        is_hot && token.next() != first && self.looks_free(token, 1) == 0
    }

    // Begins those of the token's next calls that looked free, at least one, up to the first that is not free now, or
    // does not look free if calls were held back recently, or until the batch is full.
    fn begin_calls(
        self,
        hold: &mut Hold<'_, N, H>,
        token: &mut Token,
        passes: &mut Passes<N>,
        is_hot: bool,
    ) -> Course
        requires fit { AreFit N.engine T.tokens }
        requires limit { T.limit ≡ N.engine.config.limit }
        requires own { IsOf T.tokens token.old }
        ensures own { IsOf T.tokens token.new }
        ensures client { token.new.client ≡ token.old.client }
        ensures spent { result ≡ Course.Spent → IsSettled T.limit token.new }
    {
        let first = token.next();
        for _ in 0..token.ready() {
            if self.looks_held(token, first, is_hot) {
                return Course::Held(HeldBy::Look);
            }
            if passes.len() == MOST_BATCH {
                return Course::Free;
            }
            if token.is_through() {
                return Course::Free;
            }
            let begun = token.begin(hold, passes);
            self.tell_entered(&begun, passes);
            match begun {
                BegunOnto::Free => {}
                BegunOnto::Blocked(_) => return Course::Held(HeldBy::Claim),
                BegunOnto::Refused(why) => return refused(why),
            }
        }
        Course::Free
    }
}

// What happened to the calls of a token whose next one is refused.
fn refused(why: BeginRefusal) -> Course
    ensures { result ≡ Course.Spent → why ≡ Spent }
{
    match why {
        BeginRefusal::Busy => Course::Held(HeldBy::Cap),
        BeginRefusal::Spent => Course::Spent,
    }
}
