//! Calls from entry to reply.
ghost use Rattle.std.specs.Prelude.{◌≡◌, ◌<◌, ◌++◌, ◌∷◌, [], IfErr, IfOk, IfSome, Some};
ghost use Rattle.vll_check.specs.Headline.Calls.{source as source_in};
ghost use Rattle.vll_check.specs.Calls.{Fits, IsReady};
ghost use Rattle.vll_proc.specs.Headline.Serial.{answer};
ghost use Rattle.vll_queue.specs.Calling.{IsCalled, IsTurnedAway};
ghost use Rattle.vll_queue.specs.Pass.{IsFresh};
ghost use Rattle.vll_engine.specs.Private.Attempt.{IsAttempted, IsTried};
ghost use Rattle.vll_queue.specs.Looked.{IsLookedUp};
ghost use Rattle.vll_queue.specs.Sessions.{SawOthers};
ghost use Rattle.vll_queue.specs.Shown.{library_of};

use crate::engine::Engine;
use crate::hold::Hold;
use crate::rest::Rest;
use std::sync::Wait;
use vll_core::Ticket;
use vll_proc::{Call, Reason, Reply};
use vll_queue::{Admission, BeginRefusal, Name, Pass, Released, Session, find};
use vll_record::RecordId;
use vll_sca::Place;

/// As many calls as the limit have entered, and the engine takes no more.
#[derive(Clone, Copy, PartialEq, Eq, Debug)]
pub struct EngineSpent;

impl<N: Name, H: Place + Drop> Engine<N, H> {
    /// Makes a call of the session's client, from its entry to its reply, as `Client::make` says. A call that may run at
    /// entry takes the lock twice.
    pub fn call(
        &self,
        wait: &impl Wait,
        session: &mut Session,
        call: &Call,
    ) -> Result<(Ticket, Reply), EngineSpent>
        requires session { session.old.table ≡ N.engine.table }
        requires fits { Fits (library_of N.engine) call.now }
        ensures called { IfOk result (λ r. IsCalled N.engine session.old.session session.new.session call.now r.0 r.1) }
        ensures spent { IfErr result (λ _. IsTurnedAway N.engine session.old.session session.new.session) }
        ensures session { session.new.table ≡ session.old.table }
    {
        self.call_with(wait, session, call, &mut Rest::new())
    }

    // As `call`, by a thread that waits as `rest` says.
    pub(crate) fn call_with(
        &self,
        wait: &impl Wait,
        session: &mut Session,
        call: &Call,
        rest: &mut Rest,
    ) -> Result<(Ticket, Reply), EngineSpent>
        requires session { session.old.table ≡ N.engine.table }
        requires fits { Fits (library_of N.engine) call.now }
        ensures called { IfOk result (λ r. IsCalled N.engine session.old.session session.new.session call.now r.0 r.1) }
        ensures spent { IfErr result (λ _. IsTurnedAway N.engine session.old.session session.new.session) }
        ensures session { session.new.table ≡ session.old.table }
    {
        rest.found();
        let mut reply = Reply::Aborted(Reason::Moved);
        for _ in wait.forever() {
            match self.try_call(wait, session, call, rest, &mut reply) {
                Ok(Some(ticket)) => return Ok((ticket, reply)),
                Ok(None) => {}
                Err(EngineSpent) => return Err(EngineSpent),
            }
        }
        unreachable!()
    }

    // As `call`, unless as many calls as the cap wait: then this thread helps once, and no call has entered. The reply is
    // written where the caller has it, since each return would copy it.
    fn try_call(
        &self,
        wait: &impl Wait,
        session: &mut Session,
        call: &Call,
        rest: &mut Rest,
        reply: &mut Reply,
    ) -> Result<Option<Ticket>, EngineSpent>
        requires session { session.old.table ≡ N.engine.table }
        requires fits { Fits (library_of N.engine) call.now }
        ensures answer { IsAttempted N.engine session.old.session session.new.session call.now result reply.new }
        ensures session { session.new.table ≡ session.old.table }
    {
        let source = self.library.source(call);
        // the claims' pair words are then in the cache when the lock is taken
        let _ = self.look(call);
        match source {
            None => {
                let hold = self.hold_of_a_caller(wait, rest);
                self.try_ready(wait, hold, session, call, rest, reply)
            }
            Some(source) => self.find_and_try(wait, session, call, source, rest, reply),
        }
    }

    // As `try_call`, for a call with an indirect key. It is not inlined, so that other calls make no room for it.
    #[inline(never)]
    fn find_and_try(
        &self,
        wait: &impl Wait,
        session: &mut Session,
        call: &Call,
        source: RecordId,
        rest: &mut Rest,
        reply: &mut Reply,
    ) -> Result<Option<Ticket>, EngineSpent>
        requires session { session.old.table ≡ N.engine.table }
        requires fits { Fits (library_of N.engine) call.now }
        requires source { source_in (library_of N.engine) call.now ≡ Some source }
        requires there { source < (library_of N.engine).records }
        ensures answer { IsAttempted N.engine session.old.session session.new.session call.now result reply.new }
        ensures session { session.new.table ≡ session.old.table }
    {
        let hold = self.hold_of_a_caller(wait, rest);
        let call = find::<N>(&self.words, &self.library, session, call, source);
        self.try_ready(wait, hold, session, &call, rest, reply)
    }

    // As `try_call`, for a ready call.
    #[inline(always)]
    fn try_ready<'a>(
        &'a self,
        wait: &impl Wait,
        hold: Hold<'a, N, H>,
        session: &mut Session,
        ready: &Call,
        rest: &mut Rest,
        reply: &mut Reply,
    ) -> Result<Option<Ticket>, EngineSpent>
        requires session { session.old.table ≡ N.engine.table }
        requires ready { IsReady (library_of N.engine) ready.now }
        requires looked_up { IsLookedUp N.engine session.old.session ready.now }
        ensures answer { IsTried N.engine session.old.session session.new.session ready.now result reply.new }
        ensures session { session.new.table ≡ session.old.table }
    {
        let mut hold = hold;
        match hold.guard.admit(&self.words, session, ready) {
            Admission::Free(seat, ticket) => {
                drop(hold);
                let mut seat = seat;
                self.run_at(&mut seat, ready, reply);
                let released = Released::of(seat, ticket, *reply);
                let mut hold = self.hold_of_a_caller(wait, rest);
                hold.guard.finish_own(&self.words, session, released);
                Ok(Some(ticket))
            }
            Admission::Blocked(ticket) => {
                *reply = self.reply_of(wait, hold, session, ticket, rest);
                Ok(Some(ticket))
            }
            Admission::Refused(why) => {
                if why == BeginRefusal::Spent {
                    return Err(EngineSpent);
                }
                self.help(wait, hold, rest);
                Ok(None)
            }
        }
    }

    // Returns the reply of a ticket, once it is there.
    fn reply_of<'a>(
        &'a self,
        wait: &impl Wait,
        hold: Hold<'a, N, H>,
        session: &mut Session,
        ticket: Ticket,
        rest: &mut Rest,
    ) -> Reply
        requires session { session.old.table ≡ N.engine.table }
        ensures reply { answer N.engine.base.procs session.new.session.seen N.engine.base.records ticket ≡ Some result }
        ensures given { session.new.session.given ≡ session.old.session.given ++ ticket ∷ [] }
        ensures session { (session.new.table ≡ session.old.table) × SawOthers session.old.session session.new.session }
    {
        rest.found();
        let mut hold = hold;
        for _ in wait.forever() {
            if let Some(reply) = hold.guard.reply(&self.words, session, ticket) {
                return reply;
            }
            hold = self.help(wait, hold, rest);
        }
        unreachable!()
    }

    // Brings a call that may run to its end, if there is one, else rests. The lock is released meanwhile.
    fn help<'a>(
        &'a self,
        wait: &impl Wait,
        hold: Hold<'a, N, H>,
        rest: &mut Rest,
    ) -> Hold<'a, N, H> {
        let mut hold = hold;
        let found = next(&mut hold);
        drop(hold);
        match found {
            Some(pass) => {
                rest.found();
                self.bring_to_its_end(wait, pass, rest)
            }
            None => {
                rest.rest(&self.pacing);
                self.hold_of_a_caller(wait, rest)
            }
        }
    }

    // Executes a call, releases its claims, and finishes it under a new hold.
    fn bring_to_its_end<'a>(
        &'a self,
        wait: &impl Wait,
        pass: Pass,
        rest: &mut Rest,
    ) -> Hold<'a, N, H>
        requires { IsFresh N.engine pass }
    {
        let released = self.run(pass);
        let mut hold = self.hold_of_a_caller(wait, rest);
        hold.finish(released);
        hold
    }
}

// Returns a pass for the front, if it waits, or else for what the scan finds, unless the scan is put off.
#[inline(always)]
fn next<N: Name, H: Place + Drop>(hold: &mut Hold<'_, N, H>) -> Option<Pass>
    ensures { IfSome result (IsFresh N.engine) }
{
    let (seat, ticket) = match hold.guard.next_front(hold.words) {
        Some(front) => front,
        None => hold.guard.next_scan_if_due(hold.words, true)?,
    };
    Some(hold.guard.pass(seat, ticket))
}
