//! A session whose type knows its engine, so that a caller has nothing to prove about that.
ghost use Rattle.std.specs.Prelude.{◌≡◌, ◌+◌, ◌-◌, ◌++◌, ◌∷◌, [], IfErr, IfNone, IfOk, IfSome, IsOk, IsSome, Some, Err, length, slice_get, vec_capacity};
ghost use Rattle.vll_check.specs.Calls.{Fits, call_made};
ghost use Rattle.vll_proc.specs.Headline.Serial.{answer};
ghost use Rattle.vll_queue.specs.Begin.{FindsAndBegins};
ghost use Rattle.vll_queue.specs.Calling.{IsCalled, IsCalledByName, IsTurnedAway};
ghost use Rattle.vll_queue.specs.Finished.{AppendsFinished};
ghost use Rattle.vll_queue.specs.News.{Hears};
ghost use Rattle.vll_queue.specs.Sessions.{SawOthers};
ghost use Rattle.vll_queue.specs.Shown.{library_of};

use crate::calling::EngineSpent;
use crate::engine::Engine;
use crate::fault::EngineFault;
use crate::rest::Rest;
use std::marker::{Model, PhantomData};
use std::sync::Wait;
use vll_core::{Line, Ticket};
use vll_proc::{Call, Reply};
use vll_queue::{BeginRefusal, Begun, Name, News, Session};
use vll_sca::Place;

/// A session of the engine of this name. Contracts see the session.
#[derive(Drop)]
pub struct Client<N: Name> {
    session: Session,
    // How the thread that makes its calls waits.
    rest: Rest,
    of: PhantomData<N>,
}

impl<N: Name> Model for Client<N> {
    ghost use Rattle.std.specs.Prelude.{◌≡◌};
    ghost use Rattle.vll_counters.specs.Shown.{SessionShown};

    ghost Value = { SessionShown };

    ghost view = { λ c. c.session };

    ghost invariant = { λ c. c.session.table ≡ N.engine.table };
}

impl<N: Name> Client<N> {
    // The client with this session.
    pub(crate) fn of(session: Session) -> Client<N>
        requires { session.table ≡ N.engine.table }
        ensures { result ≡ session }
    {
        Client {
            session,
            rest: Rest::new(),
            of: PhantomData,
        }
    }

    // Returns its session.
    pub(crate) fn into_session(self) -> Session
        ensures session { result ≡ self }
        ensures table { result.table ≡ N.engine.table }
    {
        self.session
    }

    /// Calls the procedure with this name, from entry to reply, as `make` does, and returns the call's ticket and reply.
    /// Fails with `Call` and the fault if the library does not make the call: the client is then unchanged.
    /// Fails with `Refused(Spent)` if the engine takes no more calls: the call has not entered. There is no other fault.
    pub fn call<H: Place + Drop>(
        &mut self,
        wait: &impl Wait,
        engine: &Engine<N, H>,
        name: &str,
        args: &[u64],
    ) -> Result<(Ticket, Reply), EngineFault>
        ensures called { IfOk result (λ r. IsCalledByName N.engine self.old.session self.new.session name.now args.now r.0 r.1) }
        ensures fault { IfErr (call_made (library_of N.engine) name.now args.now) (λ why. (result ≡ Err (EngineFault.Call why)) × (self.new ≡ self.old)) }
        ensures spent { IsOk (call_made (library_of N.engine) name.now args.now) → IfErr result (λ why. (why ≡ EngineFault.Refused BeginRefusal.Spent) × IsTurnedAway N.engine self.old.session self.new.session) }
    {
        let call = engine.library().call(name, args)?;
        Ok(self.make(wait, engine, &call)?)
    }

    /// Makes a call, from its entry to its reply, and returns its ticket and its reply. A call that may run is executed
    /// at once. While it waits, or while as many calls wait as the cap allows, this thread executes other calls of any
    /// client: the front, or what the scan finds. If there are none, it pauses and looks again; it does not give up. If
    /// the engine is spent, no call has entered. No worker is needed, and no memory is taken.
    pub fn make<H: Place + Drop>(
        &mut self,
        wait: &impl Wait,
        engine: &Engine<N, H>,
        call: &Call,
    ) -> Result<(Ticket, Reply), EngineSpent>
        requires fits { Fits (library_of N.engine) call.now }
        ensures called { IfOk result (λ r. IsCalled N.engine self.old.session self.new.session call.now r.0 r.1) }
        ensures spent { IfErr result (λ _. IsTurnedAway N.engine self.old.session self.new.session) }
    {
        engine.call_with(wait, &mut self.session, call, &mut self.rest)
    }

    /// Enters a call, as `Engine::begin` does.
    pub fn begin<H: Place + Drop>(
        &mut self,
        wait: &impl Wait,
        engine: &Engine<N, H>,
        call: &Call,
    ) -> Begun
        requires fits { Fits (library_of N.engine) call.now }
        ensures answer { FindsAndBegins N.engine self.old.session self.new.session call.now result }
        ensures given { self.new.session.given ≡ self.old.session.given }
    {
        engine.begin(wait, &mut self.session, call)
    }

    /// Returns the reply of a ticket, as `Engine::reply` does.
    pub fn reply<H: Place + Drop>(
        &mut self,
        wait: &impl Wait,
        engine: &Engine<N, H>,
        ticket: Ticket,
    ) -> Option<Reply>
        ensures reply { IfSome result (λ reply. answer N.engine.base.procs self.new.session.seen N.engine.base.records ticket ≡ Some reply) }
        ensures given { IfSome result (λ _. self.new.session.given ≡ self.old.session.given ++ ticket ∷ []) }
        ensures none { IfNone result (self.new.session.given ≡ self.old.session.given) }
        ensures ever { (k : _) → slice_get self.old.session.given k ≡ Some ticket → IsSome result }
        ensures others { SawOthers self.old.session self.new.session }
    {
        engine.reply(wait, &mut self.session, ticket)
    }

    /// Appends the lines of finished calls from ticket `from` on, as `Engine::lines_from` does.
    pub fn lines_from<H: Place + Drop>(
        &mut self,
        wait: &impl Wait,
        engine: &Engine<N, H>,
        from: Ticket,
        lines: &mut Vec<Line>,
    )
        ensures lines { AppendsFinished N.engine self.new.session.seen from lines.old.items lines.new.items }
        ensures ever { (k : _) → slice_get self.old.session.given k ≡ Some (from + (length lines.new.items - length lines.old.items)) → length lines.new.items ≡ vec_capacity lines.new }
        ensures room { vec_capacity lines.new ≡ vec_capacity lines.old }
        ensures given { self.new.session.given ≡ self.old.session.given }
        ensures others { SawOthers self.old.session self.new.session }
    {
        engine.lines_from(wait, &mut self.session, from, lines);
    }

    /// Returns news of what it has seen: its own calls, and all that entered before it was last at the lock, found or
    /// heard. It can be called any number of times. Takes no lock.
    pub fn tell<H: Place + Drop>(&mut self, engine: &Engine<N, H>) -> News<N>
        ensures news { result.calls ≡ self.old.session.seen }
        ensures same { self.new ≡ self.old }
    {
        engine.tell(&mut self.session)
    }

    /// Hears news of this engine: what it has seen now begins with the calls of the news, so each of its later calls
    /// gets a higher ticket than all of them. What it has seen grows by calls of other clients only. Takes no lock.
    pub fn hear<H: Place + Drop>(&mut self, engine: &Engine<N, H>, news: News<N>)
        ensures heard { Hears self.old.session self.new.session news.calls }
    {
        engine.hear(&mut self.session, news);
    }
}
