//! The engine: the steps that its calls go through, and how it is closed or reopened.
ghost use Rattle.std.specs.Prelude.{◌≡◌, ◌<◌, ◌≤◌, ◌+◌, ◌-◌, ◌++◌, ◌∷◌, [], All, IfErr, IfNone, IfOk, IfSome, IsSome, Some, length, slice_get, vec_capacity};
ghost use Rattle.vll_check.specs.Calls.{Fits};
ghost use Rattle.vll_check.specs.Catalog.{IsCatalog};
ghost use Rattle.vll_proc.specs.Headline.Serial.{answer};
ghost use Rattle.vll_counters.specs.Headline.Views.{calls_in};
ghost use Rattle.vll_queue.specs.Begin.{FindsAndBegins};
ghost use Rattle.vll_queue.specs.Closed.{AreSerial, GoesOn, IsSerial};
ghost use Rattle.vll_queue.specs.Finished.{AppendsFinished};
ghost use Rattle.vll_engine.specs.Onto.{IsOfLast};
ghost use Rattle.vll_queue.specs.Pass.{IsDone, IsFresh, IsReleased, StaysOf};
ghost use Rattle.vll_queue.specs.Sessions.{HasItsCalls, SawOthers};
ghost use Rattle.vll_queue.specs.Shown.{library_of, words_of};

use crate::endings::{NotClosed, NotReopened, Reopened};
use crate::hold::Hold;
use crate::latch::Latch;
use crate::reopening::reopen;
use crate::rest::Rest;
use crossbeam_utils::CachePadded;
use std::alloc::Global;
use std::sync::{Mutex, Wait};
use vll_check::Library;
use vll_core::{Line, Ticket};
use vll_counters::{PassSeat, Words};
use vll_proc::{Call, Reply};
use vll_queue::{
    Begun, Closed, ClosingMemory, Done, Knob, Locked, Name, Pacing, Pass, Released, Session, find,
};
use vll_sca::Place;

/// The engine. Many threads may share it. Only a function that takes `wait` takes the lock: `hold` keeps it for several
/// calls, and each of the others takes it once.
#[derive(Drop)]
pub struct Engine<N: Name, H: Place + Drop> {
    pub(crate) library: Library,
    pub(crate) words: Words,
    memory: ClosingMemory,
    // What each hold changes starts on its own cache line.
    locked: CachePadded<Mutex<Locked<N, H>>>,
    // Waiting threads read it all the time, so it is kept apart from what a hold changes.
    latch: CachePadded<Latch>,
    pub(crate) pacing: Pacing,
    ghost library_is: { library ≡ library_of N.engine },
    ghost catalog: { IsCatalog library },
    ghost words_are: { words ≡ words_of N.engine },
    ghost memory_is: { memory ≡ length N.engine.base.records },
    ghost few_clients: { N.engine.clients < 4294967296 },
}

impl<N: Name, H: Place + Drop> Engine<N, H> {
    // An engine of the library, the words, the queue behind its lock, and the memory for what closing leaves.
    pub(crate) fn new(
        library: Library,
        words: Words,
        locked: Locked<N, H>,
        memory: ClosingMemory,
        pacing: Pacing,
    ) -> Engine<N, H>
        requires library { library ≡ library_of N.engine }
        requires words { words ≡ words_of N.engine }
        requires memory { memory ≡ length N.engine.base.records }
        requires few { N.engine.clients < 4294967296 }
    {
        // A contract knows that the procedures passed their checks only if the library is read.
        let _ = library.records();
        Engine {
            library,
            words,
            memory,
            locked: CachePadded::new(Mutex::new(locked)),
            latch: CachePadded::new(Latch::new()),
            pacing,
        }
    }

    /// The library, which makes the calls.
    pub fn library(&self) -> &Library
        ensures { result.now ≡ library_of N.engine }
    {
        &self.library
    }

    /// How its threads look, wait and put off, as its opening said.
    pub fn pacing(&self) -> Pacing {
        self.pacing
    }

    /// Takes the lock and keeps it until the hold is dropped: functions of the hold take no lock of their own, and
    /// nothing that another thread does under the lock comes between them.
    pub fn hold(&self, wait: &impl Wait) -> Hold<'_, N, H> {
        let latch: &Latch = &self.latch;
        let latch = latch.enter(&self.pacing).then_some(latch);
        Hold::new(self.locked.lock(wait), &self.words, &self.library, latch)
    }

    // As `hold`, for a thread that makes one call. It takes no latch: with its pauses the lock's own word is enough, and
    // one word less goes from processor to processor.
    #[inline(always)]
    pub(crate) fn hold_of_a_caller(&self, wait: &impl Wait, rest: &mut Rest) -> Hold<'_, N, H> {
        match self.locked.try_lock() {
            Some(guard) => {
                rest.met_nobody();
                Hold::new(guard, &self.words, &self.library, None)
            }
            None => self.hold_after_pauses(wait, rest),
        }
    }

    // Takes the lock in one of many tries, with a pause before each, or waits for it.
    #[inline(never)]
    fn hold_after_pauses(&self, wait: &impl Wait, rest: &mut Rest) -> Hold<'_, N, H> {
        for tries in 1..self.pacing.get(Knob::MostTries) {
            rest.pause(&self.pacing, tries);
            if let Some(guard) = self.locked.try_lock() {
                return Hold::new(guard, &self.words, &self.library, None);
            }
        }
        Hold::new(self.locked.lock(wait), &self.words, &self.library, None)
    }

    /// Loads the pair word of each record that the call claims, and returns whether each claim would have been granted
    /// by the word loaded. That is a hint, since the words may have changed by now. It changes nothing, but a call that
    /// begins soon after finds the words in the cache. The record of an indirect key is not known yet, and is not among
    /// them. Takes no lock.
    pub fn look(&self, call: &Call) -> bool
        requires { Fits (library_of N.engine) call.now }
    {
        vll_queue::look::<N>(&self.words, call)
    }

    /// Enters a call of the session's client: the call requests all its claims and gets the next ticket. Returns `Free`
    /// with a pass if every claim was granted, else `Blocked`; a blocked call keeps its claims. A refusal enters
    /// nothing and takes no claim: `Spent` if as many calls as the limit have entered, else `Busy` if as many as the
    /// cap wait. In each case the session has then seen all calls that had entered when the lock was released: after
    /// what it had seen, only calls of other clients and, after an entry, its own as the last.
    ///
    /// If the call has an indirect key, its source is loaded first, without a claim and before the lock is taken, and
    /// the call enters with the value found; a refusal drops the value. The source held the value before the call's
    /// ticket or an earlier one, and after each call that claims it and whose reply the session was given. If the
    /// source has another value when the body begins, the call is aborted with `Reason::Moved`; the engine does not
    /// retry. The pass of a call that may run is for this call, with what it found.
    pub fn begin(&self, wait: &impl Wait, session: &mut Session, call: &Call) -> Begun
        requires session { session.old.table ≡ N.engine.table }
        requires fits { Fits (library_of N.engine) call.now }
        ensures answer { FindsAndBegins N.engine session.old.session session.new.session call.now result }
        ensures given { session.new.session.given ≡ session.old.session.given }
        ensures session { session.new.table ≡ session.old.table }
    {
        match self.library.source(call) {
            None => {
                let mut hold = self.hold(wait);
                hold.guard
                    .admit(&self.words, session, call)
                    .into_begun(call)
            }
            Some(source) => {
                let call = find::<N>(&self.words, &self.library, session, call, source);
                let mut hold = self.hold(wait);
                let admission = hold.guard.admit(&self.words, session, &call);
                admission.into_begun(&call)
            }
        }
    }

    /// Returns a pass for the lowest ticket that is not gone, if it waits: all before it are gone.
    pub fn next_front(&self, wait: &impl Wait) -> Option<Pass>
        ensures { IfSome result (IsFresh N.engine) }
    {
        let mut hold = self.hold(wait);
        let (seat, ticket) = hold.guard.next_front(&self.words)?;
        Some(hold.guard.pass(seat, ticket))
    }

    /// Returns a pass for the first waiting ticket that has no hash conflict with an earlier one that runs or waits, by
    /// the places of the engine's hash.
    pub fn next_scan(&self, wait: &impl Wait) -> Option<Pass>
        ensures { IfSome result (IsFresh N.engine) }
    {
        let mut hold = self.hold(wait);
        let (seat, ticket) = hold.guard.next_scan_if_due(&self.words, false)?;
        Some(hold.guard.pass(seat, ticket))
    }

    /// Loads each claim's record, runs the body, and stores each Write claim's record unless the call aborts. Takes no
    /// lock, and steps of other calls may come between any two of these. The reply is the one at the pass's ticket in
    /// the serial run of the calls that the pass has seen.
    #[inline(always)]
    pub fn execute(&self, pass: Pass) -> Done
        requires pass { IsFresh N.engine pass }
        ensures done { IsDone N.engine result }
        ensures same { StaysOf pass.pass result.pass }
    {
        vll_queue::execute::<N>(&self.words, &self.library, pass)
    }

    /// Releases each of the call's claims. Takes no lock.
    #[inline(always)]
    pub fn release(&self, done: Done) -> Released
        requires done { IsDone N.engine done }
        ensures released { IsReleased N.engine result }
        ensures same { StaysOf done.pass result.pass }
        ensures reply { result.reply ≡ done.reply }
    {
        vll_queue::release::<N>(&self.words, done)
    }

    // Executes the call and releases its claims, as `execute` and then `release`, with fewer copies.
    #[inline(always)]
    pub(crate) fn run(&self, pass: Pass) -> Released
        requires pass { IsFresh N.engine pass }
        ensures released { IsReleased N.engine result }
        ensures same { StaysOf pass.pass result.pass }
    {
        let mut pass = pass;
        let reply = self.run_in_place(&mut pass);
        pass.into_released(reply)
    }

    // Executes the call whose pass has this seat, writes its reply, and releases its claims.
    #[inline(always)]
    pub(crate) fn run_at(&self, seat: &mut PassSeat, call: &Call, reply: &mut Reply)
        requires seat { IsFresh N.engine seat.old }
        requires call { seat.old.pass.call ≡ call.now }
        ensures released { IsReleased N.engine (record { table = seat.new.table; pass = seat.new.pass; reply = reply.new }) }
        ensures same { StaysOf seat.old.pass seat.new.pass }
    {
        vll_queue::run_at::<N>(&self.words, &self.library, seat, call, reply);
    }

    // Executes the call of a borrowed pass and releases its claims. Returns the reply.
    #[inline(always)]
    pub(crate) fn run_in_place(&self, pass: &mut Pass) -> Reply
        requires pass { IsFresh N.engine pass.old }
        ensures released { IsReleased N.engine (record { table = pass.new.table; pass = pass.new.pass; reply = result }) }
        ensures same { StaysOf pass.old.pass pass.new.pass }
    {
        vll_queue::run_in_place::<N>(&self.words, &self.library, pass)
    }

    /// Finishes the call: it is gone, and its line gets the reply. Returns its ticket and its reply.
    pub fn finish(&self, wait: &impl Wait, released: Released) -> (Ticket, Reply)
        requires released { IsReleased N.engine released }
        ensures ticket { result.0 ≡ released.pass.ticket }
        ensures reply { result.1 ≡ released.reply }
    {
        let reply = released.reply();
        (self.hold(wait).finish(released), reply)
    }

    /// Returns the reply in the ticket's line; `None` if there is no such line or it has no reply yet. The reply is the
    /// ticket's in the serial run of the calls that the session has then seen. The session sees all calls that have
    /// entered; once it was given a ticket's reply, it always gets one for that ticket.
    pub fn reply(&self, wait: &impl Wait, session: &mut Session, ticket: Ticket) -> Option<Reply>
        requires session { session.old.table ≡ N.engine.table }
        ensures reply { IfSome result (λ reply. answer N.engine.base.procs session.new.session.seen N.engine.base.records ticket ≡ Some reply) }
        ensures given { IfSome result (λ _. session.new.session.given ≡ session.old.session.given ++ ticket ∷ []) }
        ensures none { IfNone result (session.new.session.given ≡ session.old.session.given) }
        ensures ever { (k : _) → slice_get session.old.session.given k ≡ Some ticket → IsSome result }
        ensures session { (session.new.table ≡ session.old.table) × SawOthers session.old.session session.new.session }
    {
        let mut hold = self.hold(wait);
        hold.guard.reply(&self.words, session, ticket)
    }

    /// Appends the journal's lines from ticket `from` on, in order, as far as their calls have finished: it stops before
    /// the first line of a call that has not, and where the room ends. It appends nothing if there is no such ticket
    /// yet, and allocates nothing. Each line has the reply that its ticket has in the serial run of the calls that the
    /// session has then seen. The session sees all calls that have entered; it is not given these replies (`reply` gives
    /// one). If it stops before a ticket whose reply the session was given, the room has ended.
    pub fn lines_from(
        &self,
        wait: &impl Wait,
        session: &mut Session,
        from: Ticket,
        lines: &mut Vec<Line>,
    )
        requires session { session.old.table ≡ N.engine.table }
        ensures lines { AppendsFinished N.engine session.new.session.seen from lines.old.items lines.new.items }
        ensures ever { (k : _) → slice_get session.old.session.given k ≡ Some (from + (length lines.new.items - length lines.old.items)) → length lines.new.items ≡ vec_capacity lines.new }
        ensures room { vec_capacity lines.new ≡ vec_capacity lines.old }
        ensures given { session.new.session.given ≡ session.old.session.given }
        ensures session { (session.new.table ≡ session.old.table) × SawOthers session.old.session session.new.session }
    {
        let mut hold = self.hold(wait);
        hold.guard.lines_from(&self.words, session, from, lines);
    }

    /// Returns the records, their pair words and the journal, if no call runs or waits: each line has its reply, the
    /// records are those of the journal's calls made one at a time, and each pair word is 0. Each call may enter, has
    /// found what was there, and is of a client of the engine. The journal begins with what each session passed has
    /// seen, and has no other calls of its client. Otherwise returns the engine and the sessions, with the numbers of
    /// calls that run and that wait. `sessions` may lack some sessions.
    pub fn close(self, sessions: Vec<Session>) -> Result<Closed, NotClosed<N, H>>
        requires sessions { All (λ s. s.table ≡ N.engine.table) sessions.items }
        ensures serial { IfOk result (λ c. IsSerial N.engine c) }
        ensures sessions { IfOk result (λ c. All (λ s. HasItsCalls (calls_in c.journal.items) s.session) sessions.items) }
        ensures back { IfErr result (λ n. n.sessions ≡ sessions) }
        ensures left { IfErr result (λ n. 0 < n.running + n.waiting) }
    {
        let Engine {
            library,
            words,
            memory,
            locked,
            latch: _,
            pacing,
        } = self;
        let locked = locked.into_inner().into_inner();
        match locked.close(library, words, memory, sessions) {
            Ok(ended) => Ok(ended.into_closed::<N>()),
            Err(open) => Err(NotClosed::of(open, pacing)),
        }
    }

    /// Closes the engine, and opens another one over the records as its calls have left them, with the same library,
    /// configuration, hash, pacing and number of clients. Returns the journal and the opening, which gets a name of its
    /// own and an empty journal. What `close` promises of the journal, the records, the replies and the sessions holds
    /// here too. All sessions have to be passed. The capacity of the list `journal` is at least the limit and that of
    /// `records` at least the number of records, and so is that of the lists returned; what the two hold is dropped.
    ///
    /// All lists are reused. The block of atomic words is freed, and one of the same size is allocated: no other memory
    /// is taken. If that allocation fails, or if calls run or wait, returns what `close` returns, and the two lists.
    pub fn reopen(
        self,
        alloc: Global,
        sessions: Vec<Session>,
        journal: Vec<Line>,
        records: Vec<u64>,
    ) -> Result<Reopened<H>, NotReopened<N, H>>
        requires sessions { All (λ s. s.table ≡ N.engine.table) sessions.items }
        requires all { length sessions.items ≡ N.engine.clients }
        requires room { N.engine.config.limit ≤ vec_capacity journal }
        requires room_for_records { length N.engine.base.records ≤ vec_capacity records }
        ensures serial { IfOk result (λ r. AreSerial N.engine r.journal.items) }
        ensures opening { IfOk result (λ r. GoesOn H.place_of N.engine (calls_in r.journal.items) r.opening) }
        ensures records { IfOk result (λ r. r.records.items ≡ r.opening.records) }
        ensures sessions { IfOk result (λ r. All (λ s. HasItsCalls (calls_in r.journal.items) s.session) sessions.items) }
        ensures room { IfOk result (λ r. N.engine.config.limit ≤ vec_capacity r.journal) }
        ensures room_for_records { IfOk result (λ r. length N.engine.base.records ≤ vec_capacity r.records) }
        ensures closed { IfErr result (λ n. IfOk n.left (λ c. IsSerial N.engine c)) }
        ensures closed_sessions { IfErr result (λ n. IfOk n.left (λ c. All (λ s. HasItsCalls (calls_in c.journal.items) s.session) sessions.items)) }
        ensures back { IfErr result (λ n. IfErr n.left (λ o. o.sessions ≡ sessions)) }
        ensures left { IfErr result (λ n. IfErr n.left (λ o. 0 < o.running + o.waiting)) }
        ensures list { IfErr result (λ n. n.journal ≡ journal) }
        ensures records_back { IfErr result (λ n. n.records ≡ records) }
    {
        let Engine {
            library,
            words,
            memory,
            locked,
            latch: _,
            pacing,
        } = self;
        let locked = locked.into_inner().into_inner();
        match locked.close(library, words, memory, sessions) {
            Ok(ended) => reopen::<N, H>(ended, alloc, journal, records, pacing),
            Err(open) => Err(NotReopened {
                left: Err(NotClosed::of(open, pacing)),
                journal,
                records,
            }),
        }
    }
}
