//! Tests of when a gate of a run is called, by gates that ask the engine for replies or begin a call.
ghost use Rattle.std.specs.Prelude.{◌≡◌, ◌≤◌, nat_eq};
ghost use Rattle.std.specs.List.{IsDistinct};
ghost use Rattle.vll_queue.specs.Shown.{name_of};
ghost use Rattle.vll_sca.specs.Placing.{placing};
ghost use Rattle.vll_tokens.specs.Tokens.{AreFit, clients_of};

use crate::asserts::{equal, fail, holds};
use crate::opening::opening;
use crate::runs::ends;
use crate::tokens::{all_calling, call_of, closed_of, last_and_others};
use std::alloc::{AllocError, Global};
use std::marker::{Brand, PhantomData};
use std::process::Abort;
use std::sync::atomic::{AtomicBool, Ordering};
use std::sync::{Mutex, Wait};
use std::test::*;
use std::thread::{Threads, join, yield_now};
use vll_core::Ticket;
use vll_engine::{Begun, Engine, Name, Opening, Session};
use vll_proc::{Reason, Reply};
use vll_sca::Placing;
use vll_workers::{Gate, MOST_WORKERS, Token, run};

// An engine as a gate has it. A bound with `Sync` lets a reference to it be passed to threads, whatever it is made of.
trait Shared<N: Name> {
    fn engine(&self) -> &Engine<N, Placing>;
}

impl<N: Name> Shared<N> for Engine<N, Placing> {
    fn engine(&self) -> &Engine<N, Placing> {
        self
    }
}

// A session of an engine.
#[derive(Drop)]
struct Asker<N: Name> {
    session: Session,
    of: PhantomData<N>,
    ghost table: { session.table ≡ N.engine.table },
}

impl<N: Name> Asker<N> {
    fn new(session: Session) -> Asker<N>
        requires { session.table ≡ N.engine.table }
    {
        Asker {
            session,
            of: PhantomData,
        }
    }

    // The reply of a ticket, if it has one.
    fn reply<R: Wait>(
        &mut self,
        rt: &R,
        engine: &Engine<N, Placing>,
        ticket: Ticket,
    ) -> Option<Reply> {
        engine.reply(rt, &mut self.session, ticket)
    }

    // Begins a call that adds 1 to the record that the value of record 0 leads to. It is blocked.
    fn begins_via<R: Wait + Abort>(&mut self, rt: &R, engine: &Engine<N, Placing>) {
        let via = call_of(rt, engine.library(), "via", 0);
        match engine.begin(rt, &mut self.session, &via) {
            Begun::Free(pass) => {
                ends(rt, engine, pass);
                fail(rt, "the call is free")
            }
            Begun::Blocked(_) => {}
            Begun::Refused(_) => fail(rt, "the call is refused"),
        }
    }
}

// How often a gate was called before a call was executed, and found no reply for it then; and how often after it, and
// found its reply then.
#[derive(Clone, Copy, PartialEq, Eq, Debug)]
struct Told {
    before: u32,
    unanswered: u32,
    after: u32,
    answered: u32,
}

const NOTHING: Told = Told {
    before: 0,
    unanswered: 0,
    after: 0,
    answered: 0,
};

// Each of them once.
const ONCE: Told = Told {
    before: 1,
    unanswered: 1,
    after: 1,
    answered: 1,
};

// What a gate noted of each ticket, and whether it was called for another one.
#[derive(Drop)]
struct Notes<N: Name> {
    asker: Asker<N>,
    told: Vec<Told>,
    has_stray: bool,
}

impl<N: Name> Notes<N> {
    // Makes notes with nothing noted of `calls` calls.
    fn new(alloc: Global, session: Session, calls: u32) -> Result<Notes<N>, AllocError>
        requires { session.table ≡ N.engine.table }
    {
        Ok(Notes {
            told: vec![in alloc; NOTHING; calls as usize]?,
            asker: Asker::new(session),
            has_stray: false,
        })
    }

    fn is_told_before<R: Wait>(&mut self, rt: &R, engine: &Engine<N, Placing>, ticket: Ticket) {
        let reply = self.asker.reply(rt, engine, ticket);
        let Some(told) = self.told.get_mut(ticket.0 as usize) else {
            self.has_stray = true;
            return;
        };
        told.before = told.before.saturating_add(1);
        if reply.is_none() {
            told.unanswered = told.unanswered.saturating_add(1);
        }
    }

    fn is_told_after<R: Wait>(&mut self, rt: &R, engine: &Engine<N, Placing>, ticket: Ticket) {
        let reply = self.asker.reply(rt, engine, ticket);
        let Some(told) = self.told.get_mut(ticket.0 as usize) else {
            self.has_stray = true;
            return;
        };
        told.after = told.after.saturating_add(1);
        if reply.is_some() {
            told.answered = told.answered.saturating_add(1);
        }
    }
}

// A gate that asks for the reply of each call for which it is called. The engine takes its lock for that, so that a
// function of the gate that was called under the lock would not return. If it may not wait, workers execute several calls
// between two holds.
#[derive(Drop)]
struct Asking<'a, N: Name, X, R: Wait> {
    rt: &'a R,
    shared: &'a X,
    notes: Mutex<Notes<N>>,
    may_wait: bool,
}

impl<N: Name, X: Shared<N>, R: Wait> Gate for Asking<'_, N, X, R> {
    fn before(&self, ticket: Ticket) {
        let mut notes = self.notes.lock(self.rt);
        notes.is_told_before(self.rt, self.shared.engine(), ticket);
    }

    fn after(&self, ticket: Ticket) {
        let mut notes = self.notes.lock(self.rt);
        notes.is_told_after(self.rt, self.shared.engine(), ticket);
    }

    fn may_wait(&self) -> bool {
        self.may_wait
    }
}

// How often a thread checks whether a run has ended, which takes some seconds.
const MOST_LOOKS: u32 = 20_000_000;

// Waits until a run has ended, and ends the test if that takes too long: then a function of its gate waits for ever.
fn watches<R: Abort>(rt: &R, has_ended: &AtomicBool) {
    for _ in 0..MOST_LOOKS {
        if has_ended.load(Ordering::SeqCst) {
            return;
        }
        yield_now();
    }
    fail(rt, "the run does not end")
}

// Checks that a run, which is watched, ends well.
fn runs_to_its_end<N: Name + Send + Sync, R: Wait + Threads + Abort + Sync, G: Gate + Sync>(
    rt: &R,
    alloc: Global,
    engine: &Engine<N, Placing>,
    tokens: Vec<Token>,
    workers: u32,
    gate: &G,
)
    requires workers { (1 ≤ workers) × (workers ≤ MOST_WORKERS) }
    requires fit { AreFit N.engine tokens.items }
    requires distinct { IsDistinct nat_eq (clients_of tokens.items) }
{
    let has_ended = AtomicBool::new(false);
    let ended = &has_ended;
    let (is_well, ()) = join(
        rt,
        move || -> bool
            requires workers { (1 ≤ workers) × (workers ≤ MOST_WORKERS) }
            requires fit { AreFit N.engine tokens.items }
            requires distinct { IsDistinct nat_eq (clients_of tokens.items) }
        {
            let ran = run(rt, rt, alloc, engine, tokens, workers, gate);
            ended.store(true, Ordering::SeqCst);
            ran.is_ok()
        },
        move || watches(rt, ended),
    );
    holds(rt, is_well);
}

// How many calls each of four clients makes.
const CALLS: u32 = 25;

// Runs the tokens with `workers` workers under that gate. Returns what it noted.
fn runs_asking<N: Name + Send + Sync, X: Shared<N> + Sync, R: Wait + Threads + Abort + Sync>(
    rt: &R,
    alloc: Global,
    engine: &Engine<N, Placing>,
    shared: &X,
    tokens: Vec<Token>,
    workers: u32,
    may_wait: bool,
    notes: Notes<N>,
) -> Notes<N>
    requires workers { (1 ≤ workers) × (workers ≤ MOST_WORKERS) }
    requires fit { AreFit N.engine tokens.items }
    requires distinct { IsDistinct nat_eq (clients_of tokens.items) }
{
    let gate = Asking {
        rt,
        shared,
        notes: Mutex::new(notes),
        may_wait,
    };
    runs_to_its_end(rt, alloc, engine, tokens, workers, &gate);
    let Asking {
        rt: _,
        shared: _,
        notes,
        may_wait: _,
    } = gate;
    notes.into_inner()
}

// Runs the calls of four clients on `records` records with `workers` workers, and checks that the gate is called for
// each call once before it has its reply, and once after that.
fn is_told_once<N: Name + Send + Sync, R: Wait + Threads + Abort + Sync>(
    rt: &R,
    alloc: Global,
    opening: Opening<Placing>,
    workers: u32,
    records: u32,
    may_wait: bool,
) -> Result<(), Fail>
    requires name { N.engine ≡ name_of placing opening }
    requires workers { (1 ≤ workers) × (workers ≤ MOST_WORKERS) }
{
    let records = records.max(1);
    let (engine, sessions) = opening.start::<N>();
    let (session, sessions) = last_and_others::<N>(rt, sessions);
    let tokens = all_calling::<N>(
        rt,
        alloc,
        engine.library(),
        sessions,
        "bump",
        records,
        CALLS,
    )?;
    let notes = Notes::new(alloc, session, 4 * CALLS)?;
    let notes = runs_asking(
        rt, alloc, &engine, &engine, tokens, workers, may_wait, notes,
    );
    holds(rt, !notes.has_stray);
    for told in notes.told.as_slice() {
        equal(rt, *told, ONCE);
    }
    let closed = closed_of(rt, engine, Vec::new(alloc));
    equal(rt, closed.journal.len(), 4 * CALLS as usize);
    Ok(())
}

// With one worker, records of their own and a gate that does not wait, several calls begin under one hold; on one record
// they run one after the other.
#[test]
fn gate_is_told_of_each_call_once_outside_the_hold(rt: HostRuntime) -> Result<(), Fail> {
    for (workers, records, may_wait) in [
        (1, 4, false),
        (1, 4, true),
        (1, 1, false),
        (1, 1, true),
        (4, 4, false),
        (4, 4, true),
        (4, 1, true),
    ] {
        let opening = opening(rt.alloc(), 4, 4 * CALLS, 5)?;
        is_told_once::<Brand, HostRuntime>(&rt, rt.alloc(), opening, workers, records, may_wait)?;
    }
    Ok(())
}

// A gate that begins another call right before the first one is executed.
#[derive(Drop)]
struct Finding<'a, N: Name, X, R: Wait + Abort> {
    rt: &'a R,
    shared: &'a X,
    asker: Mutex<Asker<N>>,
}

impl<N: Name, X: Shared<N>, R: Wait + Abort> Gate for Finding<'_, N, X, R> {
    fn before(&self, ticket: Ticket) {
        if ticket == Ticket(0) {
            let mut asker = self.asker.lock(self.rt);
            asker.begins_via(self.rt, self.shared.engine());
        }
    }

    fn after(&self, _ticket: Ticket) {}
}

// Runs the tokens with one worker under that gate, which begins the call by this session.
fn runs_finding<N: Name + Send + Sync, X: Shared<N> + Sync, R: Wait + Threads + Abort + Sync>(
    rt: &R,
    alloc: Global,
    engine: &Engine<N, Placing>,
    shared: &X,
    tokens: Vec<Token>,
    session: Session,
) -> Asker<N>
    requires fit { AreFit N.engine tokens.items }
    requires distinct { IsDistinct nat_eq (clients_of tokens.items) }
    requires session { session.table ≡ N.engine.table }
{
    let gate = Finding {
        rt,
        shared,
        asker: Mutex::new(Asker::new(session)),
    };
    runs_to_its_end(rt, alloc, engine, tokens, 1, &gate);
    let Finding {
        rt: _,
        shared: _,
        asker,
    } = gate;
    asker.into_inner()
}

// Ticket 0 makes record 0 a 1. What ticket 1 finds there, while the gate is called for ticket 0, is the 0 from before
// it, so that it is aborted.
fn finds_the_value_before<N: Name + Send + Sync, R: Wait + Threads + Abort + Sync>(
    rt: &R,
    alloc: Global,
    opening: Opening<Placing>,
) -> Result<(), Fail>
    requires { N.engine ≡ name_of placing opening }
{
    let (engine, sessions) = opening.start::<N>();
    let (session, sessions) = last_and_others::<N>(rt, sessions);
    let tokens = all_calling::<N>(rt, alloc, engine.library(), sessions, "bump", 2, 1)?;
    let mut asker = runs_finding(rt, alloc, &engine, &engine, tokens, session);
    let reply = asker.reply(rt, &engine, Ticket(1));
    holds(rt, matches!(reply, Some(Reply::Aborted(Reason::Moved))));
    let closed = closed_of(rt, engine, Vec::new(alloc));
    equal(rt, closed.records.as_slice(), [1, 0].as_slice());
    Ok(())
}

#[test]
fn gate_is_told_before_a_call_is_executed(rt: HostRuntime) -> Result<(), Fail> {
    let opening = opening(rt.alloc(), 2, 2, 2)?;
    finds_the_value_before::<Brand, HostRuntime>(&rt, rt.alloc(), opening)
}
