//! Tests of what runs enter, execute and leave, also if the engine is spent or there are no tokens.
ghost use Rattle.std.specs.Prelude.{◌≡◌, ◌≤◌, All};
ghost use Rattle.vll_queue.specs.Pass.{IsFresh};
ghost use Rattle.vll_queue.specs.Shown.{name_of};
ghost use Rattle.vll_sca.specs.Placing.{placing};

use crate::asserts::{equal, fail, holds};
use crate::gates::{Meeting, Tally};
use crate::opening::opening;
use crate::tokens::{
    all_calling, are_counted, are_home, bump_of, calling, closed_of, closes, output_of,
};
use std::alloc::Global;
use std::marker::Brand;
use std::process::Abort;
use std::sync::Wait;
use std::sync::atomic::Ordering;
use std::test::*;
use std::thread::Threads;
use vll_core::Ticket;
use vll_engine::{Begun, Engine, Name, Opening, Pass, Session};
use vll_sca::Placing;
use vll_workers::{MOST_WORKERS, OpenGate, RunError, RunFault, run};

// Runs `clients` clients of `times` calls each on one record: each call finds what the one before it left.
pub(crate) fn counts<N: Name + Send + Sync, R: Wait + Threads + Abort + Sync>(
    rt: &R,
    alloc: Global,
    opening: Opening<Placing>,
    clients: u16,
    times: u16,
    workers: u32,
) -> Result<(), Fail>
    requires name { N.engine ≡ name_of placing opening }
    requires workers { (1 ≤ workers) × (workers ≤ MOST_WORKERS) }
{
    let (engine, sessions) = opening.start::<N>();
    let tokens = all_calling::<N>(
        rt,
        alloc,
        engine.library(),
        sessions,
        "bump",
        1,
        u32::from(times),
    )?;
    match run(rt, rt, alloc, &engine, tokens, workers, &OpenGate) {
        Ok(tokens) => are_counted(rt, alloc, engine, tokens, clients, times),
        Err(_) => fail(rt, "the run has a fault"),
    }
}

#[test]
fn eight_workers_lose_no_bump(rt: HostRuntime) -> Result<(), Fail> {
    let opening = opening(rt.alloc(), 1, 4_000, 4)?;
    counts::<Brand, HostRuntime>(&rt, rt.alloc(), opening, 4, 1_000, 8)
}

#[test]
fn many_workers_hand_one_token_on(rt: HostRuntime) -> Result<(), Fail> {
    let opening = opening(rt.alloc(), 1, 100, 1)?;
    counts::<Brand, HostRuntime>(&rt, rt.alloc(), opening, 1, 100, 64)
}

// The first call is held back until the second has its reply, so two threads are at work.
fn meet<N: Name + Send + Sync, R: Wait + Threads + Abort + Sync>(
    rt: &R,
    alloc: Global,
    opening: Opening<Placing>,
) -> Result<(), Fail>
    requires { N.engine ≡ name_of placing opening }
{
    let (engine, sessions) = opening.start::<N>();
    let tokens = all_calling::<N>(rt, alloc, engine.library(), sessions, "bump", 2, 1)?;
    let gate = Meeting::new();
    match run(rt, rt, alloc, &engine, tokens, 2, &gate) {
        Ok(tokens) => are_home(rt, tokens.as_slice(), 2, 1),
        Err(_) => fail(rt, "the run has a fault"),
    }
    equal(rt, gate.has_begun.load(Ordering::SeqCst), 1);
    holds(rt, gate.turns.load(Ordering::SeqCst) < 100_000_000);
    closes(rt, engine, Vec::new(alloc), &[1, 1], &[1, 1]);
    Ok(())
}

#[test]
fn two_workers_execute_at_once(rt: HostRuntime) -> Result<(), Fail> {
    let opening = opening(rt.alloc(), 2, 2, 2)?;
    meet::<Brand, HostRuntime>(&rt, rt.alloc(), opening)
}

// An engine for one call, and a script of two.
fn is_spent<N: Name + Send + Sync, R: Wait + Threads + Abort + Sync>(
    rt: &R,
    alloc: Global,
    opening: Opening<Placing>,
) -> Result<(), Fail>
    requires { N.engine ≡ name_of placing opening }
{
    let (engine, sessions) = opening.start::<N>();
    let tokens = all_calling::<N>(rt, alloc, engine.library(), sessions, "bump", 1, 2)?;
    match run(rt, rt, alloc, &engine, tokens, 2, &OpenGate) {
        Ok(_) => fail(rt, "the run is well"),
        Err(RunError { fault, tokens }) => {
            equal(rt, fault, RunFault::Spent);
            are_home(rt, tokens.as_slice(), 1, 1);
        }
    }
    closes(rt, engine, Vec::new(alloc), &[1], &[1]);
    Ok(())
}

#[test]
fn spent_hands_the_token_back(rt: HostRuntime) -> Result<(), Fail> {
    let opening = opening(rt.alloc(), 1, 1, 1)?;
    is_spent::<Brand, HostRuntime>(&rt, rt.alloc(), opening)
}

// Two clients of two calls each: as many enter as the limit allows, and the run is spent only if that leaves some.
fn enters_up_to_the_limit<N: Name + Send + Sync, R: Wait + Threads + Abort + Sync>(
    rt: &R,
    alloc: Global,
    opening: Opening<Placing>,
    entered: usize,
) -> Result<(), Fail>
    requires { N.engine ≡ name_of placing opening }
{
    let (engine, sessions) = opening.start::<N>();
    let tokens = all_calling::<N>(rt, alloc, engine.library(), sessions, "bump", 2, 2)?;
    let fault = match run(rt, rt, alloc, &engine, tokens, 2, &OpenGate) {
        Ok(_) => None,
        Err(RunError { fault, .. }) => Some(fault),
    };
    let expected = if entered < 4 {
        Some(RunFault::Spent)
    } else {
        None
    };
    equal(rt, fault, expected);
    let closed = closed_of(rt, engine, Vec::new(alloc));
    equal(rt, closed.journal.len(), entered);
    Ok(())
}

#[test]
fn run_is_spent_only_at_the_limit(rt: HostRuntime) -> Result<(), Fail> {
    for (limit, entered) in [(1, 1), (3, 3), (4, 4), (5, 4), (65_536, 4)] {
        let opening = opening(rt.alloc(), 2, limit, 2)?;
        enters_up_to_the_limit::<Brand, HostRuntime>(&rt, rt.alloc(), opening, entered)?;
    }
    Ok(())
}

// Without tokens no thread is started: a worker would bring to its reply the call that waits and may run.
fn has_none<N: Name + Send + Sync, R: Wait + Threads + Abort + Sync>(
    rt: &R,
    alloc: Global,
    opening: Opening<Placing>,
)
    requires { N.engine ≡ name_of placing opening }
{
    let (engine, mut sessions) = opening.start::<N>();
    let mut session = last_of::<N>(rt, &mut sessions);
    let zero = begins(rt, &engine, &mut session, 0);
    waits(rt, &engine, &mut session, 0, Ticket(1));
    ends(rt, &engine, zero);
    let tokens = Vec::new(alloc);
    match run(rt, rt, alloc, &engine, tokens, 8, &OpenGate) {
        Ok(tokens) => holds(rt, tokens.is_empty()),
        Err(_) => fail(rt, "the run has a fault"),
    }
    match engine.next_front(rt) {
        Some(pass) => ends(rt, &engine, pass),
        None => fail(rt, "a worker was there"),
    }
    closes(rt, engine, Vec::new(alloc), &[2], &[1, 2]);
}

#[test]
fn no_tokens_is_well(rt: HostRuntime) -> Result<(), Fail> {
    let opening = opening(rt.alloc(), 1, 2, 1)?;
    has_none::<Brand, HostRuntime>(&rt, rt.alloc(), opening);
    Ok(())
}

// Begins the bump of a record, which is free.
pub(crate) fn begins<N: Name, R: Wait + Abort>(
    rt: &R,
    engine: &Engine<N, Placing>,
    session: &mut Session,
    record: u64,
) -> Pass
    requires { session.old.table ≡ N.engine.table }
    ensures pass { IsFresh N.engine result }
    ensures session { session.new.table ≡ session.old.table }
{
    let call = bump_of(rt, engine.library(), record);
    match engine.begin(rt, session, &call) {
        Begun::Free(pass) => pass,
        Begun::Blocked(_) => fail(rt, "the call is blocked"),
        Begun::Refused(_) => fail(rt, "the call is refused"),
    }
}

// Begins the bump of a record, which is blocked, under this ticket.
pub(crate) fn waits<N: Name, R: Wait + Abort>(
    rt: &R,
    engine: &Engine<N, Placing>,
    session: &mut Session,
    record: u64,
    ticket: Ticket,
)
    requires { session.old.table ≡ N.engine.table }
    ensures { session.new.table ≡ session.old.table }
{
    let call = bump_of(rt, engine.library(), record);
    match engine.begin(rt, session, &call) {
        Begun::Free(pass) => {
            ends(rt, engine, pass);
            fail(rt, "the call is free")
        }
        Begun::Blocked(blocked) => equal(rt, blocked, ticket),
        Begun::Refused(_) => fail(rt, "the call is refused"),
    }
}

// Brings the call of a pass to its end.
pub(crate) fn ends<N: Name>(wait: &impl Wait, engine: &Engine<N, Placing>, pass: Pass)
    requires { IsFresh N.engine pass }
{
    let released = engine.release(engine.execute(pass));
    let _ = engine.finish(wait, released);
}

// The last session of a list.
pub(crate) fn last_of<N: Name>(rt: &impl Abort, sessions: &mut Vec<Session>) -> Session
    requires { All (λ s. s.table ≡ N.engine.table) sessions.old.items }
    ensures session { result.table ≡ N.engine.table }
    ensures others { All (λ s. s.table ≡ N.engine.table) sessions.new.items }
{
    match sessions.pop() {
        Some(session) => session,
        None => fail(rt, "there is no session"),
    }
}

// The front keeps running, and behind it waits a call that only the scan finds: the run brings that one to its reply,
// which is the second bump's, and leaves the pass that is kept.
fn leaves_a_kept_pass<N: Name + Send + Sync, R: Wait + Threads + Abort + Sync>(
    rt: &R,
    alloc: Global,
    opening: Opening<Placing>,
) -> Result<(), Fail>
    requires { N.engine ≡ name_of placing opening }
{
    let (engine, mut sessions) = opening.start::<N>();
    let idle = last_of::<N>(rt, &mut sessions);
    let mut second = last_of::<N>(rt, &mut sessions);
    let mut first = last_of::<N>(rt, &mut sessions);
    let kept = begins(rt, &engine, &mut first, 0);
    let other = begins(rt, &engine, &mut second, 1);
    waits(rt, &engine, &mut second, 1, Ticket(2));
    ends(rt, &engine, other);
    let ran = runs_through(rt, alloc, &engine, idle, 0, (1, 2));
    let reply = engine.reply(rt, &mut second, Ticket(2));
    ends(rt, &engine, kept);
    equal(rt, output_of(&reply), Some(2));
    closes(rt, engine, Vec::new(alloc), &[1, 2], &[1, 1, 2]);
    ran
}

// Checks that one worker, with a token of `times` bumps of record 1, executes `executed.0` calls, whose tickets have
// the sum `executed.1`.
pub(crate) fn runs_through<N: Name + Send + Sync, R: Wait + Threads + Abort + Sync>(
    rt: &R,
    alloc: Global,
    engine: &Engine<N, Placing>,
    session: Session,
    times: u32,
    executed: (u64, u64),
) -> Result<(), Fail>
    requires { session.table ≡ N.engine.table }
{
    let gate = Tally::new();
    let mut tokens = Vec::new(alloc);
    let token = calling::<N>(rt, alloc, engine.library(), session, "bump", 1, times)?;
    tokens.push(token)?;
    match run(rt, rt, alloc, engine, tokens, 1, &gate) {
        Ok(tokens) => equal(rt, tokens.len(), 1),
        Err(_) => fail(rt, "the run has a fault"),
    }
    let before = gate.before.load(Ordering::SeqCst);
    let tickets = gate.tickets.load(Ordering::SeqCst);
    let after = gate.after.load(Ordering::SeqCst);
    let told = gate.told.load(Ordering::SeqCst);
    equal(rt, (before, tickets), executed);
    equal(rt, (after, told), executed);
    Ok(())
}

#[test]
fn run_leaves_a_pass_that_is_kept(rt: HostRuntime) -> Result<(), Fail> {
    let opening = opening(rt.alloc(), 2, 3, 3)?;
    leaves_a_kept_pass::<Brand, HostRuntime>(&rt, rt.alloc(), opening)
}
