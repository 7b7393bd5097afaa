//! Tests of runs in which many calls wait, and of a run in which a call is put off.
ghost use Rattle.std.specs.Prelude.{◌≡◌};
ghost use Rattle.vll_queue.specs.Pass.{IsFresh};
ghost use Rattle.vll_queue.specs.Shown.{name_of};
ghost use Rattle.vll_sca.specs.Placing.{placing};

use crate::asserts::{equal, fail, holds_at};
use crate::opening::opening_of;
use crate::runs::{begins, ends, last_of, runs_through, waits};
use crate::tokens::{all_calling, closed_of, last_and_others};
use std::alloc::Global;
use std::marker::Brand;
use std::process::Abort;
use std::sync::Wait;
use std::test::*;
use std::thread::Threads;
use vll_core::{Config, Ticket};
use vll_engine::{Engine, Name, Opening, Pass, Session};
use vll_sca::Placing;
use vll_workers::{OpenGate, run};

// Begins `many` bumps of record 0, which wait, and after them one of record 1.
fn wait_behind<N: Name, R: Wait + Abort>(
    rt: &R,
    engine: &Engine<N, Placing>,
    session: Session,
    many: u16,
) -> Session
    requires { session.table ≡ N.engine.table }
    ensures { result.table ≡ N.engine.table }
{
    let many = u32::from(many);
    let mut session = session;
    for ticket in 2..many + 2 {
        waits(rt, engine, &mut session, 0, Ticket(ticket));
    }
    waits(rt, engine, &mut session, 1, Ticket(many + 2));
    session
}

// Runs the calls that wait one after the other, each at the front.
fn ends_all<N: Name, R: Wait + Abort>(rt: &R, engine: &Engine<N, Placing>, many: u16) {
    for _ in 0..many {
        match engine.next_front(rt) {
            Some(pass) => ends(rt, engine, pass),
            None => fail(rt, "the front does not wait"),
        }
    }
}

// Ticket 0 keeps running, and `many` calls wait for its record. After them a call waits for ticket 1. A run scans in
// vain. Then ticket 1 is gone. A second run, with a token of `times` bumps of record 1, has to find that call.
fn finds_what_may_run<N: Name + Send + Sync, R: Wait + Threads + Abort + Sync>(
    rt: &R,
    alloc: Global,
    opening: Opening<Placing>,
    many: u16,
    times: u8,
) -> Result<(), Fail>
    requires { N.engine ≡ name_of placing opening }
{
    let (engine, mut sessions) = opening.start::<N>();
    let idle = last_of::<N>(rt, &mut sessions);
    let late = last_of::<N>(rt, &mut sessions);
    let mut first = last_of::<N>(rt, &mut sessions);
    let kept = begins(rt, &engine, &mut first, 0);
    let other = begins(rt, &engine, &mut first, 1);
    let _first = wait_behind(rt, &engine, first, many);
    let ran = runs_twice(rt, alloc, &engine, (idle, late), other, (many, times));
    ends(rt, &engine, kept);
    ends_all(rt, &engine, many);
    ran
}

// A run without a call executes none. Then ticket 1 ends, and a run of `times` bumps of record 1 executes these and the
// last call that waits.
fn runs_twice<N: Name + Send + Sync, R: Wait + Threads + Abort + Sync>(
    rt: &R,
    alloc: Global,
    engine: &Engine<N, Placing>,
    sessions: (Session, Session),
    other: Pass,
    counts: (u16, u8),
) -> Result<(), Fail>
    requires sessions { (sessions.0.table ≡ N.engine.table) × (sessions.1.table ≡ N.engine.table) }
    requires fresh { IsFresh N.engine other }
{
    let (idle, late) = sessions;
    let (many, times) = counts;
    let in_vain = runs_through(rt, alloc, engine, idle, 0, (0, 0));
    ends(rt, engine, other);
    in_vain?;
    let last = u64::from(many) + 2;
    let mut tickets = last;
    for time in 1..=u64::from(times) {
        tickets = tickets.saturating_add(last.saturating_add(time));
    }
    let executed = (1 + u64::from(times), tickets);
    runs_through(rt, alloc, engine, late, u32::from(times), executed)
}

#[test]
fn run_leaves_no_call_that_may_run(rt: HostRuntime) -> Result<(), Fail> {
    for many in [1, 40, 72, 2_000] {
        let config = Config {
            cap: 2_001,
            limit: 2_003,
            bits: 64,
        };
        let opening = opening_of(rt.alloc(), 2, config, 3)?;
        finds_what_may_run::<Brand, HostRuntime>(&rt, rt.alloc(), opening, many, 0)?;
    }
    Ok(())
}

#[test]
fn run_whose_queue_is_full_finds_what_may_run(rt: HostRuntime) -> Result<(), Fail> {
    for many in [40, 72, 2_000] {
        let config = Config {
            cap: u32::from(many) + 1,
            limit: 2_100,
            bits: 64,
        };
        let opening = opening_of(rt.alloc(), 2, config, 3)?;
        finds_what_may_run::<Brand, HostRuntime>(&rt, rt.alloc(), opening, many, 1)?;
    }
    Ok(())
}

// How many calls each of two clients makes.
const TIMES: u16 = 1_000;

// A pass of record 1 is kept. One of two clients adds to record 0, and the other to record 1, so that its calls look
// denied: its first call is put off while the other client's calls begin, and begins regardless.
fn begins_what_looks_denied<N: Name + Send + Sync, R: Wait + Threads + Abort + Sync>(
    rt: &R,
    alloc: Global,
    opening: Opening<Placing>,
) -> Result<(), Fail>
    requires { N.engine ≡ name_of placing opening }
{
    let (engine, sessions) = opening.start::<N>();
    let (mut session, sessions) = last_and_others::<N>(rt, sessions);
    let library = engine.library();
    let tokens = all_calling::<N>(rt, alloc, library, sessions, "bump", 2, u32::from(TIMES))?;
    let kept = begins(rt, &engine, &mut session, 1);
    match run(rt, rt, alloc, &engine, tokens, 1, &OpenGate) {
        Ok(tokens) => equal(rt, tokens.len(), 2),
        Err(_) => fail(rt, "the run has a fault"),
    }
    ends(rt, &engine, kept);
    ends_all(rt, &engine, TIMES);
    let closed = closed_of(rt, engine, Vec::new(alloc));
    match closed.journal.iter().position(|line| line.client == 1) {
        Some(ticket) => holds_at(rt, ticket, 64 < ticket && ticket < 800),
        None => fail(rt, "it has not begun"),
    }
    Ok(())
}

#[test]
fn call_that_looks_denied_begins_behind_some_others(rt: HostRuntime) -> Result<(), Fail> {
    let config = Config {
        cap: 2_000,
        limit: 2_001,
        bits: 64,
    };
    let opening = opening_of(rt.alloc(), 2, config, 3)?;
    begins_what_looks_denied::<Brand, HostRuntime>(&rt, rt.alloc(), opening)
}
