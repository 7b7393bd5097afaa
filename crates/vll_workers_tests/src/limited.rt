//! Tests of runs with a bound on the threads that may be started, and of a run without one.
ghost use Rattle.std.specs.Prelude.{◌≡◌};
ghost use Rattle.vll_queue.specs.Shown.{name_of};
ghost use Rattle.vll_sca.specs.Placing.{placing};

use crate::asserts::{equal, fail, holds};
use crate::gates::{Crowd, Meeting};
use crate::opening::opening;
use crate::tokens::{all_calling, are_counted, are_home, closes};
use std::alloc::Global;
use std::marker::Brand;
use std::process::Abort;
use std::sync::Wait;
use std::sync::atomic::Ordering;
use std::test::*;
use std::thread::Threads;
use vll_engine::{Name, Opening};
use vll_sca::Placing;
use vll_workers::{Gate, OpenGate, RunError, RunFault, run, run_limited};

// Four clients of 1,000 calls each on one record, and eight workers, of which one may be started.
fn counts_with_one_start<N: Name + Send + Sync, R: Wait + Threads + Abort + Sync>(
    rt: &R,
    alloc: Global,
    opening: Opening<Placing>,
) -> Result<(), Fail>
    requires { N.engine ≡ name_of placing opening }
{
    let (engine, sessions) = opening.start::<N>();
    let tokens = all_calling::<N>(rt, alloc, engine.library(), sessions, "bump", 1, 1_000)?;
    match run_limited(rt, rt, alloc, &engine, tokens, 8, 1, &OpenGate) {
        Ok(tokens) => are_counted(rt, alloc, engine, tokens, 4, 1_000),
        Err(_) => fail(rt, "the run has a fault"),
    }
}

#[test]
fn one_start_of_eight_loses_no_bump(rt: HostRuntime) -> Result<(), Fail> {
    let opening = opening(rt.alloc(), 1, 4_000, 4)?;
    counts_with_one_start::<Brand, HostRuntime>(&rt, rt.alloc(), opening)
}

// As `counts_with_one_start`, without a start: the tokens are as they were passed, from the last client to the first,
// and no call has entered.
fn is_refused<N: Name + Send + Sync, R: Wait + Threads + Abort + Sync>(
    rt: &R,
    alloc: Global,
    opening: Opening<Placing>,
) -> Result<(), Fail>
    requires { N.engine ≡ name_of placing opening }
{
    let (engine, sessions) = opening.start::<N>();
    let tokens = all_calling::<N>(rt, alloc, engine.library(), sessions, "bump", 1, 1_000)?;
    match run_limited(rt, rt, alloc, &engine, tokens, 8, 0, &OpenGate) {
        Ok(_) => fail(rt, "the run is well"),
        Err(RunError { fault, mut tokens }) => {
            equal(rt, fault, RunFault::Spawn);
            for token in tokens.as_slice() {
                equal(rt, token.script().len(), 1_000);
            }
            tokens.reverse();
            are_home(rt, tokens.as_slice(), 4, 0);
        }
    }
    closes(rt, engine, Vec::new(alloc), &[0], &[]);
    Ok(())
}

#[test]
fn run_without_a_start_hands_the_tokens_back(rt: HostRuntime) -> Result<(), Fail> {
    let opening = opening(rt.alloc(), 1, 4_000, 4)?;
    is_refused::<Brand, HostRuntime>(&rt, rt.alloc(), opening)
}

// Without tokens there is nothing to do, and no start is needed.
fn has_none<N: Name + Send + Sync, R: Wait + Threads + Abort + Sync>(
    rt: &R,
    alloc: Global,
    opening: Opening<Placing>,
)
    requires { N.engine ≡ name_of placing opening }
{
    let (engine, _) = opening.start::<N>();
    let tokens = Vec::new(alloc);
    match run_limited(rt, rt, alloc, &engine, tokens, 8, 0, &OpenGate) {
        Ok(tokens) => holds(rt, tokens.is_empty()),
        Err(_) => fail(rt, "the run has a fault"),
    }
    closes(rt, engine, Vec::new(alloc), &[0], &[]);
}

#[test]
fn no_tokens_without_a_start_is_well(rt: HostRuntime) -> Result<(), Fail> {
    let opening = opening(rt.alloc(), 1, 1, 0)?;
    has_none::<Brand, HostRuntime>(&rt, rt.alloc(), opening);
    Ok(())
}

// Makes a call for each client, on a record of its own, under a gate, with one start.
fn runs_under<N: Name + Send + Sync, R: Wait + Threads + Abort + Sync, G: Gate + Sync>(
    rt: &R,
    alloc: Global,
    opening: Opening<Placing>,
    clients: u16,
    gate: &G,
) -> Result<(), Fail>
    requires { N.engine ≡ name_of placing opening }
{
    let (engine, sessions) = opening.start::<N>();
    let tokens = all_calling::<N>(rt, alloc, engine.library(), sessions, "bump", 8, 1)?;
    match run_limited(rt, rt, alloc, &engine, tokens, 8, 1, gate) {
        Ok(tokens) => are_home(rt, tokens.as_slice(), usize::from(clients), 1),
        Err(_) => fail(rt, "the run has a fault"),
    }
    Ok(())
}

// The first call is held back until the second has its reply.
#[test]
fn calling_thread_works_beside_the_one_that_is_started(rt: HostRuntime) -> Result<(), Fail> {
    let opening = opening(rt.alloc(), 8, 2, 2)?;
    let gate = Meeting::new();
    runs_under::<Brand, HostRuntime, Meeting>(&rt, rt.alloc(), opening, 2, &gate)?;
    equal(&rt, gate.has_begun.load(Ordering::SeqCst), 1);
    holds(&rt, gate.turns.load(Ordering::SeqCst) < 100_000_000);
    Ok(())
}

// Eight workers, all of which are started, have three calls under way at once.
fn runs_with_eight<N: Name + Send + Sync, R: Wait + Threads + Abort + Sync, G: Gate + Sync>(
    rt: &R,
    alloc: Global,
    opening: Opening<Placing>,
    gate: &G,
) -> Result<(), Fail>
    requires { N.engine ≡ name_of placing opening }
{
    let (engine, sessions) = opening.start::<N>();
    let tokens = all_calling::<N>(rt, alloc, engine.library(), sessions, "bump", 8, 1)?;
    match run(rt, rt, alloc, &engine, tokens, 8, gate) {
        Ok(tokens) => are_home(rt, tokens.as_slice(), 8, 1),
        Err(_) => fail(rt, "the run has a fault"),
    }
    Ok(())
}

#[test]
fn eight_workers_have_three_calls_at_once(rt: HostRuntime) -> Result<(), Fail> {
    let opening = opening(rt.alloc(), 8, 8, 8)?;
    let gate = Crowd::new();
    runs_with_eight::<Brand, HostRuntime, Crowd>(&rt, rt.alloc(), opening, &gate)?;
    equal(&rt, gate.had_three.load(Ordering::SeqCst), 1);
    Ok(())
}

#[test]
fn one_start_never_has_three_calls_at_once(rt: HostRuntime) -> Result<(), Fail> {
    let opening = opening(rt.alloc(), 8, 8, 8)?;
    let gate = Crowd::new();
    runs_under::<Brand, HostRuntime, Crowd>(&rt, rt.alloc(), opening, 8, &gate)?;
    equal(&rt, gate.had_three.load(Ordering::SeqCst), 0);
    Ok(())
}
