//! Tests of runs whose gate waits for other calls.
ghost use Rattle.std.specs.Prelude.{◌≡◌};
ghost use Rattle.vll_queue.specs.Shown.{name_of};
ghost use Rattle.vll_sca.specs.Placing.{placing};

use crate::asserts::{fail, holds};
use crate::gates::{Pairs, Patient};
use crate::opening::opening;
use crate::tokens::{all_calling, are_home};
use std::alloc::Global;
use std::marker::Brand;
use std::process::Abort;
use std::sync::Wait;
use std::sync::atomic::Ordering;
use std::test::*;
use std::thread::Threads;
use vll_engine::{Name, Opening};
use vll_sca::Placing;
use vll_workers::run;

// How many reads of one record each of four clients makes.
const READS: u32 = 20;

// All others can get their replies while the first call is held back.
const AWAITED: u64 = 79;

fn gets_all_others<N: Name + Send + Sync, R: Wait + Threads + Abort + Sync>(
    rt: &R,
    alloc: Global,
    opening: Opening<Placing>,
) -> Result<(), Fail>
    requires { N.engine ≡ name_of placing opening }
{
    let (engine, sessions) = opening.start::<N>();
    let tokens = all_calling::<N>(rt, alloc, engine.library(), sessions, "read", 1, READS)?;
    let gate = Patient::new(AWAITED);
    match run(rt, rt, alloc, &engine, tokens, 2, &gate) {
        Ok(tokens) => are_home(rt, tokens.as_slice(), 4, READS),
        Err(_) => fail(rt, "the run has a fault"),
    }
    holds(rt, gate.is_met.load(Ordering::SeqCst));
    Ok(())
}

// With two tokens for each worker, which therefore takes them before a hold.
#[test]
fn gate_that_waits_gets_all_other_calls(rt: HostRuntime) -> Result<(), Fail> {
    let opening = opening(rt.alloc(), 1, 80, 4)?;
    gets_all_others::<Brand, HostRuntime>(&rt, rt.alloc(), opening)
}

fn gets_each_next<N: Name + Send + Sync, R: Wait + Threads + Abort + Sync>(
    rt: &R,
    alloc: Global,
    opening: Opening<Placing>,
) -> Result<(), Fail>
    requires { N.engine ≡ name_of placing opening }
{
    let (engine, sessions) = opening.start::<N>();
    let tokens = all_calling::<N>(rt, alloc, engine.library(), sessions, "read", 8, 40)?;
    let gate = Pairs::new(alloc, 160)?;
    match run(rt, rt, alloc, &engine, tokens, 4, &gate) {
        Ok(tokens) => are_home(rt, tokens.as_slice(), 8, 40),
        Err(_) => fail(rt, "the run has a fault"),
    }
    holds(rt, !gate.has_given_up.load(Ordering::SeqCst));
    Ok(())
}

// Each of eight clients reads a record of its own.
#[test]
fn each_even_ticket_gets_the_call_after_it(rt: HostRuntime) -> Result<(), Fail> {
    let opening = opening(rt.alloc(), 8, 320, 8)?;
    gets_each_next::<Brand, HostRuntime>(&rt, rt.alloc(), opening)
}
