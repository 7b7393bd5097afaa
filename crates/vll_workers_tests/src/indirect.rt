//! Tests of runs of calls with an indirect key.
ghost use Rattle.std.specs.Prelude.{◌≡◌};
ghost use Rattle.vll_queue.specs.Shown.{name_of};
ghost use Rattle.vll_sca.specs.Placing.{placing};

use crate::asserts::{equal, fail};
use crate::opening::opening;
use crate::tokens::{all_calling_in_turn, closed_of, output_of};
use std::alloc::Global;
use std::marker::Brand;
use std::process::Abort;
use std::sync::Wait;
use std::test::*;
use std::thread::Threads;
use vll_engine::{Name, Opening};
use vll_sca::Placing;
use vll_workers::{OpenGate, run};

// How many calls each client makes.
const CALLS: u32 = 100;

// One worker makes the calls of the clients: each bumps record 0, and then calls by the record that its value leads to, in
// turn. Every call commits.
fn none_is_moved<N: Name + Send + Sync, R: Wait + Threads + Abort + Sync>(
    rt: &R,
    alloc: Global,
    opening: Opening<Placing>,
    names: (&str, &str),
) -> Result<(), Fail>
    requires { N.engine ≡ name_of placing opening }
{
    let (engine, sessions) = opening.start::<N>();
    let library = engine.library();
    let tokens = all_calling_in_turn::<N>(rt, alloc, library, sessions, names, 1, CALLS)?;
    match run(rt, rt, alloc, &engine, tokens, 1, &OpenGate) {
        Ok(_) => {}
        Err(_) => fail(rt, "the run has a fault"),
    }
    let closed = closed_of(rt, engine, Vec::new(alloc));
    for line in closed.journal.as_slice() {
        equal(rt, output_of(&line.reply).is_some(), true);
    }
    Ok(())
}

// A worker begins several calls under one hold. A call with an indirect key is the first of these: behind a bump of its
// source, whether that is of the same client or of another one, it would be aborted as moved.
#[test]
fn one_worker_aborts_no_call_as_moved(rt: HostRuntime) -> Result<(), Fail> {
    for (clients, names) in [
        (1u16, ("bump", "via")),
        (1, ("via", "bump")),
        (2, ("bump", "via")),
        (4, ("via", "bump")),
    ] {
        let clients = u32::from(clients);
        let opening = opening(rt.alloc(), 3, clients * CALLS, clients)?;
        none_is_moved::<Brand, HostRuntime>(&rt, rt.alloc(), opening, names)?;
    }
    Ok(())
}
