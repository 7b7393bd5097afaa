//! Tests of what the workers of a run report as they leave.
ghost use Rattle.std.specs.Prelude.{◌≡◌, ◌≤◌, nat_eq};
ghost use Rattle.std.specs.List.{IsDistinct};
ghost use Rattle.vll_queue.specs.Shown.{name_of};
ghost use Rattle.vll_sca.specs.Placing.{placing};
ghost use Rattle.vll_tokens.specs.Tokens.{AreFit, clients_of};

use crate::asserts::{equal, holds};
use crate::opening::opening_of;
use crate::runs::{begins, ends, waits};
use crate::tokens::{all_calling, closed_of, last_and_others};
use std::alloc::Global;
use std::marker::Brand;
use std::process::Abort;
use std::sync::{Mutex, Wait};
use std::test::*;
use std::thread::Threads;
use vll_core::{Config, Ticket};
use vll_engine::{Engine, Name, Opening};
use vll_sca::Placing;
use vll_workers::{Gate, MOST_WORKERS, Tally, Token, run};

// How many workers have left, and what they did.
#[derive(Clone, Copy)]
struct Left {
    workers: u32,
    tally: Tally,
}

// A gate that holds nothing back, and adds up what workers report as they leave.
#[derive(Drop)]
struct Adding<'a, R: Wait> {
    rt: &'a R,
    left: Mutex<Left>,
}

impl<R: Wait> Gate for Adding<'_, R> {
    fn before(&self, _ticket: Ticket) {}

    fn after(&self, _ticket: Ticket) {}

    fn left(&self, tally: Tally) {
        let mut left = self.left.lock(self.rt);
        *left = Left {
            workers: left.workers.saturating_add(1),
            tally: left.tally.with(tally),
        };
    }

    fn may_wait(&self) -> bool {
        false
    }
}

// Returns what `workers` workers and the calling thread did in a run, which ends well.
fn tally_of<N: Name + Send + Sync, R: Wait + Threads + Abort + Sync>(
    rt: &R,
    alloc: Global,
    engine: &Engine<N, Placing>,
    tokens: Vec<Token>,
    workers: u32,
) -> Tally
    requires workers { (1 ≤ workers) × (workers ≤ MOST_WORKERS) }
    requires fit { AreFit N.engine tokens.items }
    requires distinct { IsDistinct nat_eq (clients_of tokens.items) }
{
    let gate = Adding {
        rt,
        left: Mutex::new(Left {
            workers: 0,
            tally: Tally::none(),
        }),
    };
    holds(
        rt,
        run(rt, rt, alloc, engine, tokens, workers, &gate).is_ok(),
    );
    let Adding { rt: _, left } = gate;
    let left = left.into_inner();
    equal(rt, left.workers, workers + 1);
    left.tally
}

// With two tokens for each of four workers, these take them before a hold, and begin eight calls under their first one.
const CLIENTS: u32 = 8;

// How many calls each client makes.
const CALLS: u32 = 50;

// The workers' tally of the clients' calls for one record: bumps, or reads, which are not in conflict.
fn tally_of_calls<N: Name + Send + Sync, R: Wait + Threads + Abort + Sync>(
    rt: &R,
    alloc: Global,
    opening: Opening<Placing>,
    are_bumps: bool,
    workers: u32,
) -> Result<Tally, Fail>
    requires named { N.engine ≡ name_of placing opening }
    requires workers { (1 ≤ workers) × (workers ≤ MOST_WORKERS) }
{
    let name = if are_bumps { "bump" } else { "read" };
    let (engine, sessions) = opening.start::<N>();
    let tokens = all_calling::<N>(rt, alloc, engine.library(), sessions, name, 1, CALLS)?;
    let tally = tally_of(rt, alloc, &engine, tokens, workers);
    let closed = closed_of(rt, engine, Vec::new(alloc));
    equal(rt, closed.journal.len(), (CLIENTS * CALLS) as usize);
    Ok(tally)
}

const CONFIG: Config = Config {
    cap: 8,
    limit: CLIENTS * CALLS,
    bits: 64,
};

// As `tally_of_calls`, in an engine that is opened for it.
fn tally_by<R: Wait + Threads + Abort + Sync>(
    rt: &R,
    alloc: Global,
    are_bumps: bool,
    workers: u32,
) -> Result<Tally, Fail>
    requires { (1 ≤ workers) × (workers ≤ MOST_WORKERS) }
{
    let opening = opening_of(alloc, 1, CONFIG, CLIENTS)?;
    tally_of_calls::<Brand, R>(rt, alloc, opening, are_bumps, workers)
}

#[test]
fn each_call_that_waits_is_started_by_the_front_or_by_the_scan(
    rt: HostRuntime,
) -> Result<(), Fail> {
    for workers in [1, 2, 4] {
        let tally = tally_by(&rt, rt.alloc(), true, workers)?;
        holds(&rt, tally.blocked > 0);
        equal(
            &rt,
            Some(tally.blocked),
            tally.front.checked_add(tally.scan),
        );
        holds(&rt, tally.holds > 0);
    }
    Ok(())
}

#[test]
fn calls_without_a_conflict_never_wait(rt: HostRuntime) -> Result<(), Fail> {
    for workers in [1, 2, 4] {
        let tally = tally_by(&rt, rt.alloc(), false, workers)?;
        equal(&rt, (tally.blocked, tally.busy), (0, 0));
        equal(&rt, (tally.front, tally.scan), (0, 0));
        holds(&rt, tally.holds > 0);
    }
    Ok(())
}

// Ticket 0 keeps running, and ticket 2 waits, as the one call that may wait, and may run. A worker's call for another
// record is refused once, and begins after the scan has started ticket 2.
fn is_refused_once<N: Name + Send + Sync, R: Wait + Threads + Abort + Sync>(
    rt: &R,
    alloc: Global,
    opening: Opening<Placing>,
) -> Result<(), Fail>
    requires { N.engine ≡ name_of placing opening }
{
    let (engine, sessions) = opening.start::<N>();
    let (mut session, sessions) = last_and_others::<N>(rt, sessions);
    let tokens = all_calling::<N>(rt, alloc, engine.library(), sessions, "bump", 1, 1)?;
    let kept = begins(rt, &engine, &mut session, 1);
    let other = begins(rt, &engine, &mut session, 2);
    waits(rt, &engine, &mut session, 2, Ticket(2));
    ends(rt, &engine, other);
    let tally = tally_of(rt, alloc, &engine, tokens, 1);
    ends(rt, &engine, kept);
    equal(rt, (tally.blocked, tally.busy), (0, 1));
    equal(rt, (tally.front, tally.scan), (0, 1));
    Ok(())
}

#[test]
fn refused_call_counts_as_busy(rt: HostRuntime) -> Result<(), Fail> {
    let config = Config {
        cap: 1,
        limit: 4,
        bits: 64,
    };
    let opening = opening_of(rt.alloc(), 3, config, 2)?;
    is_refused_once::<Brand, HostRuntime>(&rt, rt.alloc(), opening)
}
