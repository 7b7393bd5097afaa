//! Tests of runs whose clients all use one record.
ghost use Rattle.std.specs.Prelude.{◌≡◌, ◌≤◌};
ghost use Rattle.vll_core.specs.declared.config.TheConstants.{MOST_WORKERS};
ghost use Rattle.vll_queue.specs.Shown.{name_of};
ghost use Rattle.vll_sca.specs.Placing.{placing};

use crate::asserts::{equal, fail};
use crate::opening::opening_of;
use crate::tokens::{all_calling, are_home, closed_of, output_of};
use std::alloc::Global;
use std::marker::Brand;
use std::process::Abort;
use std::sync::Wait;
use std::test::*;
use std::thread::Threads;
use vll_core::{Config, Line};
use vll_engine::{Name, Opening};
use vll_sca::Placing;
use vll_workers::{MOST_WORKERS, OpenGate, run};

const CLIENTS: u32 = 64;

// How many bumps each client makes.
const CALLS: u32 = 100;

// All clients bump one record, by so many workers, and it ends at the number of their calls.
fn all_bump_one_record<N: Name + Send + Sync, R: Wait + Threads + Abort + Sync>(
    rt: &R,
    alloc: Global,
    opening: Opening<Placing>,
    workers: u32,
) -> Result<(), Fail>
    requires named { N.engine ≡ name_of placing opening }
    requires workers { (1 ≤ workers) × (workers ≤ MOST_WORKERS) }
{
    let (engine, sessions) = opening.start::<N>();
    let tokens = all_calling::<N>(rt, alloc, engine.library(), sessions, "bump", 1, CALLS)?;
    match run(rt, rt, alloc, &engine, tokens, workers, &OpenGate) {
        Ok(tokens) => are_home(rt, tokens.as_slice(), CLIENTS as usize, CALLS),
        Err(_) => fail(rt, "the run has a fault"),
    }
    let closed = closed_of(rt, engine, Vec::new(alloc));
    equal(rt, closed.records.as_slice(), [6_400].as_slice());
    equal(rt, closed.pairs.as_slice(), [0].as_slice());
    equal(rt, closed.journal.len(), 6_400);
    are_numbered(rt, closed.journal.as_slice());
    Ok(())
}

// Checks that the reply of each ticket is one more than the ticket.
fn are_numbered(rt: &impl Abort, journal: &[Line]) {
    for (ticket, line) in journal.iter().enumerate() {
        equal(rt, output_of(&line.reply), Some(ticket as u64 + 1));
    }
}

// One call may wait, and the analysis has one place for all records.
#[test]
fn most_workers_lose_no_bump_of_as_many_clients(rt: HostRuntime) -> Result<(), Fail> {
    let config = Config {
        cap: 1,
        limit: CLIENTS * CALLS,
        bits: 1,
    };
    let opening = opening_of(rt.alloc(), 1, config, CLIENTS)?;
    all_bump_one_record::<Brand, HostRuntime>(&rt, rt.alloc(), opening, MOST_WORKERS)
}

// Each worker has several tokens in hand, and one may go on alone for a while.
#[test]
fn few_workers_lose_no_bump_of_many_clients(rt: HostRuntime) -> Result<(), Fail> {
    let config = Config {
        cap: 8,
        limit: CLIENTS * CALLS,
        bits: 64,
    };
    let opening = opening_of(rt.alloc(), 1, config, CLIENTS)?;
    all_bump_one_record::<Brand, HostRuntime>(&rt, rt.alloc(), opening, 4)
}
