//! Whole runs of a scenario by worker threads: their times, and the outcomes of their calls.
ghost use Rattle.std.specs.Prelude.{◌≡◌, ◌≤◌, ◌<◌, ◌^◌, All, length};
ghost use Rattle.vll_check.specs.Calls.{Fits};
ghost use Rattle.vll_counters.specs.Shown.{AreNewSessions};
ghost use Rattle.vll_queue.specs.Shown.{library_of, name_of};
ghost use Rattle.vll_sca.specs.Placing.{placing};

use crate::fault::Fault;
use crate::timed::{Count, Timed};
use std::alloc::Global;
use std::sync::Wait;
use std::thread::Threads;
use std::time::{Clock, Duration, Instant};
use vll_engine::{Engine, Name, Opening, Session};
use vll_proc::Call;
use vll_sca::Placing;
use vll_server::{Line, MOST_CLIENTS, tokens_of};
use vll_workers::{Gate, MOST_WORKERS, RunError, run};

/// Times the run in an engine of this name.
pub(crate) fn time_of<N: Name + Send + Sync, R: Threads + Wait + Clock + Sync, G: Gate + Sync>(
    rt: &R,
    alloc: Global,
    opening: Opening<Placing>,
    scripts: Vec<Vec<Call>>,
    workers: u32,
    gate: &G,
) -> Result<Timed, Fault>
    requires workers { (1 ≤ workers) × (workers ≤ MOST_WORKERS) }
    requires named { N.engine ≡ name_of placing opening }
    requires clients { N.engine.clients ≡ length scripts.items }
    requires few { length scripts.items ≤ MOST_CLIENTS }
    requires short { All (λ script. length script.items < 2 ^ 32) scripts.items }
    requires fits { All (λ script. All (Fits (library_of N.engine)) script.items) scripts.items }
{
    let (engine, sessions) = opening.start::<N>();
    let time = time_run(rt, alloc, &engine, sessions, scripts, workers, gate)?;
    let count = count_closed(alloc, engine)?;
    Ok(Timed { time, count })
}

// The time of the run, in an engine with these new sessions.
fn time_run<N: Name + Send + Sync, R: Threads + Wait + Clock + Sync, G: Gate + Sync>(
    rt: &R,
    alloc: Global,
    engine: &Engine<N, Placing>,
    sessions: Vec<Session>,
    scripts: Vec<Vec<Call>>,
    workers: u32,
    gate: &G,
) -> Result<Duration, Fault>
    requires workers { (1 ≤ workers) × (workers ≤ MOST_WORKERS) }
    requires sessions { AreNewSessions N.engine.table (length scripts.items) sessions.items }
    requires few { length scripts.items ≤ MOST_CLIENTS }
    requires short { All (λ script. length script.items < 2 ^ 32) scripts.items }
    requires fits { All (λ script. All (Fits (library_of N.engine)) script.items) scripts.items }
{
    let tokens = tokens_of::<N>(alloc, sessions, scripts)?;
    let start = Instant::now(rt)?;
    let ran = run(rt, rt, alloc, engine, tokens, workers, gate);
    let time = start.elapsed(rt)?;
    match ran {
        Ok(_) => Ok(time),
        Err(RunError { fault, .. }) => Err(Fault::Run(fault)),
    }
}

/// Closes the engine, and counts its calls and their outcomes. It fails if a call has not finished.
pub(crate) fn count_closed<N: Name>(
    alloc: Global,
    engine: Engine<N, Placing>,
) -> Result<Count, Fault> {
    match engine.close(Vec::new(alloc)) {
        Ok(closed) => Ok(count_of(closed.journal.as_slice())),
        Err(_) => Err(Fault::Unfinished),
    }
}

// Counts the calls of a journal and their outcomes.
fn count_of(journal: &[Line]) -> Count {
    let mut count = Count::none();
    for line in journal {
        count = count.with_reply(&line.reply);
    }
    count
}
