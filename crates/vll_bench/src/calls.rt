//! The calls of scripts in the engine, without workers: each thread makes the calls of one client after another.
ghost use Rattle.std.specs.Prelude.{◌≡◌, ◌<◌, All};
ghost use Rattle.vll_check.specs.Calls.{Fits};
ghost use Rattle.vll_queue.specs.Shown.{library_of, name_of};
ghost use Rattle.vll_sca.specs.Placing.{placing};

use crate::caller::{Caller, callers};
use crate::fault::Fault;
use crate::runs::count_closed;
use crate::threads::in_threads;
use crate::timed::Timed;
use std::alloc::Global;
use std::sync::{Mutex, Wait};
use std::thread::Threads;
use std::time::{Clock, Duration, Instant};
use vll_engine::{Engine, EngineSpent, Name, Opening};
use vll_proc::Call;
use vll_sca::Placing;

/// Times the calls made by `threads` threads in an engine of this name, with `Client::make`.
pub(crate) fn time_calls<N: Name + Send + Sync, R: Threads + Wait + Clock + Sync>(
    rt: &R,
    alloc: Global,
    opening: Opening<Placing>,
    scripts: Vec<Vec<Call>>,
    threads: usize,
) -> Result<Timed, Fault>
    requires some { 0 < threads }
    requires named { N.engine ≡ name_of placing opening }
    requires fits { All (λ script. All (Fits (library_of N.engine)) script.items) scripts.items }
{
    let (engine, clients) = opening.start_clients::<N>();
    let callers = Mutex::new(callers(alloc, clients, scripts)?);
    let time = time_callers(rt, alloc, &engine, &callers, threads)?;
    let count = count_closed(alloc, engine)?;
    Ok(Timed { time, count })
}

// The time in which this many threads make the calls of all callers.
fn time_callers<N: Name + Send + Sync, R: Threads + Wait + Clock + Sync>(
    rt: &R,
    alloc: Global,
    engine: &Engine<N, Placing>,
    callers: &Mutex<Vec<Caller<N>>>,
    threads: usize,
) -> Result<Duration, Fault>
    requires { 0 < threads }
{
    let start = Instant::now(rt)?;
    let shares = in_threads(rt, alloc, threads, &|| { make_share(rt, engine, callers) })?;
    let time = start.elapsed(rt)?;
    for made in shares.iter() {
        (*made)?;
    }
    Ok(time)
}

// Makes the calls of one client after another, until none is left.
fn make_share<N: Name>(
    rt: &impl Wait,
    engine: &Engine<N, Placing>,
    callers: &Mutex<Vec<Caller<N>>>,
) -> Result<(), Fault> {
    for _ in rt.forever() {
        let Some(caller) = callers.lock(rt).pop() else {
            return Ok(());
        };
        make_script(rt, engine, caller)?;
    }
    Ok(())
}

// Makes the calls of a client, one after the other.
fn make_script<N: Name>(
    rt: &impl Wait,
    engine: &Engine<N, Placing>,
    caller: Caller<N>,
) -> Result<(), Fault> {
    let Caller { mut client, script } = caller;
    for call in &script {
        if let Err(EngineSpent) = client.make(rt, engine, call) {
            return Err(Fault::Refused);
        }
    }
    Ok(())
}
