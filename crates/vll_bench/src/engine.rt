//! What a call costs in the engine on one thread, made by its parts and by the engine's own call.
ghost use Rattle.std.specs.Prelude.{◌≡◌, IfOk};
ghost use Rattle.vll_check.specs.Calls.{Fits};
ghost use Rattle.vll_queue.specs.Shown.{library_of, name_of};
ghost use Rattle.vll_sca.specs.Placing.{placing};

use crate::fault::Fault;
use crate::setup;
use std::marker::Brand;
use std::sync::Wait;
use std::time::{CpuClock, Duration};
use vll_check::{CallFault, Library};
use vll_core::MOST_CALLS;
use vll_engine::{Begun, Client, Engine, EngineSpent, Name, Opening};
use vll_proc::Call;
use vll_sca::Placing;

// How many calls are made, one after the other.
const CALLS: u32 = MOST_CALLS;

// How often they are made. The fastest counts, since other work disturbs the others.
const REPEATS: u32 = 5;

/// Prints how many nanoseconds of processor time a bump takes from `begin` to `finish`, and how many with the engine's
/// own call, if one thread makes one call after the other.
pub(crate) fn measure_engine<R: Wait + CpuClock + Print + AllocGlobal>(
    rt: &R,
) -> Result<(), Fault> {
    let by_hand = fastest(rt, false)?;
    println!(rt;
        "begin, execute, release and finish of a bump, {CALLS} calls: {by_hand} ns a call"
    )?;
    let by_call = fastest(rt, true)?;
    println!(rt; "call of a bump, {CALLS} calls: {by_call} ns a call")?;
    Ok(())
}

// Returns the nanoseconds per call in the fastest round, with the engine's own call or by hand.
fn fastest<R: Wait + CpuClock + AllocGlobal>(rt: &R, is_call: bool) -> Result<u128, Fault> {
    let mut fastest = u128::MAX;
    for _ in 0..REPEATS {
        let opening = setup::opening(rt.alloc(), 1, CALLS)?;
        fastest = fastest.min(time_of::<Brand, R>(rt, opening, is_call)?.as_nanos());
    }
    Ok(fastest / u128::from(CALLS))
}

// Returns the time that the calls take in an engine of this name.
fn time_of<N: Name, R: Wait + CpuClock>(
    rt: &R,
    opening: Opening<Placing>,
    is_call: bool,
) -> Result<Duration, Fault>
    requires { N.engine ≡ name_of placing opening }
{
    let (engine, mut clients) = opening.start_clients::<N>();
    let Some(mut client) = clients.pop() else {
        return Err(Fault::Refused);
    };
    let call = made(engine.library())?;
    let start = rt.thread_cpu_time()?;
    for _ in 0..CALLS {
        if is_call {
            whole(rt, &engine, &mut client, &call)?;
        } else {
            cycle(rt, &engine, &mut client, &call)?;
        }
    }
    Ok(rt.thread_cpu_time()?.saturating_sub(start))
}

// Makes a call, from begin to finish.
fn cycle<N: Name>(
    rt: &impl Wait,
    engine: &Engine<N, Placing>,
    client: &mut Client<N>,
    call: &Call,
) -> Result<(), Fault>
    requires { Fits (library_of N.engine) call.now }
{
    match client.begin(rt, engine, call) {
        Begun::Free(pass) => {
            let done = engine.execute(pass);
            engine.finish(rt, engine.release(done));
            Ok(())
        }
        Begun::Blocked(_) | Begun::Refused(_) => Err(Fault::Refused),
    }
}

// Makes a call with the engine's own call.
fn whole<N: Name>(
    rt: &impl Wait,
    engine: &Engine<N, Placing>,
    client: &mut Client<N>,
    call: &Call,
) -> Result<(), Fault>
    requires { Fits (library_of N.engine) call.now }
{
    match client.make(rt, engine, call) {
        Ok(_) => Ok(()),
        Err(EngineSpent) => Err(Fault::Refused),
    }
}

// The bump of record 0.
fn made(library: &Library) -> Result<Call, CallFault>
    ensures { IfOk result (Fits library.now) }
{
    library.call("bump", &[0])
}
