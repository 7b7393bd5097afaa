//! What an event of the machine costs, by workload and by the number of calls.
use crate::fault::Fault;
use crate::setup;
use crate::workload::{Workload, enter_all, run_all};
use std::time::CpuClock;
use vll_core::Core;
use vll_sca::Placing;

// How many calls are made. The cost of an event should be the same for all of these numbers.
const COUNTS: [u32; 3] = [1_024, 8_192, 65_536];

// How often each is measured. The fastest counts, since other work disturbs the others.
const REPEATS: u32 = 5;

/// Prints the cost of an event of the machine, as the numbers of calls, of entries in the queue and of records grow.
pub(crate) fn measure_events(rt: &(impl CpuClock + Print + AllocGlobal)) -> Result<(), Fault> {
    for workload in Workload::ALL {
        for calls in COUNTS {
            measure(rt, workload, calls)?;
        }
    }
    Ok(())
}

// Prints how many nanoseconds of processor time an event takes.
fn measure(
    rt: &(impl CpuClock + Print + AllocGlobal),
    workload: Workload,
    calls: u32,
) -> Result<(), Fault> {
    let mut fastest = u128::MAX;
    for _ in 0..REPEATS {
        let mut core = setup::core(rt.alloc(), workload.records(), calls)?;
        fastest = fastest.min(time_of(rt, &mut core, workload, calls)?);
    }
    let events = workload.events(calls);
    let name = workload.name();
    println!(rt;
        "{name}, {calls} calls: {} ns an event",
        fastest / u128::from(events.max(1))
    )?;
    Ok(())
}

// Returns the nanoseconds of processor time that all events of the calls take on a new machine.
fn time_of(
    rt: &impl CpuClock,
    core: &mut Core<Placing>,
    workload: Workload,
    calls: u32,
) -> Result<u128, Fault> {
    let start = rt.thread_cpu_time()?;
    enter_all(core, calls)?;
    run_all(core, workload, calls)?;
    let end = rt.thread_cpu_time()?;
    Ok(end.saturating_sub(start).as_nanos())
}
