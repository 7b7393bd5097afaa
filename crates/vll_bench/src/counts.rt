//! The outcomes of the calls of a scenario in the engine, and what the workers that made them did.
ghost use Rattle.std.specs.Prelude.{◌≤◌};
ghost use Rattle.vll_core.specs.declared.config.TheConstants.{MOST_WORKERS};

use crate::adding::Adding;
use crate::fault::Fault;
use crate::runs;
use crate::setup::opened;
use crate::timed::Count;
use std::io::Read;
use std::marker::Brand;
use std::sync::Wait;
use std::thread::Threads;
use std::time::Clock;
use vll_workers::{MOST_WORKERS, Tally};

const WORKERS: [u32; 3] = [1, 2, 4];

/// Makes the calls of the scenario on standard input once for each number of workers, and prints their outcomes.
pub(crate) fn count_ways<R: Threads + Wait + Clock + Input + Print + AllocGlobal + Sync>(
    rt: &R,
) -> Result<(), Fault> {
    let mut bytes = Vec::new(rt.alloc());
    rt.reader().read_to_end(&mut bytes)?;
    println!(rt; "workers,calls,committed,aborted,moved,blocked,busy,front,scan,holds,rests")?;
    for workers in WORKERS {
        let (count, tally) = count_run(rt, bytes.as_slice(), workers)?;
        print_line(rt, workers, count, tally)?;
    }
    Ok(())
}

// Makes the calls with `workers` workers, on a scenario that is read anew.
fn count_run<R: Threads + Wait + Clock + AllocGlobal + Sync>(
    rt: &R,
    bytes: &[u8],
    workers: u32,
) -> Result<(Count, Tally), Fault>
    requires { (1 ≤ workers) × (workers ≤ MOST_WORKERS) }
{
    let (opening, scripts) = opened(rt.alloc(), bytes)?;
    let adding = Adding::new(rt);
    let timed = runs::time_of::<Brand, R, _>(rt, rt.alloc(), opening, scripts, workers, &adding)?;
    Ok((timed.count, adding.into_tally()))
}

// Prints the line for this number of workers.
fn print_line(rt: &impl Print, workers: u32, count: Count, tally: Tally) -> Result<(), Fault> {
    println!(rt;
        "{workers},{},{},{},{},{},{},{},{},{},{}",
        count.calls,
        count.committed,
        count.aborted(),
        count.moved,
        tally.blocked,
        tally.busy,
        tally.front,
        tally.scan,
        tally.holds,
        tally.rests
    )?;
    Ok(())
}
