//! Measures the machine, the engine, bodies and runs. The measurements are printed, and nothing depends on them.
#![tactic(auto)]

mod adding;
mod bodies;
mod caller;
mod calls;
mod compare;
mod counts;
mod engine;
mod events;
mod fault;
mod locks;
mod plain;
mod runs;
mod scans;
mod setup;
mod shapes;
mod shares;
mod table;
mod task;
mod threads;
mod timed;
mod ways;
mod workload;

use crate::bodies::measure_bodies;
use crate::compare::compare_ways;
use crate::counts::count_ways;
use crate::engine::measure_engine;
use crate::events::measure_events;
use crate::fault::Fault;
use crate::scans::measure_scans;
use crate::task::{Task, task_of};
use std::env;

const USAGE: &str = "usage: vll_bench events
       vll_bench engine
       vll_bench scan
       vll_bench bodies
       vll_bench compare < scenario
       vll_bench counts < scenario

events   what an event of the machine costs, on one thread
engine   what a call of the engine costs from begin to finish, on one thread
scan     what a scan of the queue that finds no call costs, on one thread
bodies   what a body costs, per run and per node, on one thread
compare  what a call of the scenario costs without the engine, serially, under
         one lock, with one lock per record and with a lock table, and in the
         engine, by its own call and by workers: lines of comma-separated
         values, whose names are in the first line
counts   what became of the scenario's calls by workers in the engine, and what
         these did: lines of that kind";

fn main(rt: HostRuntime) -> Result<(), Fault> {
    let words: Vec<String> = env::args(&rt)?.collect(rt.alloc())?;
    match task_of(words.as_slice()) {
        Task::Events => measure_events(&rt),
        Task::Engine => measure_engine(&rt),
        Task::Scan => measure_scans(&rt),
        Task::Bodies => measure_bodies(&rt),
        Task::Compare => compare_ways(&rt),
        Task::Counts => count_ways(&rt),
        Task::Usage => Ok(println!(&rt; "{USAGE}")?),
    }
}
