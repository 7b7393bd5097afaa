//! `vll trace`, without its command line: it runs a scenario's scripts with worker threads, and writes the scenario
//! again with a schedule, the atomic steps in an order in which they can have happened. Proved: the machine of atomic
//! steps takes each step of this schedule, and ends with the tickets, replies and records of that run. Start at `trace`.
#![tactic(auto)]

mod fault;
mod holders;
mod ordering;
mod recorder;
mod sources;
mod text;
mod tracing;

pub use fault::TraceFault;
pub use tracing::trace;
