//! A program with an embedded engine: two clients of a bank on one thread, and then four on threads of their own, epoch
//! after epoch.
#![tactic(auto)]

mod bank;
mod epochs;
mod procedures;
mod relay;

use vll_engine::EngineFault;

fn main(rt: HostRuntime) -> Result<(), EngineFault> {
    bank::open(&rt, rt.alloc())?;
    epochs::run(&rt, rt.alloc())
}
