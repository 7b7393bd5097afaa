//! Tests of the words of faults: of runs, of replays, of writing a text, and of a service.
use crate::asserts::equal;
use std::alloc::{AllocError, Global};
use std::test::Fail;
use vll_server::{ReplayFault, ServeFault, WriteFault};
use vll_stream::StreamFault;
use vll_workers::RunFault;

fn served(alloc: Global, fault: ServeFault) -> Result<String, AllocError> {
    fault.to_string(alloc)
}

fn replayed(alloc: Global, fault: ReplayFault) -> Result<String, AllocError> {
    fault.to_string(alloc)
}

fn written(alloc: Global, fault: WriteFault) -> Result<String, AllocError> {
    fault.to_string(alloc)
}

#[test]
fn fault_of_a_run_is_told_in_its_words(rt: HostRuntime) -> Result<(), Fail> {
    let no_memory = served(rt.alloc(), ServeFault::Run(RunFault::NoMemory))?;
    equal(&rt, no_memory.as_str(), "no memory");
    let spawn = served(rt.alloc(), ServeFault::Run(RunFault::Spawn))?;
    equal(&rt, spawn.as_str(), "spawn");
    let spent = served(rt.alloc(), ServeFault::Run(RunFault::Spent))?;
    equal(&rt, spent.as_str(), "spent");
    Ok(())
}

#[test]
fn fault_of_serving_is_told(rt: HostRuntime) -> Result<(), Fail> {
    let unfinished = ServeFault::Unfinished {
        running: 1,
        waiting: 23,
    };
    let unfinished = served(rt.alloc(), unfinished)?;
    equal(&rt, unfinished.as_str(), "unfinished 1 23");
    let no_memory = served(rt.alloc(), ServeFault::NoMemory)?;
    equal(&rt, no_memory.as_str(), "no memory");
    let write = served(rt.alloc(), ServeFault::Write)?;
    equal(&rt, write.as_str(), "write");
    Ok(())
}

#[test]
fn fault_of_a_replay_is_told(rt: HostRuntime) -> Result<(), Fail> {
    let no_memory = replayed(rt.alloc(), ReplayFault::NoMemory)?;
    equal(&rt, no_memory.as_str(), "replay: no memory");
    let write = replayed(rt.alloc(), ReplayFault::Write)?;
    equal(&rt, write.as_str(), "replay: write");
    Ok(())
}

#[test]
fn fault_of_a_text_is_told(rt: HostRuntime) -> Result<(), Fail> {
    let no_memory = written(rt.alloc(), WriteFault::NoMemory)?;
    equal(&rt, no_memory.as_str(), "no memory");
    let write = written(rt.alloc(), WriteFault::Write)?;
    equal(&rt, write.as_str(), "write");
    Ok(())
}

#[test]
fn fault_of_a_service_is_told(rt: HostRuntime) -> Result<(), Fail> {
    for (fault, words) in [
        (StreamFault::Calls, "calls"),
        (StreamFault::Read, "read"),
        (StreamFault::Write, "write"),
        (StreamFault::NoMemory, "no memory"),
        (StreamFault::Unfinished, "unfinished"),
    ] {
        let told = fault.to_string(rt.alloc())?;
        equal(&rt, told.as_str(), words);
    }
    Ok(())
}
