//! The ways of making the calls of a scenario, with the engine and without it.
ghost use Rattle.std.specs.Prelude.{◌≤◌, ◌<◌};
ghost use Rattle.vll_core.specs.declared.config.TheConstants.{MOST_WORKERS};

use crate::calls::time_calls;
use crate::fault::Fault;
use crate::locks::ByLocks;
use crate::plain::{ByMutex, time_serial};
use crate::runs;
use crate::setup::{opened, parts_of};
use crate::shares::time_shares;
use crate::table::ByTable;
use crate::timed::Timed;
use std::marker::Brand;
use std::sync::Wait;
use std::thread::Threads;
use std::time::Clock;
use vll_server::ScenarioParts;
use vll_workers::{MOST_WORKERS, OpenGate};

/// How the calls are made.
#[derive(Clone, Copy)]
pub(crate) enum Way {
    /// One after the other on plain records, without a lock.
    Serial,
    /// On plain records, with one lock around each whole call.
    Mutex,
    /// On plain records, each with a lock of its own.
    Locks,
    /// On plain records, with a lock table.
    Table,
    /// In the engine, without workers: each thread uses `Client::make`.
    Call,
    /// By the engine's workers.
    Engine,
}

impl Way {
    /// Its name in what is printed.
    pub(crate) fn name(self) -> &'static str {
        match self {
            Way::Serial => "serial",
            Way::Mutex => "mutex",
            Way::Locks => "locks",
            Way::Table => "table",
            Way::Call => "call",
            Way::Engine => "engine",
        }
    }
}

impl Way {
    /// Times the calls once, made by `threads` threads, from 1 to `MOST_WORKERS`, on a scenario that is read anew.
    /// Reading it, opening the engine and closing it are not timed.
    pub(crate) fn time<R: Threads + Wait + Clock + AllocGlobal + Sync>(
        self,
        rt: &R,
        bytes: &[u8],
        threads: u32,
    ) -> Result<Timed, Fault> {
        let workers = threads.max(1).min(MOST_WORKERS);
        match self {
            Way::Serial => time_serially(rt, bytes),
            Way::Mutex => time_by_mutex(rt, bytes, workers as usize),
            Way::Locks => time_by_locks(rt, bytes, workers as usize),
            Way::Table => time_by_table(rt, bytes, workers as usize),
            Way::Call => time_by_call(rt, bytes, workers as usize),
            Way::Engine => time_by_workers(rt, bytes, workers),
        }
    }
}

fn time_serially(rt: &(impl Clock + AllocGlobal), bytes: &[u8]) -> Result<Timed, Fault> {
    let mut parts = parts_of(rt.alloc(), bytes)?;
    let scripts = parts.scripts.as_slice();
    time_serial(rt, &parts.library, parts.records.as_mut_slice(), scripts)
}

fn time_by_mutex<R: Threads + Wait + Clock + AllocGlobal + Sync>(
    rt: &R,
    bytes: &[u8],
    threads: usize,
) -> Result<Timed, Fault>
    requires { 0 < threads }
{
    let parts = parts_of(rt.alloc(), bytes)?;
    let ScenarioParts {
        records,
        library,
        scripts,
        ..
    } = parts;
    let scripts = scripts.as_slice();
    let maker = ByMutex::new(rt, &library, records);
    time_shares(rt, rt.alloc(), &maker, scripts, threads)
}

fn time_by_locks<R: Threads + Wait + Clock + AllocGlobal + Sync>(
    rt: &R,
    bytes: &[u8],
    threads: usize,
) -> Result<Timed, Fault>
    requires { 0 < threads }
{
    let parts = parts_of(rt.alloc(), bytes)?;
    let scripts = parts.scripts.as_slice();
    let maker = ByLocks::new(rt, rt.alloc(), &parts.library, parts.records.as_slice())?;
    time_shares(rt, rt.alloc(), &maker, scripts, threads)
}

fn time_by_table<R: Threads + Wait + Clock + AllocGlobal + Sync>(
    rt: &R,
    bytes: &[u8],
    threads: usize,
) -> Result<Timed, Fault>
    requires { 0 < threads }
{
    let parts = parts_of(rt.alloc(), bytes)?;
    let scripts = parts.scripts.as_slice();
    let maker = ByTable::new(rt, rt.alloc(), &parts.library, parts.records.as_slice())?;
    time_shares(rt, rt.alloc(), &maker, scripts, threads)
}

fn time_by_call<R: Threads + Wait + Clock + AllocGlobal + Sync>(
    rt: &R,
    bytes: &[u8],
    threads: usize,
) -> Result<Timed, Fault>
    requires { 0 < threads }
{
    let (opening, scripts) = opened(rt.alloc(), bytes)?;
    time_calls::<Brand, R>(rt, rt.alloc(), opening, scripts, threads)
}

fn time_by_workers<R: Threads + Wait + Clock + AllocGlobal + Sync>(
    rt: &R,
    bytes: &[u8],
    workers: u32,
) -> Result<Timed, Fault>
    requires { (1 ≤ workers) × (workers ≤ MOST_WORKERS) }
{
    let (opening, scripts) = opened(rt.alloc(), bytes)?;
    runs::time_of::<Brand, R, _>(rt, rt.alloc(), opening, scripts, workers, &OpenGate)
}
