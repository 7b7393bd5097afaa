//! A run of a scenario's scripts by worker threads, and the text of its outcome.
ghost use Rattle.std.specs.Prelude.{◌≡◌, ◌≤◌, ◌<◌, ◌+◌, ◌^◌, ◌↔◌, ℕ, false, true, All, IfErr, IfOk, OnOk, length, sum_by};
ghost use Rattle.std.specs.Io.KnownBytes.{Appends};
ghost use Rattle.vll_check.specs.Calls.{Fits};
ghost use Rattle.vll_counters.specs.Headline.Views.{calls_in};
ghost use Rattle.vll_queue.specs.Closed.{IsSerial};
ghost use Rattle.vll_queue.specs.Sessions.{HasItsCalls};
ghost use Rattle.vll_queue.specs.Shown.{library_of, name_of, opening};
ghost use Rattle.vll_sca.specs.Placing.{placing};
ghost use Rattle.vll_scenario.specs.Headline.Setup.{catalog_of};
ghost use Rattle.vll_scenario.specs.Setup.{lists_of};
ghost use Rattle.vll_workers.specs.Headline.Merge.{IsMerge};
ghost use Rattle.vll_server.specs.Headline.Serve.{IsServed, Serves};
ghost use Rattle.vll_server.specs.Scripts.{config_for};
ghost use Rattle.vll_server.specs.Private.Serving.{AreLeft};
ghost use Rattle.vll_scenario.specs.Streams.{AppendsBeginning};

mod tokens;

use crate::fault::ServeFault;
use crate::text::outcome::write_outcome;
use std::alloc::{AllocError, Global};
use std::marker::Brand;
use std::sync::Wait;
use std::thread::Threads;
use tokens::into_sessions;
pub use tokens::tokens_of;
use vll_core::{Config, MOST_CALLS, OpenFault};
use vll_engine::{Closed, Engine, Name, NotClosed, Opening, Session};
use vll_proc::Call;
use vll_sca::Placing;
use vll_scenario::{MOST_CLIENTS, Scenario, ScenarioParts, Sink, WriteFault};
use vll_workers::{Gate, MOST_WORKERS, RunError, RunFault};

/// Runs a scenario's scripts with `run_scenario`, and writes the text of the outcome: a line for each call in the order
/// in which the calls entered, and then one for each record.
///
/// Nothing is written before the run has ended well and the engine is closed. `Run`, `Unfinished` and `NoMemory` are
/// returned before that, and leave the writer as it was; `NoMemory` is also returned if the text cannot be made, which
/// is before its first byte is written. `Write` is returned exactly if the writer has failed; then a prefix of the text
/// has been written. `run_scenario` says what `Run` and `Unfinished` report.
pub fn serve<R: Threads + Wait + Sync, W: Wait + Sync, G: Gate + Sync, S: Sink>(
    rt: &R,
    wait: &W,
    alloc: Global,
    scenario: Scenario,
    workers: u32,
    gate: &G,
    writer: &mut S,
) -> Result<(), ServeFault>
    requires workers { (1 ≤ workers) × (workers ≤ MOST_WORKERS) }
    requires writer { S.failed writer.old ≡ false }
    ensures ok { OnOk result (Serves scenario (Appends (S.contents writer.old) (S.contents writer.new))) }
    ensures write { result ≡ Err ServeFault.Write
        → Serves scenario (AppendsBeginning (S.contents writer.old) (S.contents writer.new)) }
    ensures before { IfErr result (λ why. ¬ (why ≡ ServeFault.Write) → writer.new ≡ writer.old) }
    ensures failed { (result ≡ Err ServeFault.Write) ↔ (S.failed writer.new ≡ true) }
    ensures spent { ¬ (result ≡ Err (ServeFault.Run RunFault.Spent)) }
    ensures unfinished { (running waiting : ℕ) → result ≡ Err (ServeFault.Unfinished running waiting) → 0 < running + waiting }
{
    let closed = run_scenario(rt, wait, alloc, scenario, workers, gate)?;
    match write_outcome(alloc, writer, &closed) {
        Ok(()) => Ok(()),
        Err(WriteFault::NoMemory) => Err(ServeFault::NoMemory),
        Err(WriteFault::Write) => Err(ServeFault::Write),
    }
}

/// Runs a scenario's scripts with `workers` worker threads, 1 to `MOST_WORKERS` of `vll_workers`, and returns what they
/// leave. The gate is called for each call that is executed. The engine has the scenario's cap, bits and hash; the
/// scenario's limit and its schedule are not read, since the engine takes as many calls as the scripts have.
///
/// The journal has the calls in the order in which they entered: those of each script in its order, and no others. The
/// replies and records are those of these calls made one at a time, in this order, and each pair word is 0.
///
/// `Run` has the fault that the workers' run returned, which is never that the engine is spent. `Unfinished` reports
/// how many calls were left in the engine after the run: some were. `NoMemory` is for failed allocations outside the
/// workers' run.
pub fn run_scenario<R: Threads + Wait + Sync, W: Wait + Sync, G: Gate + Sync>(
    rt: &R,
    wait: &W,
    alloc: Global,
    scenario: Scenario,
    workers: u32,
    gate: &G,
) -> Result<Closed, ServeFault>
    requires { (1 ≤ workers) × (workers ≤ MOST_WORKERS) }
    ensures ok { IfOk result (IsServed scenario) }
    ensures write { ¬ (result ≡ Err ServeFault.Write) }
    ensures spent { ¬ (result ≡ Err (ServeFault.Run RunFault.Spent)) }
    ensures unfinished { (running waiting : ℕ) → result ≡ Err (ServeFault.Unfinished running waiting) → 0 < running + waiting }
{
    let (opening, scripts) = opening_of(alloc, scenario)?;
    run_scripts::<Brand, R, W, G>(rt, wait, alloc, opening, scripts, workers, gate)
}

/// Opens an engine over a scenario's records and procedures, which has no name yet, and returns it with the scripts. It
/// is for programs that run the workers themselves: `tokens_of` makes their tokens. The engine has the scenario's cap,
/// bits and hash, a client for each script, and takes as many calls as the scripts have. All its memory is allocated
/// here; it fails if the allocation fails.
pub fn opening_of(
    alloc: Global,
    scenario: Scenario,
) -> Result<(Opening<Placing>, Vec<Vec<Call>>), AllocError>
    ensures opened { IfOk result (λ made. made.0 ≡ opening made.0.table (catalog_of scenario) scenario.records (config_for
        scenario) scenario.placing (length scenario.scripts)) }
    ensures scripts { IfOk result (λ made. lists_of made.1.items ≡ scenario.scripts) }
    ensures clients { IfOk result (λ made. made.0.clients ≡ length made.1.items) }
    ensures few { IfOk result (λ made. length made.1.items ≤ MOST_CLIENTS) }
    ensures short { IfOk result (λ made. All (λ script. length script.items < 2 ^ 32) made.1.items) }
    ensures fits { IfOk result (λ made. All (λ script. All (Fits (library_of (name_of placing made.0))) script.items) made.1.items) }
{
    let ScenarioParts {
        records,
        library,
        scripts,
        config,
        placing,
        ..
    } = scenario.into_parts();
    let config = Config {
        cap: config.cap,
        limit: number_of_calls(scripts.as_slice()).max(1),
        bits: config.bits,
    };
    let clients = scripts.len() as u32;
    match Opening::new(alloc, records, library, config, placing, clients) {
        Ok(opening) => Ok((opening, scripts)),
        Err(OpenFault::NoMemory) => Err(AllocError),
        // A scenario has the sizes that an engine can be opened with.
        Err(OpenFault::Records | OpenFault::Limit | OpenFault::Cap | OpenFault::Bits) => {
            unreachable!()
        }
    }
}

// The number of calls of all scripts together, at most 65,536.
fn number_of_calls(scripts: &[Vec<Call>]) -> u32
    requires { sum_by length (lists_of scripts.now) ≤ MOST_CALLS }
    ensures { result ≡ sum_by length (lists_of scripts.now) }
{
    let mut count = 0;
    for script in scripts {
        count += script.len() as u32;
    }
    count
}

// Runs the scripts in an engine of this name, and returns what it leaves.
fn run_scripts<N: Name + Send + Sync, R: Threads + Wait + Sync, W: Wait + Sync, G: Gate + Sync>(
    rt: &R,
    wait: &W,
    alloc: Global,
    opening: Opening<Placing>,
    scripts: Vec<Vec<Call>>,
    workers: u32,
    gate: &G,
) -> Result<Closed, ServeFault>
    requires workers { (1 ≤ workers) × (workers ≤ MOST_WORKERS) }
    requires named { N.engine ≡ name_of placing opening }
    requires clients { N.engine.clients ≡ length scripts.items }
    requires few { length scripts.items ≤ MOST_CLIENTS }
    requires short { All (λ script. length script.items < 2 ^ 32) scripts.items }
    requires fits { All (λ script. All (Fits (library_of N.engine)) script.items) scripts.items }
    requires limit { sum_by length (lists_of scripts.items) ≤ N.engine.config.limit }
    ensures serial { IfOk result (IsSerial N.engine) }
    ensures merge { IfOk result (λ closed. IsMerge (library_of N.engine) (calls_in closed.journal.items) (lists_of scripts.items)) }
    ensures write { ¬ (result ≡ Err ServeFault.Write) }
    ensures spent { ¬ (result ≡ Err (ServeFault.Run RunFault.Spent)) }
    ensures unfinished { (running waiting : ℕ) → result ≡ Err (ServeFault.Unfinished running waiting) → 0 < running + waiting }
{
    let (engine, sessions) = opening.start::<N>();
    let room = Vec::with_capacity(alloc, scripts.len())?;
    let tokens = tokens_of::<N>(alloc, sessions, scripts)?;
    match vll_workers::run(rt, wait, alloc, &engine, tokens, workers, gate) {
        Ok(tokens) => close(engine, into_sessions(tokens, room)),
        Err(error) => match error.fault {
            RunFault::Spent => match close(engine, into_sessions(error.tokens, room)) {
                // The journal would have as many calls as all scripts together, and yet lack one of them.
                Ok(_) => unreachable!(),
                Err(fault) => Err(fault),
            },
            RunFault::NoMemory | RunFault::Spawn => Err(run_fault(error)),
        },
    }
}

// The fault to return if the workers' run failed.
fn run_fault(error: RunError) -> ServeFault
    ensures { result ≡ ServeFault.Run error.fault }
{
    ServeFault::Run(error.fault)
}

// Closes the engine and returns what it leaves, or how many calls are unfinished.
fn close<N: Name>(engine: Engine<N, Placing>, sessions: Vec<Session>) -> Result<Closed, ServeFault>
    requires { All (λ s. s.table ≡ N.engine.table) sessions.items }
    ensures serial { IfOk result (IsSerial N.engine) }
    ensures sessions { IfOk result (λ c. All (λ s. HasItsCalls (calls_in c.journal.items) s.session) sessions.items) }
    ensures left { IfErr result AreLeft }
{
    match engine.close(sessions) {
        Ok(closed) => Ok(closed),
        Err(left) => Err(unfinished(left)),
    }
}

// The fault to return if calls were left in the engine.
fn unfinished<N: Name>(left: NotClosed<N, Placing>) -> ServeFault
    ensures { result ≡ ServeFault.Unfinished left.running left.waiting }
{
    ServeFault::Unfinished {
        running: left.running,
        waiting: left.waiting,
    }
}
