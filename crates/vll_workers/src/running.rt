//! Runs: worker threads enter the calls of the tokens' scripts, and bring them to their replies.
ghost use Rattle.std.specs.Prelude.{◌≡◌, ◌<◌, ◌≤◌, All, IfOk, IfErr, length, nat_eq};
ghost use Rattle.std.specs.List.{IsDistinct};
ghost use Rattle.vll_tokens.specs.Tokens.{AreFit, AreBack, IsThrough, OneIsSpent, clients_of};
ghost use Rattle.vll_workers.specs.declared.fault.RunFault.TheVariants as RunFault;

use crate::fault::RunError;
use crate::gate::Gate;
use std::alloc::Global;
use std::marker::Brand;
use std::sync::Wait;
use std::thread::Threads;
use vll_engine::{Engine, Name};
use vll_sca::Place;
use vll_tokens::{MOST_WORKERS, Token};

mod ending;
mod memory;
mod named;
mod start;
mod workplace;

/// Enters every call of the tokens' scripts in the engine, each script in order, and brings the calls to their replies,
/// with `workers` worker threads, 1 to 64. The tokens are of distinct clients of this engine. It waits until the
/// workers have ended. Calls that were waiting in the engine before are executed too; one whose pass is kept elsewhere
/// is left, with those that wait for it.
///
/// The tokens come back in ascending order of their clients, each with `next` the length of its script. Of its client's
/// calls, each token's session has seen just those of its script enter, from the old `next` to the new one, in order,
/// each with what it found. The memory needed is allocated before the first thread is started. If some threads cannot
/// be started, the others and the calling thread do the work. The calling thread also makes the calls that are left
/// once the workers have ended. If there are no tokens, no thread is started.
///
/// `NoMemory`, and `Spawn` if no thread could be started, return the tokens as they were passed. `Spent` is returned
/// after all has ended if the engine took no more calls, with all tokens in ascending order: one of them has calls
/// left, and its session has seen as many calls enter as the engine's limit.
pub fn run<
    N: Name + Send + Sync,
    H: Place + Send + Drop,
    R: Threads + Wait + Sync,
    W: Wait + Sync,
    G: Gate + Sync,
>(
    rt: &R,
    wait: &W,
    alloc: Global,
    engine: &Engine<N, H>,
    tokens: Vec<Token>,
    workers: u32,
    gate: &G,
) -> Result<Vec<Token>, RunError>
    requires workers { (1 ≤ workers) × (workers ≤ MOST_WORKERS) }
    requires fit { AreFit N.engine tokens.items }
    requires distinct { IsDistinct nat_eq (clients_of tokens.items) }
    ensures ok { IfOk result (λ back. AreBack tokens.items back.items × All IsThrough back.items) }
    ensures no_memory { IfErr result (λ e. e.fault ≡ RunFault.NoMemory → e.tokens ≡ tokens) }
    ensures spawn { IfErr result (λ e. e.fault ≡ RunFault.Spawn → e.tokens ≡ tokens) }
    ensures spent { IfErr result (λ e. e.fault ≡ RunFault.Spent → AreBack tokens.items e.tokens.items × OneIsSpent N.engine.config.limit e.tokens.items) }
{
    named::run_named::<N, H, Engine<N, H>, Brand, R, W, G>(
        rt, wait, alloc, engine, tokens, workers, workers, gate,
    )
}

/// As `run`, but tries to start at most `starts` threads: the workers beyond these count as refused, and the calling
/// thread does their work. So at most one thread more than `starts` is at work at once, however many workers there are.
/// It is for a service that has to bound its threads, and for tests of a run whose threads are refused.
///
/// If `starts` is 0, tokens are returned as they were passed, with `Spawn` or `NoMemory`, and no call enters. A run
/// without tokens succeeds, and starts no thread.
pub fn run_limited<
    N: Name + Send + Sync,
    H: Place + Send + Drop,
    R: Threads + Wait + Sync,
    W: Wait + Sync,
    G: Gate + Sync,
>(
    rt: &R,
    wait: &W,
    alloc: Global,
    engine: &Engine<N, H>,
    tokens: Vec<Token>,
    workers: u32,
    starts: u32,
    gate: &G,
) -> Result<Vec<Token>, RunError>
    requires workers { (1 ≤ workers) × (workers ≤ MOST_WORKERS) }
    requires fit { AreFit N.engine tokens.items }
    requires distinct { IsDistinct nat_eq (clients_of tokens.items) }
    ensures ok { IfOk result (λ back. AreBack tokens.items back.items × All IsThrough back.items) }
    ensures no_memory { IfErr result (λ e. e.fault ≡ RunFault.NoMemory → e.tokens ≡ tokens) }
    ensures spawn { IfErr result (λ e. e.fault ≡ RunFault.Spawn → e.tokens ≡ tokens) }
    ensures spent { IfErr result (λ e. e.fault ≡ RunFault.Spent → AreBack tokens.items e.tokens.items × OneIsSpent N.engine.config.limit e.tokens.items) }
    ensures started { IfOk result (λ _. 0 < length tokens.items → 0 < starts) }
    ensures spent_started { IfErr result (λ e. e.fault ≡ RunFault.Spent → 0 < starts) }
    ensures some { IfErr result (λ _. 0 < length tokens.items) }
{
    named::run_named::<N, H, Engine<N, H>, Brand, R, W, G>(
        rt, wait, alloc, engine, tokens, workers, starts, gate,
    )
}
