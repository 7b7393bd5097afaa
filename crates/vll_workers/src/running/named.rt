//! A run of tokens that have a name: its memory, its workers and its outcome.
ghost use Rattle.std.specs.Prelude.{◌≡◌, ◌≤◌, ◌<◌, [], All, IfOk, IfErr, length, nat_eq};
ghost use Rattle.std.specs.List.{IsDistinct};
ghost use Rattle.crossbeam_queue.specs.Passes.{view};
ghost use Rattle.vll_tokens.specs.Pool.{AreSame, HasInHand, all_parts};
ghost use Rattle.vll_tokens.specs.Tokens.{AreFit, AreBack, IsThrough, OneIsSpent, clients_of};
ghost use Rattle.vll_workers.specs.declared.fault.RunFault.TheVariants as RunFault;

use super::ending::outcome_of;
use super::memory::{RunMemory, memory_for};
use super::start::{Ready, start};
use super::workplace::{Workplace, work_at};
use crate::batch::BatchMemory;
use crate::fault::{RunError, RunFault};
use crate::gate::Gate;
use crate::shared::Shared;
use crate::solo::Solo;
use std::alloc::{AllocError, Global};
use std::sync::{Mutex, Wait};
use std::thread;
use std::thread::Threads;
use vll_engine::Name;
use vll_sca::Place;
use vll_tokens::{MOST_WORKERS, Roster, Token, Worker};

// Runs tokens that have a name, as `run_limited`.
pub(super) fn run_named<
    'a,
    N: Name + Send + Sync + 'a,
    H: Place + Send + Drop + 'a,
    X: Shared<N, H> + Sync,
    T: Roster + Send + Sync,
    R: Threads + Wait + Sync,
    W: Wait + Sync,
    G: Gate + Sync,
>(
    rt: &R,
    wait: &'a W,
    alloc: Global,
    shared: &'a X,
    tokens: Vec<Token>,
    workers: u32,
    starts: u32,
    gate: &'a G,
) -> Result<Vec<Token>, RunError>
    requires roster { T.tokens ≡ tokens.items }
    requires limit { T.limit ≡ N.engine.config.limit }
    requires workers { workers ≤ MOST_WORKERS }
    requires fit { AreFit N.engine tokens.items }
    requires distinct { IsDistinct nat_eq (clients_of tokens.items) }
    ensures ok { IfOk result (λ back. AreBack tokens.items back.items × All IsThrough back.items) }
    ensures no_memory { IfErr result (λ e. e.fault ≡ RunFault.NoMemory → e.tokens ≡ tokens) }
    ensures spawn { IfErr result (λ e. e.fault ≡ RunFault.Spawn → e.tokens ≡ tokens) }
    ensures spent { IfErr result (λ e. e.fault ≡ RunFault.Spent → AreBack tokens.items e.tokens.items × OneIsSpent N.engine.config.limit e.tokens.items) }
    ensures started { IfOk result (λ _. 0 < length tokens.items → 0 < starts) }
    ensures spent_started { IfErr result (λ e. e.fault ≡ RunFault.Spent → 0 < starts) }
    ensures some { IfErr result (λ _. 0 < length tokens.items) }
{
    if tokens.is_empty() {
        return Ok(tokens);
    }
    let pacing = shared.engine().pacing();
    let memory = match memory_for::<N, T>(alloc, tokens.len(), workers, pacing) {
        Ok(memory) => memory,
        Err(AllocError) => return Err(RunError::new(RunFault::NoMemory, tokens)),
    };
    let RunMemory {
        pool,
        own,
        own_memory,
        desks,
    } = memory;
    let door = Mutex::new(());
    let solo = Solo::new(pacing);
    let workplace = Workplace {
        wait,
        shared,
        pool: &pool,
        door: &door,
        solo: &solo,
        gate,
    };
    let ready = Ready {
        desks,
        own,
        tokens,
        starts,
    };
    match work_through::<N, H, X, T, R, W, G>(rt, workplace, ready, own_memory) {
        Ok(worker) => outcome_of(worker),
        Err(tokens) => Err(RunError::new(RunFault::Spawn, tokens)),
    }
}

// Has the workers make the tokens' calls, and waits until they have ended. If none can be started, returns the tokens.
fn work_through<
    'a,
    N: Name + Send + Sync + 'a,
    H: Place + Send + Drop + 'a,
    X: Shared<N, H> + Sync,
    T: Roster + Send + Sync,
    R: Threads + Wait + Sync,
    W: Wait + Sync,
    G: Gate + Sync,
>(
    rt: &R,
    workplace: Workplace<'a, X, T, W, G>,
    ready: Ready<N, T>,
    own_memory: BatchMemory<N>,
) -> Result<Worker<T>, Vec<Token>>
    requires roster { T.tokens ≡ ready.tokens.items }
    requires fit { AreFit N.engine T.tokens }
    requires limit { T.limit ≡ N.engine.config.limit }
    requires kept { ready.own.kept ≡ [] }
    requires hand { HasInHand workplace.pool.now ready.own.pass ready.tokens.items }
    requires workers { length ready.desks.items ≤ MOST_WORKERS }
    requires parts { (view ready.own.pass).parts ≡ all_parts }
    ensures tokens { IfErr result (λ t. t ≡ ready.tokens) }
    ensures started { IfOk result (λ _. 0 < ready.starts) }
    ensures all { IfOk result (λ w. AreSame (clients_of T.tokens) (clients_of w.kept)) }
{
    // The workers find the door locked until all of them are started.
    let closed = workplace.door.lock(workplace.wait);
    let worker = thread::scope(
        thread::scope_env(),
        rt,
        move |scope| -> Result<Worker<T>, Vec<Token>>
            requires roster { T.tokens ≡ ready.tokens.items }
            requires fit { AreFit N.engine T.tokens }
            requires limit { T.limit ≡ N.engine.config.limit }
            requires kept { ready.own.kept ≡ [] }
            requires hand { HasInHand workplace.pool.now ready.own.pass ready.tokens.items }
            requires workers { length ready.desks.items ≤ MOST_WORKERS }
            requires parts { (view ready.own.pass).parts ≡ all_parts }
            ensures tokens { IfErr result (λ t. t ≡ ready.tokens) }
            ensures started { IfOk result (λ _. 0 < ready.starts) }
            ensures hand { IfOk result (λ w. HasInHand workplace.entry.pool.now w.pass w.kept) }
            ensures parts { IfOk result (λ w. (view w.pass).parts ≡ all_parts) }
        { start::<_, N, H, X, T, R, W, G>(scope, rt, workplace, closed, ready, false) },
    )?;
    Ok(work_at::<N, H, X, T, W, G>(workplace).run_to_the_end(worker, own_memory))
}
