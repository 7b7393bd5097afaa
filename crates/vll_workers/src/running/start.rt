//! Starts the workers of a run, puts the tokens into the pool once all starts were tried, and joins the workers.
ghost use Rattle.std.specs.Prelude.{◌≡◌, ◌<◌, ◌++◌, [], false, true, IfOk, IfErr, length};
ghost use Rattle.crossbeam_queue.specs.Passes.{view};
ghost use Rattle.vll_tokens.specs.Pool.{HasInHand, new_hand};
ghost use Rattle.vll_tokens.specs.Tokens.{AreFit};

use super::memory::Desk;
use super::workplace::{Workplace, work_at};
use crate::gate::Gate;
use crate::shared::Shared;
use std::sync::{MutexGuard, Wait};
use std::thread::{Promise, PromisedHandle, Scope, Threads};
use vll_engine::Name;
use vll_sca::Place;
use vll_tokens::{Pool, Roster, Token, Worker};

// What is ready before the workers start: what each needs, the calling thread's own worker, the tokens, and how many
// starts may be tried.
#[derive(Drop)]
pub(super) struct Ready<N: Name, T: Roster> {
    pub(super) desks: Vec<Desk<N, T>>,
    pub(super) own: Worker<T>,
    pub(super) tokens: Vec<Token>,
    pub(super) starts: u32,
}

// A worker comes back with its one part, and has in hand just what it keeps.
#[derive(Drop)]
struct ComesBack<'a, T: Roster>(&'a Pool<T>);

impl<'a, T: Roster> Promise<Worker<T>> for ComesBack<'a, T> {
    ghost use Rattle.std.specs.Prelude.{◌≡◌};
    ghost use Rattle.crossbeam_queue.specs.Passes.{view};
    ghost use Rattle.vll_tokens.specs.Pool.{HasInHand};

    ghost kept_by = { λ p w. HasInHand p.0.now w.pass w.kept × ((view w.pass).parts ≡ 1) };
}

// Starts each worker, puts the tokens into the pool once all starts were tried, and joins the workers. If none is
// started, returns the tokens. The calling thread does the work of the workers that could not be started.
pub(super) fn start<
    's,
    E,
    N: Name + Send + Sync + 's,
    H: Place + Send + Drop + 's,
    X: Shared<N, H> + Sync,
    T: Roster + Send + Sync,
    R: Threads,
    W: Wait + Sync,
    G: Gate + Sync,
>(
    scope: &Scope<'s, E>,
    rt: &R,
    workplace: Workplace<'s, X, T, W, G>,
    closed: MutexGuard<'_, ()>,
    ready: Ready<N, T>,
    is_started: bool,
) -> Result<Worker<T>, Vec<Token>>
    requires roster { T.tokens ≡ ready.tokens.items }
    requires fit { AreFit N.engine T.tokens }
    requires limit { T.limit ≡ N.engine.config.limit }
    requires kept { ready.own.kept ≡ [] }
    requires hand { HasInHand workplace.pool.now ready.own.pass ready.tokens.items }
    requires parts { length ready.desks.items < (view ready.own.pass).parts }
    ensures tokens { IfErr result (λ t. t ≡ ready.tokens) }
    ensures none { IfErr result (λ _. is_started ≡ false) }
    ensures started { IfOk result (λ _. is_started ≡ false → 0 < ready.starts) }
    ensures hand { IfOk result (λ w. HasInHand workplace.entry.pool.now w.pass w.kept) }
    ensures parts { IfOk result (λ w. (view w.pass).parts ≡ (view ready.own.pass).parts) }
{
    let mut ready = ready;
    let pool = workplace.pool;
    let Some(Desk { shelf, memory }) = ready.desks.pop() else {
        return hand_out(workplace.wait, pool, ready, is_started);
    };
    let next = ready.own.another(pool, shelf);
    let starts = ready.starts;
    ready.starts = starts.saturating_sub(1);
    let thread = try_start(
        scope,
        starts,
        ComesBack(pool),
        move || -> Worker<T>
            requires fit { AreFit N.engine T.tokens }
            requires limit { T.limit ≡ N.engine.config.limit }
            requires hand { HasInHand workplace.pool.now next.pass next.kept }
            requires new { view next.pass ≡ new_hand }
            ensures hand { HasInHand workplace.entry.pool.now result.pass result.kept }
            ensures part { (view result.pass).parts ≡ 1 }
        { work_at::<N, H, X, T, W, G>(workplace).come_and_run(next, memory) },
    );
    let is_started = is_started || thread.is_ok();
    let mut own = match start(scope, rt, workplace, closed, ready, is_started) {
        Ok(own) => own,
        Err(unstarted) => {
            drop(thread);
            return Err(unstarted);
        }
    };
    own.gather(pool, come_back(rt, ComesBack(pool), thread));
    Ok(own)
}

// Puts the tokens into the pool if a worker was started, and otherwise returns them.
fn hand_out<N: Name, T: Roster>(
    wait: &impl Wait,
    pool: &Pool<T>,
    ready: Ready<N, T>,
    is_started: bool,
) -> Result<Worker<T>, Vec<Token>>
    requires roster { T.tokens ≡ ready.tokens.items }
    requires kept { ready.own.kept ≡ [] }
    requires hand { HasInHand pool.now ready.own.pass ready.tokens.items }
    requires part { 0 < (view ready.own.pass).parts }
    ensures tokens { IfErr result (λ t. t ≡ ready.tokens) }
    ensures none { IfErr result (λ _. is_started ≡ false) }
    ensures started { IfOk result (λ _. is_started ≡ true) }
    ensures hand { IfOk result (λ w. HasInHand pool.now w.pass w.kept) }
    ensures parts { IfOk result (λ w. (view w.pass).parts ≡ (view ready.own.pass).parts) }
{
    let Ready {
        mut own,
        tokens,
        ..
    } = ready;
    if !is_started {
        return Err(tokens);
    }
    own.put_all(wait, pool, tokens);
    Ok(own)
}

// Starts a thread of the scope, if a start is left. Returns the closure if it could not be started.
fn try_start<'s, E, P: Promise<V> + Drop, F: FnOnce() -> V + Send + 's, V: Send + Drop + 's>(
    scope: &Scope<'s, E>,
    starts: u32,
    promise: P,
    f: F,
) -> Result<PromisedHandle<V, P>, F>
    requires runs { F.pre f }
    requires keeps { (v : V) → F.post f v → P.kept_by promise v }
    ensures started { IfOk result (λ _. 0 < starts) }
    ensures promise { IfOk result (λ h. h.promise ≡ promise) }
    ensures runs { IfErr result (λ e. F.pre e) }
    ensures keeps { IfErr result (λ e. (v : V) → F.post e v → P.kept_by promise v) }
{
    if starts == 0 {
        return Err(f);
    }
    match scope.spawn_with(promise, f) {
        Ok(thread) => Ok(thread),
        Err(refused) => Err(refused.value),
    }
}

// What a thread returned, or what the closure returns if the thread could not be started.
fn come_back<R: Threads, P: Promise<V> + Drop, F: FnOnce() -> V, V>(
    rt: &R,
    promise: P,
    thread: Result<PromisedHandle<V, P>, F>,
) -> V
    requires promise { IfOk thread (λ h. h.promise ≡ promise) }
    requires runs { IfErr thread (λ f. F.pre f) }
    requires keeps { IfErr thread (λ f. (v : V) → F.post f v → P.kept_by promise v) }
    ensures { P.kept_by promise result }
{
    match thread {
        Ok(thread) => thread.join(rt),
        Err(refused) => refused(),
    }
}
