//! The calls of scripts made without the engine by several threads, each of which takes one script after the other.
ghost use Rattle.std.specs.Prelude.{◌<◌, All};
ghost use Rattle.vll_check.specs.Calls.{Fits};

use crate::fault::Fault;
use crate::threads::in_threads;
use crate::timed::{Count, Timed};
use std::alloc::Global;
use std::sync::atomic::{AtomicUsize, Ordering};
use std::thread::Threads;
use std::time::{Clock, Instant};
use vll_proc::Call;

/// A way of making the calls of a library.
pub(crate) trait Maker {
    ghost use Rattle.vll_check.specs.Headline.Catalog.{Catalog};

    ghost library: { Self → Catalog };

    /// Makes a call. Returns whether it committed.
    fn make(&self, call: &Call) -> Result<bool, Fault>
        requires { Fits (library self.now) call.now };
}

/// Times the calls made by `threads` threads.
pub(crate) fn time_shares<R: Threads + Clock + Sync, M: Maker + Sync>(
    rt: &R,
    alloc: Global,
    maker: &M,
    scripts: &[Vec<Call>],
    threads: usize,
) -> Result<Timed, Fault>
    requires some { 0 < threads }
    requires fits { All (λ script. All (Fits (M.library maker.now)) script.items) scripts.now }
{
    let next = AtomicUsize::new(0);
    let start = Instant::now(rt)?;
    let counts = in_threads(
        rt,
        alloc,
        threads,
        &|| { make_share(maker, scripts, &next) },
    )?;
    let time = start.elapsed(rt)?;
    let mut count = Count::none();
    for made in counts.iter() {
        count = count.with((*made)?);
    }
    Ok(Timed { time, count })
}

// Makes the calls of one script after another, until none is left.
fn make_share<M: Maker>(
    maker: &M,
    scripts: &[Vec<Call>],
    next: &AtomicUsize,
) -> Result<Count, Fault>
    requires { All (λ script. All (Fits (M.library maker.now)) script.items) scripts.now }
{
    let mut count = Count::none();
    for _ in 0..scripts.len() {
        let Some(script) = scripts.get(next.fetch_add(1, Ordering::SeqCst)) else {
            break;
        };
        count = count.with(make_script(maker, script.as_slice())?);
    }
    Ok(count)
}

/// Makes the calls of a script, one after the other.
pub(crate) fn make_script<M: Maker>(maker: &M, script: &[Call]) -> Result<Count, Fault>
    requires { All (Fits (M.library maker.now)) script.now }
{
    let mut count = Count::none();
    for call in script {
        count = count.with_call(maker.make(call)?);
    }
    Ok(count)
}
