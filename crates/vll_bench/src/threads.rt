//! Threads that are started one after the other.
ghost use Rattle.std.specs.Thread.{IsSync, IsSend};

use std::alloc::{AllocError, Global};
use std::thread::{Threads, join};

/// Calls `f` in this many threads, the calling one among them, and returns the answers. The calling thread starts all
/// others: the system often puts two that are started by two threads at a time on one processor, and leaves them there
/// while another processor rests.
#[cycle(threads)]
pub(crate) fn in_threads<R: Threads + Sync, X: Send + Drop, F: Fn() -> X + Sync>(
    rt: &R,
    alloc: Global,
    threads: usize,
    f: &F,
) -> Result<Vec<X>, AllocError>
    requires { F.pre f.now }
{
    if threads <= 1 {
        let mut one = Vec::new(alloc);
        one.push(f())?;
        return Ok(one);
    }
    let others = threads - 1;
    let (answer, answers) = join(
        rt,
        || -> X
            requires { IsSync F.row × IsSend X.row × F.pre f.now }
        { f() },
        || -> Result<Vec<X>, AllocError>
            requires { IsSync R.row × IsSync F.row × IsSend X.row × F.pre f.now }
        { in_threads(rt, alloc, others, f) },
    );
    let mut answers = answers?;
    answers.push(answer)?;
    Ok(answers)
}
