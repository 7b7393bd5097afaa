//! Tests of when a call with an indirect key finds its record: before it asks for the lock if it is begun, and under the
//! lock if it is made.
ghost use Rattle.std.specs.Prelude.{◌≡◌};
ghost use Rattle.vll_queue.specs.Shown.{name_of};
ghost use Rattle.vll_sca.specs.Placing.{placing};

use crate::asserts::{equal, fail};
use crate::opening::opening_over;
use crate::playing::{
    begins_free, call_of, ends, last_client, last_of, output_of, releases, started,
};
use std::marker::Brand;
use std::process::Abort;
use std::sync::Wait;
use std::sync::atomic::{AtomicBool, Ordering};
use std::test::*;
use std::thread::{Threads, join, yield_now};
use vll_engine::{Begun, Client, Engine, EngineSpent, Name, Opening, Session};
use vll_proc::{Reason, Reply};
use vll_sca::Placing;

// How often a thread yields to others while it keeps a hold.
const MOST_TURNS: u32 = 2_000;

// How far two threads have got.
#[derive(Drop)]
struct Progress {
    // One thread keeps a hold.
    is_held: AtomicBool,
    // The other one is about to begin a call.
    is_near: AtomicBool,
}

impl Progress {
    fn new() -> Progress {
        Progress {
            is_held: AtomicBool::new(false),
            is_near: AtomicBool::new(false),
        }
    }
}

// Executes and releases a bump of record 0, which is 1, under a hold: a while after another thread is about to begin a
// call.
fn bumps_under_a_hold<N: Name, R: Wait + Abort>(
    rt: &R,
    engine: &Engine<N, Placing>,
    session: Session,
    progress: &Progress,
)
    requires { session.table ≡ N.engine.table }
{
    let mut session = session;
    let bump = begins_free(rt, engine, &mut session, 0, 0);
    let hold = engine.hold(rt);
    progress.is_held.store(true, Ordering::SeqCst);
    for _ in 0..MOST_TURNS {
        if progress.is_near.load(Ordering::SeqCst) {
            break;
        }
        yield_now();
    }
    for _ in 0..MOST_TURNS {
        yield_now();
    }
    let released = releases(rt, engine, bump);
    drop(hold);
    ends(rt, engine, released, 2);
}

// Returns once another thread keeps the hold, and reports that a call is about to begin.
fn comes_near<R: Wait>(rt: &R, progress: &Progress) {
    for _ in rt.forever() {
        if progress.is_held.load(Ordering::SeqCst) {
            break;
        }
        yield_now();
    }
    progress.is_near.store(true, Ordering::SeqCst);
}

// Begins, during that hold, a call that finds by record 0. Returns its reply.
fn begins_beside_a_hold<N: Name, R: Wait + Abort>(
    rt: &R,
    engine: &Engine<N, Placing>,
    session: Session,
    progress: &Progress,
) -> Reply
    requires { session.table ≡ N.engine.table }
{
    let mut session = session;
    let via = call_of(rt, engine.library(), "via", 0);
    comes_near(rt, progress);
    match engine.begin(rt, &mut session, &via) {
        Begun::Free(pass) => {
            let released = releases(rt, engine, pass);
            engine.finish(rt, released).1
        }
        Begun::Blocked(_) | Begun::Refused(_) => fail(rt, "the call is not free"),
    }
}

// Record 0 becomes 2 under a hold, while another thread begins a call that finds by it. Returns whether that call has
// found the earlier 1.
fn finds_beside_a_hold<N: Name + Send + Sync, R: Wait + Threads + Abort + Sync>(
    rt: &R,
    opening: Opening<Placing>,
) -> bool
    requires { N.engine ≡ name_of placing opening }
{
    let (engine, mut sessions) = started::<N>(opening);
    let other = last_of::<N>(rt, &mut sessions);
    let own = last_of::<N>(rt, &mut sessions);
    let progress = Progress::new();
    let (engine_now, so_far) = (&engine, &progress);
    let (reply, ()) = join(
        rt,
        move || -> Reply
            requires { other.table ≡ N.engine.table }
        { begins_beside_a_hold(rt, engine_now, other, so_far) },
        move || -> ()
            requires { own.table ≡ N.engine.table }
        { bumps_under_a_hold(rt, engine_now, own, so_far) },
    );
    if let Reply::Aborted(Reason::Moved) = reply {
        return true;
    }
    equal(rt, output_of(&reply), Some(21));
    false
}

// The number of tries. The other thread may be late, and then finds what the bump has stored; a call that finds under
// the lock always does.
const MOST_TRIES: u32 = 100;

#[test]
fn begin_finds_ahead_of_the_lock(rt: HostRuntime) -> Result<(), Fail> {
    for _ in 0..MOST_TRIES {
        let opening = opening_over(rt.alloc(), [1, 10, 20], 2, 2)?;
        if finds_beside_a_hold::<Brand, HostRuntime>(&rt, opening) {
            return Ok(());
        }
    }
    Err(Fail::new("no call has found what was there before the hold"))
}

// Makes, during that hold, a call that finds by record 0. Returns its reply.
fn makes_beside_a_hold<N: Name, R: Wait + Abort>(
    rt: &R,
    engine: &Engine<N, Placing>,
    mut client: Client<N>,
    progress: &Progress,
) -> Reply {
    let via = call_of(rt, engine.library(), "via", 0);
    comes_near(rt, progress);
    match client.make(rt, engine, &via) {
        Ok((_, reply)) => reply,
        Err(EngineSpent) => fail(rt, "the engine is spent"),
    }
}

// Record 0 becomes 2 under a hold, while another thread makes a call that finds by it: that call finds the 2.
fn makes_behind_a_hold<N: Name + Send + Sync, R: Wait + Threads + Abort + Sync>(
    rt: &R,
    opening: Opening<Placing>,
)
    requires { N.engine ≡ name_of placing opening }
{
    let (engine, mut clients) = opening.start_clients::<N>();
    let other = last_client(rt, &mut clients);
    let mut sessions = clients.into_sessions();
    let own = last_of::<N>(rt, &mut sessions);
    let progress = Progress::new();
    let (engine_now, so_far) = (&engine, &progress);
    let (reply, ()) = join(
        rt,
        move || makes_beside_a_hold(rt, engine_now, other, so_far),
        move || -> ()
            requires { own.table ≡ N.engine.table }
        { bumps_under_a_hold(rt, engine_now, own, so_far) },
    );
    equal(rt, output_of(&reply), Some(21));
}

// A call that found before it asked for the lock would be aborted in some of these tries.
#[test]
fn call_that_is_made_finds_under_the_lock(rt: HostRuntime) -> Result<(), Fail> {
    for _ in 0..MOST_TRIES {
        let opening = opening_over(rt.alloc(), [1, 10, 20], 2, 2)?;
        makes_behind_a_hold::<Brand, HostRuntime>(&rt, opening);
    }
    Ok(())
}
