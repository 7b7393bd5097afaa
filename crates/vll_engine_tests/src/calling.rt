//! Tests of calls from entry to reply.
ghost use Rattle.std.specs.Prelude.{◌≡◌};
ghost use Rattle.vll_queue.specs.Shown.{name_of};
ghost use Rattle.vll_sca.specs.Placing.{placing};

use crate::asserts::{equal, fail, holds};
use crate::opening::opening;
use crate::playing::{
    begins_blocked, begins_free, bump_of, closed_of, closes, finishes, last_client, last_of,
    output_of, releases,
};
use std::marker::Brand;
use std::process::Abort;
use std::sync::Wait;
use std::sync::atomic::{AtomicBool, Ordering};
use std::test::*;
use std::thread::{Threads, join, yield_now};
use vll_core::{Line, Ticket};
use vll_engine::{BeginRefusal, Begun, Client, Engine, EngineSpent, Name, Opening, Session};
use vll_sca::Placing;

// Makes a client's bump of a record. Returns its ticket and its output.
fn bumps<N: Name, R: Wait + Abort>(
    rt: &R,
    engine: &Engine<N, Placing>,
    client: &mut Client<N>,
    record: u64,
) -> (Ticket, u64) {
    let call = bump_of(rt, engine.library(), record);
    match client.make(rt, engine, &call) {
        Ok((ticket, reply)) => (ticket, output_of(&reply).unwrap_or(0)),
        Err(EngineSpent) => fail(rt, "the engine is spent"),
    }
}

// The number of bumps each of two threads makes.
const BUMPS: u32 = 1_000;

// Makes a client's bumps of one record. Each replies more than the one before.
fn bumps_often<N: Name, R: Wait + Abort>(
    rt: &R,
    engine: &Engine<N, Placing>,
    mut client: Client<N>,
) {
    let mut before: u64 = 0;
    for _ in 0..BUMPS {
        let (ticket, output) = bumps(rt, engine, &mut client, 0);
        holds(rt, before < output);
        equal(rt, u64::from(ticket.0) + 1, output);
        before = output;
    }
}

// The calls reply 1, 2 and so on, each once.
fn reply_in_turn(rt: &impl Abort, lines: &[Line]) {
    let mut wanted: u64 = 0;
    for line in lines {
        wanted = wanted.saturating_add(1);
        equal(rt, line.reply.as_ref().and_then(output_of), Some(wanted));
    }
}

fn two_threads_bump<N: Name + Send + Sync, R: Wait + Threads + Abort + Sync>(
    rt: &R,
    opening: Opening<Placing>,
)
    requires { N.engine ≡ name_of placing opening }
{
    let (engine, mut clients) = opening.start_clients::<N>();
    let one = last_client(rt, &mut clients);
    let zero = last_client(rt, &mut clients);
    let engine_now = &engine;
    join(
        rt,
        move || bumps_often(rt, engine_now, zero),
        move || bumps_often(rt, engine_now, one),
    );
    let closed = closed_of(rt, engine, clients.into_sessions());
    let bumped = 2 * BUMPS as u64;
    equal(rt, closed.records.as_slice(), [bumped].as_slice());
    equal(rt, closed.journal.len(), 2 * BUMPS as usize);
    reply_in_turn(rt, closed.journal.as_slice());
}

#[test]
fn two_threads_call_until_each_has_its_reply(rt: HostRuntime) -> Result<(), Fail> {
    let opening = opening(rt.alloc(), 1, 2 * BUMPS, 8, 2)?;
    two_threads_bump::<Brand, HostRuntime>(&rt, opening);
    Ok(())
}

// One call waits when the third is made, as many as the cap: the third call's thread brings both to their end.
fn helps_in_a_full_queue<N: Name, R: Wait + Abort>(rt: &R, opening: Opening<Placing>)
    requires { N.engine ≡ name_of placing opening }
{
    let (engine, mut clients) = opening.start_clients::<N>();
    let mut client = last_client(rt, &mut clients);
    let mut sessions = clients.into_sessions();
    let mut session = last_of::<N>(rt, &mut sessions);
    let zero = begins_free(rt, &engine, &mut session, 0, 0);
    begins_blocked(rt, &engine, &mut session, 0, 1);
    finishes(rt, &engine, zero, 1);
    equal(rt, bumps(rt, &engine, &mut client, 0), (Ticket(2), 3));
    closes(rt, engine, sessions, &[3], &[0, 0, 1]);
}

#[test]
fn call_that_meets_a_full_queue_helps(rt: HostRuntime) -> Result<(), Fail> {
    let opening = opening(rt.alloc(), 1, 3, 1, 2)?;
    helps_in_a_full_queue::<Brand, HostRuntime>(&rt, opening);
    Ok(())
}

// Ticket 0 keeps running. Behind it waits a call that only the scan finds: a call that meets a full queue, or waits for
// that one, brings it to its end.
fn helps_by_a_scan<N: Name, R: Wait + Abort>(rt: &R, opening: Opening<Placing>)
    requires { N.engine ≡ name_of placing opening }
{
    let (engine, mut clients) = opening.start_clients::<N>();
    let mut client = last_client(rt, &mut clients);
    let mut sessions = clients.into_sessions();
    let mut session = last_of::<N>(rt, &mut sessions);
    let zero = begins_free(rt, &engine, &mut session, 0, 0);
    let one = begins_free(rt, &engine, &mut session, 1, 1);
    begins_blocked(rt, &engine, &mut session, 1, 2);
    finishes(rt, &engine, one, 1);
    equal(rt, bumps(rt, &engine, &mut client, 1), (Ticket(3), 3));
    finishes(rt, &engine, zero, 1);
    closes(rt, engine, sessions, &[1, 3], &[0, 0, 0, 1]);
}

// Without the scan the call would wait for ever.
#[test]
fn call_that_waits_scans(rt: HostRuntime) -> Result<(), Fail> {
    for cap in [1, 2] {
        let opening = opening(rt.alloc(), 2, 4, cap, 2)?;
        helps_by_a_scan::<Brand, HostRuntime>(&rt, opening);
    }
    Ok(())
}

fn is_spent<N: Name, R: Wait + Abort>(rt: &R, opening: Opening<Placing>)
    requires { N.engine ≡ name_of placing opening }
{
    let (engine, mut clients) = opening.start_clients::<N>();
    let mut client = last_client(rt, &mut clients);
    equal(rt, bumps(rt, &engine, &mut client, 0), (Ticket(0), 1));
    let call = bump_of(rt, engine.library(), 0);
    holds(rt, client.make(rt, &engine, &call).is_err());
    closes(rt, engine, clients.into_sessions(), &[1], &[0]);
}

#[test]
fn second_call_of_one_is_spent(rt: HostRuntime) -> Result<(), Fail> {
    let opening = opening(rt.alloc(), 1, 1, 1, 1)?;
    is_spent::<Brand, HostRuntime>(&rt, opening);
    Ok(())
}

// The number of hot records, and of bumps of them that each of four threads makes.
const HOT: u32 = 10;

const HOT_BUMPS: u32 = 500;

// Makes a client's bumps of the hot records in turn.
fn bumps_the_hot<N: Name, R: Wait + Abort>(
    rt: &R,
    engine: &Engine<N, Placing>,
    mut client: Client<N>,
) {
    for index in 0..HOT_BUMPS {
        bumps(rt, engine, &mut client, u64::from(index % HOT));
    }
}

// Makes two clients' bumps of the hot records, each client in a thread.
fn two_bump_the_hot<N: Name + Send + Sync, R: Wait + Threads + Abort + Sync>(
    rt: &R,
    engine: &Engine<N, Placing>,
    one: Client<N>,
    other: Client<N>,
) {
    join(
        rt,
        move || bumps_the_hot(rt, engine, one),
        move || bumps_the_hot(rt, engine, other),
    );
}

fn four_bump_the_hot<N: Name + Send + Sync, R: Wait + Threads + Abort + Sync>(
    rt: &R,
    opening: Opening<Placing>,
)
    requires { N.engine ≡ name_of placing opening }
{
    let (engine, mut clients) = opening.start_clients::<N>();
    let three = last_client(rt, &mut clients);
    let two = last_client(rt, &mut clients);
    let one = last_client(rt, &mut clients);
    let zero = last_client(rt, &mut clients);
    let engine_now = &engine;
    join(
        rt,
        move || two_bump_the_hot(rt, engine_now, zero, one),
        move || two_bump_the_hot(rt, engine_now, two, three),
    );
    let closed = closed_of(rt, engine, clients.into_sessions());
    let each = u64::from(4 * HOT_BUMPS / HOT);
    equal(rt, closed.records.len(), HOT as usize);
    for record in closed.records.as_slice() {
        equal(rt, *record, each);
    }
}

#[test]
fn four_threads_call_on_ten_records(rt: HostRuntime) -> Result<(), Fail> {
    let opening = opening(rt.alloc(), HOT, 4 * HOT_BUMPS, 8, 4)?;
    four_bump_the_hot::<Brand, HostRuntime>(&rt, opening);
    Ok(())
}

// How often a thread looks whether the other one's call waits, and how many times it yields to others before each look
// and before it gives up its pass.
const MOST_LOOKS: u32 = 10_000;

const TURNS: u32 = 100;

// Lets others run for a while.
fn lets_others_run() {
    for _ in 0..TURNS {
        yield_now();
    }
}

// Whether a call waits, if the cap is 1: the bump of a record is refused then, otherwise it is made.
fn is_one_waiting<N: Name, R: Wait + Abort>(
    rt: &R,
    engine: &Engine<N, Placing>,
    session: &mut Session,
    record: u64,
) -> bool
    requires { session.old.table ≡ N.engine.table }
    ensures { session.new.table ≡ N.engine.table }
{
    let call = bump_of(rt, engine.library(), record);
    match engine.begin(rt, session, &call) {
        Begun::Free(pass) => {
            let released = releases(rt, engine, pass);
            engine.finish(rt, released);
            false
        }
        Begun::Blocked(_) => fail(rt, "the call is blocked"),
        Begun::Refused(why) => {
            equal(rt, why, BeginRefusal::Busy);
            true
        }
    }
}

// Returns once the other client's call waits.
fn waits_until_one_waits<N: Name, R: Wait + Abort>(
    rt: &R,
    engine: &Engine<N, Placing>,
    session: Session,
)
    requires { session.table ≡ N.engine.table }
{
    let mut session = session;
    for _ in 0..MOST_LOOKS {
        lets_others_run();
        if is_one_waiting(rt, engine, &mut session, 1) {
            return;
        }
    }
    fail(rt, "no call waits")
}

// Begins a client's bump of record 0, and keeps its pass until the other client's call has been seen to wait for a
// while.
fn keeps_its_pass<N: Name, R: Wait + Abort>(
    rt: &R,
    engine: &Engine<N, Placing>,
    session: Session,
    is_kept: &AtomicBool,
    is_let_go: &AtomicBool,
)
    requires { session.table ≡ N.engine.table }
{
    let mut session = session;
    let pass = begins_free(rt, engine, &mut session, 0, 0);
    is_kept.store(true, Ordering::SeqCst);
    waits_until_one_waits(rt, engine, session);
    lets_others_run();
    is_let_go.store(true, Ordering::SeqCst);
    finishes(rt, engine, pass, 1);
}

// Makes the other client's bump of record 0 once the pass is kept. It gets its reply only after the pass is given up.
fn waits_for_the_pass<N: Name, R: Wait + Abort>(
    rt: &R,
    engine: &Engine<N, Placing>,
    mut client: Client<N>,
    is_kept: &AtomicBool,
    is_let_go: &AtomicBool,
) {
    for _ in rt.forever() {
        if is_kept.load(Ordering::SeqCst) {
            break;
        }
        yield_now();
    }
    let (_, output) = bumps(rt, engine, &mut client, 0);
    holds(rt, is_let_go.load(Ordering::SeqCst));
    equal(rt, output, 2);
}

fn one_keeps_and_one_waits<N: Name + Send + Sync, R: Wait + Threads + Abort + Sync>(
    rt: &R,
    opening: Opening<Placing>,
)
    requires { N.engine ≡ name_of placing opening }
{
    let (engine, mut clients) = opening.start_clients::<N>();
    let one = last_client(rt, &mut clients);
    let mut sessions = clients.into_sessions();
    let zero = last_of::<N>(rt, &mut sessions);
    let is_kept = AtomicBool::new(false);
    let is_let_go = AtomicBool::new(false);
    let kept = &is_kept;
    let let_go = &is_let_go;
    let engine_now = &engine;
    join(
        rt,
        move || -> ()
            requires { zero.table ≡ N.engine.table }
        { keeps_its_pass(rt, engine_now, zero, kept, let_go) },
        move || waits_for_the_pass(rt, engine_now, one, kept, let_go),
    );
    let closed = closed_of(rt, engine, sessions);
    equal(rt, closed.records.as_slice().first().copied(), Some(2));
}

// A call waits for a pass that another thread keeps, and cannot help with it.
#[test]
fn call_waits_for_a_pass_that_is_kept(rt: HostRuntime) -> Result<(), Fail> {
    let opening = opening(rt.alloc(), 2, MOST_LOOKS + 2, 1, 2)?;
    one_keeps_and_one_waits::<Brand, HostRuntime>(&rt, opening);
    Ok(())
}
