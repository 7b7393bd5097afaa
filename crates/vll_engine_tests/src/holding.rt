//! Tests of several steps under one hold.
ghost use Rattle.std.specs.Prelude.{◌≡◌, []};
ghost use Rattle.vll_check.specs.Calls.{Fits};
ghost use Rattle.vll_queue.specs.Pass.{IsReleased};
ghost use Rattle.vll_queue.specs.Shown.{library_of, name_of};
ghost use Rattle.vll_sca.specs.Placing.{placing};

use crate::asserts::{equal, fail, holds};
use crate::opening::opening;
use crate::playing::{
    begins_blocked, begins_free, bump_of, closed_of, closes, ends, finishes, is_given, last_of,
    output_of, put_back, releases, replies, started,
};
use std::alloc::Global;
use std::marker::Brand;
use std::process::Abort;
use std::sync::atomic::{AtomicU64, Ordering};
use std::sync::{Barrier, Wait};
use std::test::*;
use std::thread::{Threads, join};
use vll_core::{Line, Ticket};
use vll_engine::{
    Begun, BegunOnto, Engine, Hold, MOST_PASSES, Name, Opening, Passes, Released, Session,
};
use vll_proc::Call;
use vll_sca::Placing;

// Begins a call of the session's client under a hold. Returns its ticket if it is blocked; if it is free, its pass is
// the last of the list.
pub(crate) fn begins_under<N: Name, R: Abort>(
    rt: &R,
    hold: &mut Hold<'_, N, Placing>,
    passes: &mut Passes<N>,
    session: &mut Session,
    call: &Call,
) -> Option<Ticket>
    requires session { session.old.table ≡ N.engine.table }
    requires fits { Fits (library_of N.engine) call.now }
    ensures session { session.new.table ≡ N.engine.table }
{
    holds(rt, passes.len() < MOST_PASSES);
    match passes.begin(hold, session, call) {
        BegunOnto::Free => None,
        BegunOnto::Blocked(ticket) => Some(ticket),
        BegunOnto::Refused(_) => fail(rt, "the call is refused"),
    }
}

// Scans under a hold, and returns whether that has found a call, whose pass is then the last of the list.
pub(crate) fn scans<N: Name, R: Abort>(
    rt: &R,
    hold: &mut Hold<'_, N, Placing>,
    passes: &mut Passes<N>,
    may_be_put_off: bool,
) -> bool {
    holds(rt, passes.len() < MOST_PASSES);
    passes.next_scan(hold, may_be_put_off)
}

// Executes and releases the call of the last pass.
pub(crate) fn last_is_released<N: Name, R: Abort>(
    rt: &R,
    engine: &Engine<N, Placing>,
    passes: &mut Passes<N>,
) -> Released
    ensures { IsReleased N.engine result }
{
    match passes.run_last(engine) {
        Some(released) => released,
        None => fail(rt, "there is no pass"),
    }
}

// Completes the call of the last pass, which has this ticket and this output as its reply.
pub(crate) fn last_finishes<N: Name, R: Wait + Abort>(
    rt: &R,
    engine: &Engine<N, Placing>,
    passes: &mut Passes<N>,
    ticket: u32,
    output: u64,
) {
    equal(rt, passes.last(), Some(Ticket(ticket)));
    let released = last_is_released(rt, engine, passes);
    ends(rt, engine, released, output);
}

// No pass is left in the list, which is destroyed.
pub(crate) fn are_used_up<N: Name, R: Wait + Abort>(
    rt: &R,
    engine: &Engine<N, Placing>,
    mut passes: Passes<N>,
) {
    if let Some(released) = passes.run_last(engine) {
        engine.finish(rt, released);
        fail(rt, "a pass is left");
    }
    passes.destroy();
}

// Under one hold, finishes ticket 0, starts ticket 1 at the front, and begins ticket 2 on the record of ticket 0. Ticket
// 1 has the only pass.
fn steps_under_one_hold<N: Name, R: Wait + Abort>(
    rt: &R,
    engine: &Engine<N, Placing>,
    passes: &mut Passes<N>,
    session: &mut Session,
    zero: Released,
)
    requires session { session.old.table ≡ N.engine.table }
    requires zero { IsReleased N.engine zero }
    requires none { passes.old ≡ [] }
    ensures session { session.new.table ≡ N.engine.table }
{
    let next = bump_of(rt, engine.library(), 0);
    let mut hold = engine.hold(rt);
    let ticket = hold.finish(zero);
    let front = passes.next_front(&mut hold);
    let begun = begins_under(rt, &mut hold, passes, session, &next);
    let found = scans(rt, &mut hold, passes, false);
    drop(hold);
    equal(rt, ticket, Ticket(0));
    equal(rt, (front, found), (true, false));
    equal(rt, begun, Some(Ticket(2)));
}

// Ticket 0 is released and ticket 1 waits. After the steps under one hold, ticket 1 runs and ticket 2 waits for it.
fn works_under_one_hold<N: Name, R: Wait + Abort>(
    rt: &R,
    alloc: Global,
    opening: Opening<Placing>,
) -> Result<(), Fail>
    requires { N.engine ≡ name_of placing opening }
{
    let mut passes = Passes::<N>::new(alloc)?;
    let (engine, mut sessions) = started::<N>(opening);
    let mut session = last_of::<N>(rt, &mut sessions);
    let zero = begins_free(rt, &engine, &mut session, 0, 0);
    begins_blocked(rt, &engine, &mut session, 0, 1);
    let zero = releases(rt, &engine, zero);
    steps_under_one_hold(rt, &engine, &mut passes, &mut session, zero);
    replies(rt, &engine, &mut session, 0, Some(1));
    last_finishes(rt, &engine, &mut passes, 1, 2);
    are_used_up(rt, &engine, passes);
    let two = is_given::<N, R>(rt, engine.next_front(rt), 2);
    finishes(rt, &engine, two, 3);
    replies(rt, &engine, &mut session, 2, Some(3));
    put_back::<N>(rt, &mut sessions, session);
    closes(rt, engine, sessions, &[3], &[0, 0, 0]);
    Ok(())
}

#[test]
fn one_hold_finishes_looks_and_begins(rt: HostRuntime) -> Result<(), Fail> {
    let opening = opening(rt.alloc(), 1, 3, 8, 1)?;
    works_under_one_hold::<Brand, HostRuntime>(&rt, rt.alloc(), opening)
}

// How many pairs of bumps each of two clients makes.
const PAIRS: u32 = 500;

// Begins a client's bump of its record, which is free, and releases it.
fn begins<N: Name, R: Wait + Abort>(
    rt: &R,
    engine: &Engine<N, Placing>,
    session: &mut Session,
    record: u64,
) -> Released
    requires { session.old.table ≡ N.engine.table }
    ensures session { session.new.table ≡ N.engine.table }
    ensures released { IsReleased N.engine result }
{
    let call = bump_of(rt, engine.library(), record);
    match engine.begin(rt, session, &call) {
        Begun::Free(pass) => releases(rt, engine, pass),
        Begun::Blocked(_) | Begun::Refused(_) => fail(rt, "the call is not free"),
    }
}

// Under one hold, which excludes all other threads, finishes a released call and begins the next bump, which is free.
// Then releases it.
fn goes_on<N: Name, R: Wait + Abort>(
    rt: &R,
    engine: &Engine<N, Placing>,
    passes: &mut Passes<N>,
    session: &mut Session,
    record: u64,
    released: Released,
    holders: &AtomicU64,
) -> Released
    requires session { session.old.table ≡ N.engine.table }
    requires released { IsReleased N.engine released }
    ensures session { session.new.table ≡ N.engine.table }
    ensures released { IsReleased N.engine result }
{
    let call = bump_of(rt, engine.library(), record);
    let mut hold = engine.hold(rt);
    let others = holders.fetch_add(1, Ordering::SeqCst);
    hold.finish(released);
    let begun = begins_under(rt, &mut hold, passes, session, &call);
    holders.fetch_sub(1, Ordering::SeqCst);
    drop(hold);
    equal(rt, others, 0);
    equal(rt, begun, None);
    last_is_released(rt, engine, passes)
}

// Where two threads meet: before each pair of bumps the one that comes first waits for the other. The threads that have
// a hold are counted.
#[derive(Drop)]
struct Meeting {
    barrier: Barrier,
    holders: AtomicU64,
}

// Makes a client's pairs of bumps.
fn bumps<N: Name, R: Wait + Abort>(
    rt: &R,
    alloc: Global,
    engine: &Engine<N, Placing>,
    mut session: Session,
    record: u64,
    meeting: &Meeting,
)
    requires { session.table ≡ N.engine.table }
{
    let Ok(mut passes) = Passes::<N>::new(alloc) else {
        fail(rt, "there is no room for passes")
    };
    for _ in 0..PAIRS {
        meeting.barrier.wait(rt);
        let first = begins(rt, engine, &mut session, record);
        let second = goes_on(
            rt,
            engine,
            &mut passes,
            &mut session,
            record,
            first,
            &meeting.holders,
        );
        engine.finish(rt, second);
    }
    are_used_up(rt, engine, passes);
}

// Each bump replies the number of bumps its client has made by then. Whenever both have made a pair, neither is ahead.
fn are_made_in_turn(rt: &impl Abort, lines: &[Line]) {
    let mut zero: u64 = 0;
    let mut one: u64 = 0;
    for (index, line) in lines.iter().enumerate() {
        let output = line.reply.as_ref().and_then(output_of);
        if line.client == 0 {
            zero = zero.saturating_add(1);
            equal(rt, output, Some(zero));
        } else {
            one = one.saturating_add(1);
            equal(rt, output, Some(one));
        }
        if index % 4 == 3 {
            equal(rt, zero, one);
        }
    }
}

// Two threads bump a record each, pair by pair, and then the engine is closed.
fn bumps_by_two_threads<N: Name + Send + Sync, R: Wait + Threads + Abort + Sync>(
    rt: &R,
    alloc: Global,
    opening: Opening<Placing>,
)
    requires { N.engine ≡ name_of placing opening }
{
    let (engine, mut sessions) = started::<N>(opening);
    let one = last_of::<N>(rt, &mut sessions);
    let zero = last_of::<N>(rt, &mut sessions);
    let meeting = Meeting {
        barrier: Barrier::new(2),
        holders: AtomicU64::new(0),
    };
    let met = &meeting;
    let engine_now = &engine;
    join(
        rt,
        move || -> ()
            requires { zero.table ≡ N.engine.table }
        { bumps(rt, alloc, engine_now, zero, 0, met) },
        move || -> ()
            requires { one.table ≡ N.engine.table }
        { bumps(rt, alloc, engine_now, one, 1, met) },
    );
    let closed = closed_of(rt, engine, sessions);
    let bumped = 2 * PAIRS as u64;
    equal(rt, closed.records.as_slice(), [bumped, bumped].as_slice());
    equal(rt, closed.journal.len(), 4 * PAIRS as usize);
    are_made_in_turn(rt, closed.journal.as_slice());
}

#[test]
fn threads_hold_the_lock_in_turn(rt: HostRuntime) -> Result<(), Fail> {
    let opening = opening(rt.alloc(), 2, 4 * PAIRS, 1, 2)?;
    bumps_by_two_threads::<Brand, HostRuntime>(&rt, rt.alloc(), opening);
    Ok(())
}
