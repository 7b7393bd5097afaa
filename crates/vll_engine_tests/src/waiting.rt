//! Tests of scans that are put off while many calls wait.
ghost use Rattle.std.specs.Prelude.{◌≡◌, ◌≤◌};
ghost use Rattle.vll_queue.specs.Shown.{name_of};
ghost use Rattle.vll_sca.specs.Placing.{placing};

use crate::asserts::{equal, holds};
use crate::holding::{are_used_up, last_finishes, last_is_released, scans};
use crate::opening::opening;
use crate::playing::{
    begins_blocked, begins_free, closed_of, ends, finishes, is_given, last_of, started,
};
use std::alloc::Global;
use std::marker::Brand;
use std::process::Abort;
use std::sync::Wait;
use std::test::*;
use vll_core::Ticket;
use vll_engine::{Engine, Name, Opening, Passes, Session};
use vll_sca::Placing;

// `many` bumps of record 0 are blocked, under the tickets from `from` on.
fn begins_many<N: Name, R: Wait + Abort>(
    rt: &R,
    engine: &Engine<N, Placing>,
    session: Session,
    from: u32,
    many: u16,
) -> Session
    requires few { from ≤ 8 }
    requires session { session.table ≡ N.engine.table }
    ensures { result.table ≡ N.engine.table }
{
    let mut session = session;
    for ticket in from..from + u32::from(many) {
        begins_blocked(rt, engine, &mut session, 0, ticket);
    }
    session
}

// Those bumps run one after the other, each at the front.
fn finishes_many<N: Name, R: Wait + Abort>(
    rt: &R,
    engine: &Engine<N, Placing>,
    from: u32,
    many: u16,
)
    requires { from ≤ 8 }
{
    for index in 0..u32::from(many) {
        let pass = is_given::<N, R>(rt, engine.next_front(rt), from + index);
        finishes(rt, engine, pass, u64::from(index) + 2);
    }
}

// A scan is put off `times` times in a row.
fn are_put_off<N: Name, R: Wait + Abort>(
    rt: &R,
    engine: &Engine<N, Placing>,
    passes: &mut Passes<N>,
    times: u8,
) {
    for _ in 0..times {
        holds(rt, !scans(rt, &mut engine.hold(rt), passes, true));
    }
}

// Tickets 0 and 1 run, `many` calls wait for record 0, and the last one for record 1. A scan finds none. Then ticket 1
// is gone, and the last call may run. The scan is put off `times` times, and then finds it.
fn scans_after_some_are_put_off<N: Name, R: Wait + Abort>(
    rt: &R,
    alloc: Global,
    opening: Opening<Placing>,
    many: u16,
    times: u8,
    may_be_put_off: bool,
) -> Result<(), Fail>
    requires { N.engine ≡ name_of placing opening }
{
    let mut passes = Passes::<N>::new(alloc)?;
    let (engine, mut sessions) = started::<N>(opening);
    let mut session = last_of::<N>(rt, &mut sessions);
    let zero = begins_free(rt, &engine, &mut session, 0, 0);
    let one = begins_free(rt, &engine, &mut session, 1, 1);
    let mut session = begins_many(rt, &engine, session, 2, many);
    let last = 2 + u32::from(many);
    begins_blocked(rt, &engine, &mut session, 1, last);
    are_put_off(rt, &engine, &mut passes, 1);
    finishes(rt, &engine, one, 1);
    are_put_off(rt, &engine, &mut passes, times);
    holds(
        rt,
        scans(rt, &mut engine.hold(rt), &mut passes, may_be_put_off),
    );
    last_finishes(rt, &engine, &mut passes, last, 2);
    are_used_up(rt, &engine, passes);
    finishes(rt, &engine, zero, 1);
    finishes_many(rt, &engine, 2, many);
    let closed = closed_of(rt, engine, sessions);
    let value = u64::from(many) + 1;
    equal(rt, closed.records.as_slice(), [value, 2].as_slice());
    Ok(())
}

// While fewer than 64 calls wait, no scan is put off. If 64 or more wait, each of them adds 1 to the debt, a finished
// call pays off 8, and each scan that is put off 64, until less than 64 is owed. A scan that may not be put off is not.
#[test]
fn scan_is_put_off_for_so_long(rt: HostRuntime) -> Result<(), Fail> {
    for (many, times, may_be_put_off) in [
        (9, 0, true),
        (40, 0, true),
        (72, 1, true),
        (81, 1, true),
        (1_000, 15, true),
        (1_000, 3, false),
    ] {
        let calls = u32::from(many) + 3;
        let opening = opening(rt.alloc(), 2, calls, calls, 1)?;
        scans_after_some_are_put_off::<Brand, HostRuntime>(
            &rt,
            rt.alloc(),
            opening,
            many,
            times,
            may_be_put_off,
        )?;
    }
    Ok(())
}

// Two calls run on records of their own, each with one that waits for it, and 81 wait for record 0. Once both are gone,
// each scan finds one: a scan that finds a call adds no debt.
fn scans_twice_in_a_row<N: Name, R: Wait + Abort>(
    rt: &R,
    alloc: Global,
    opening: Opening<Placing>,
) -> Result<(), Fail>
    requires { N.engine ≡ name_of placing opening }
{
    let mut passes = Passes::<N>::new(alloc)?;
    let (engine, mut sessions) = started::<N>(opening);
    let mut session = last_of::<N>(rt, &mut sessions);
    let zero = begins_free(rt, &engine, &mut session, 0, 0);
    let one = begins_free(rt, &engine, &mut session, 1, 1);
    let two = begins_free(rt, &engine, &mut session, 2, 2);
    begins_blocked(rt, &engine, &mut session, 1, 3);
    begins_blocked(rt, &engine, &mut session, 2, 4);
    let _session = begins_many(rt, &engine, session, 5, 81);
    finishes(rt, &engine, one, 1);
    finishes(rt, &engine, two, 1);
    for ticket in [3, 4] {
        holds(rt, scans(rt, &mut engine.hold(rt), &mut passes, true));
        equal(rt, passes.last(), Some(Ticket(ticket)));
    }
    for _ in 0..2 {
        let released = last_is_released(rt, &engine, &mut passes);
        ends(rt, &engine, released, 2);
    }
    are_used_up(rt, &engine, passes);
    finishes(rt, &engine, zero, 1);
    finishes_many(rt, &engine, 5, 81);
    let closed = closed_of(rt, engine, sessions);
    equal(rt, closed.records.as_slice(), [82, 2, 2].as_slice());
    Ok(())
}

#[test]
fn scan_that_finds_a_call_puts_none_off(rt: HostRuntime) -> Result<(), Fail> {
    let opening = opening(rt.alloc(), 3, 86, 86, 1)?;
    scans_twice_in_a_row::<Brand, HostRuntime>(&rt, rt.alloc(), opening)
}
