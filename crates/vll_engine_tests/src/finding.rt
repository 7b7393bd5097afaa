//! Tests of what a call with an indirect key finds as it begins.
ghost use Rattle.std.specs.Prelude.{◌≡◌};
ghost use Rattle.vll_queue.specs.Pass.{IsFresh, IsReleased};
ghost use Rattle.vll_queue.specs.Shown.{name_of};
ghost use Rattle.vll_sca.specs.Placing.{placing};

use crate::asserts::{equal, holds};
use crate::holding::{are_used_up, begins_under, last_finishes};
use crate::opening::opening_over;
use crate::playing::{
    begins_free, call_is_blocked, call_is_free, call_of, closes, ends, finishes, is_given, last_of,
    releases, replies, started,
};
use std::alloc::Global;
use std::marker::Brand;
use std::process::Abort;
use std::sync::Wait;
use std::test::*;
use vll_core::Ticket;
use vll_engine::{Engine, Name, Opening, Pass, Passes, Released, Session};
use vll_proc::{Reason, Reply};
use vll_sca::Placing;

// The session was given the reply of a bump, and then finds by the value that the bump has stored.
fn finds_the_bumped_value<N: Name, R: Wait + Abort>(rt: &R, opening: Opening<Placing>)
    requires { N.engine ≡ name_of placing opening }
{
    let (engine, mut sessions) = started::<N>(opening);
    let mut session = last_of::<N>(rt, &mut sessions);
    let bump = begins_free(rt, &engine, &mut session, 0, 0);
    finishes(rt, &engine, bump, 2);
    replies(rt, &engine, &mut session, 0, Some(2));
    let via = call_is_free(rt, &engine, &mut session, "via", 0, 1);
    finishes(rt, &engine, via, 21);
    closes(rt, engine, sessions, &[2, 10, 21], &[0, 0]);
}

#[test]
fn begin_finds_by_the_value_of_a_call_that_is_finished(rt: HostRuntime) -> Result<(), Fail> {
    let opening = opening_over(rt.alloc(), [1, 10, 20], 2, 1)?;
    finds_the_bumped_value::<Brand, HostRuntime>(&rt, opening);
    Ok(())
}

// Executes, releases and finishes the call of a pass, which is aborted since its source has moved.
fn is_moved<N: Name, R: Wait + Abort>(rt: &R, engine: &Engine<N, Placing>, pass: Pass)
    requires { IsFresh N.engine pass }
{
    let released = releases(rt, engine, pass);
    let (_, reply) = engine.finish(rt, released);
    holds(rt, matches!(reply, Reply::Aborted(Reason::Moved)));
}

// A bump runs while a call finds by its record, which it changes before that call runs.
fn moved_source_aborts<N: Name, R: Wait + Abort>(rt: &R, opening: Opening<Placing>)
    requires { N.engine ≡ name_of placing opening }
{
    let (engine, mut sessions) = started::<N>(opening);
    let mut session = last_of::<N>(rt, &mut sessions);
    let bump = begins_free(rt, &engine, &mut session, 0, 0);
    call_is_blocked(rt, &engine, &mut session, "via", 0, 1);
    finishes(rt, &engine, bump, 2);
    let via = is_given::<N, R>(rt, engine.next_front(rt), 1);
    is_moved(rt, &engine, via);
    closes(rt, engine, sessions, &[2, 10, 20], &[0, 0]);
}

#[test]
fn call_is_aborted_if_its_source_has_moved(rt: HostRuntime) -> Result<(), Fail> {
    let opening = opening_over(rt.alloc(), [1, 10, 20], 2, 1)?;
    moved_source_aborts::<Brand, HostRuntime>(&rt, opening);
    Ok(())
}

// Under one hold, begins a call that finds by record 0 and waits, then executes the bump of that record, and begins
// another call that finds by it, which has the only pass. Returns the released bump.
fn begins_before_and_after_a_store<N: Name, R: Wait + Abort>(
    rt: &R,
    engine: &Engine<N, Placing>,
    passes: &mut Passes<N>,
    session: &mut Session,
    bump: Pass,
) -> Released
    requires session { session.old.table ≡ N.engine.table }
    requires bump { IsFresh N.engine bump }
    ensures session { session.new.table ≡ N.engine.table }
    ensures released { IsReleased N.engine result }
{
    let via = call_of(rt, engine.library(), "via", 0);
    let mut hold = engine.hold(rt);
    let before = begins_under(rt, &mut hold, passes, session, &via);
    let bump = releases(rt, engine, bump);
    let after = begins_under(rt, &mut hold, passes, session, &via);
    drop(hold);
    equal(rt, before, Some(Ticket(1)));
    equal(rt, after, None);
    bump
}

// The call begun before the store has found 1 and is aborted, and the one begun after it has found 2.
fn finds_under_a_hold<N: Name, R: Wait + Abort>(
    rt: &R,
    alloc: Global,
    opening: Opening<Placing>,
) -> Result<(), Fail>
    requires { N.engine ≡ name_of placing opening }
{
    let mut passes = Passes::<N>::new(alloc)?;
    let (engine, mut sessions) = started::<N>(opening);
    let mut session = last_of::<N>(rt, &mut sessions);
    let bump = begins_free(rt, &engine, &mut session, 0, 0);
    let bump = begins_before_and_after_a_store(rt, &engine, &mut passes, &mut session, bump);
    last_finishes(rt, &engine, &mut passes, 2, 21);
    are_used_up(rt, &engine, passes);
    ends(rt, &engine, bump, 2);
    let one = is_given::<N, R>(rt, engine.next_front(rt), 1);
    is_moved(rt, &engine, one);
    closes(rt, engine, sessions, &[2, 10, 21], &[0, 0, 0]);
    Ok(())
}

#[test]
fn call_under_a_hold_finds_what_is_stored_as_it_begins(rt: HostRuntime) -> Result<(), Fail> {
    let opening = opening_over(rt.alloc(), [1, 10, 20], 3, 1)?;
    finds_under_a_hold::<Brand, HostRuntime>(&rt, rt.alloc(), opening)
}
