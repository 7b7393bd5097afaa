//! Tests of closing, with and without calls that run or wait.
ghost use Rattle.std.specs.Prelude.{◌≡◌};
ghost use Rattle.vll_queue.specs.Shown.{name_of};
ghost use Rattle.vll_sca.specs.Placing.{placing};

use crate::asserts::equal;
use crate::opening::opening;
use crate::playing::{
    begins_blocked, begins_free, closes, ends, finishes, is_given, is_not_given, last_of, put_back,
    releases, replies, started, stays_open,
};
use std::marker::Brand;
use std::process::Abort;
use std::sync::Wait;
use std::test::*;
use vll_engine::{Name, Opening};
use vll_sca::Placing;

fn closes_once_nothing_is_left<N: Name, R: Wait + Abort>(rt: &R, opening: Opening<Placing>)
    requires { N.engine ≡ name_of placing opening }
{
    let (engine, mut sessions) = started::<N>(opening);
    let mut session = last_of::<N>(rt, &mut sessions);
    let first = begins_free(rt, &engine, &mut session, 0, 0);
    begins_blocked(rt, &engine, &mut session, 0, 1);
    let (engine, sessions) = stays_open(rt, engine, sessions, 1, 1);
    finishes(rt, &engine, first, 1);
    let (engine, mut sessions) = stays_open(rt, engine, sessions, 0, 1);
    equal(rt, sessions.len(), 1);
    let second = is_given::<N, R>(rt, engine.next_front(rt), 1);
    finishes(rt, &engine, second, 2);
    put_back::<N>(rt, &mut sessions, session);
    closes(rt, engine, sessions, &[2], &[1, 1]);
}

#[test]
fn close_hands_all_back_while_calls_are_left(rt: HostRuntime) -> Result<(), Fail> {
    let opening = opening(rt.alloc(), 1, 2, 8, 2)?;
    closes_once_nothing_is_left::<Brand, HostRuntime>(&rt, opening);
    Ok(())
}

// A call runs and none waits: the engine stays open while its pass is out; then the pass is consumed.
fn closes_once_the_pass_is_spent<N: Name, R: Wait + Abort>(rt: &R, opening: Opening<Placing>)
    requires { N.engine ≡ name_of placing opening }
{
    let (engine, mut sessions) = started::<N>(opening);
    let mut session = last_of::<N>(rt, &mut sessions);
    let pass = begins_free(rt, &engine, &mut session, 0, 0);
    let (engine, mut sessions) = stays_open(rt, engine, sessions, 1, 0);
    finishes(rt, &engine, pass, 1);
    put_back::<N>(rt, &mut sessions, session);
    closes(rt, engine, sessions, &[1], &[0]);
}

#[test]
fn close_waits_for_a_pass_that_is_out(rt: HostRuntime) -> Result<(), Fail> {
    let opening = opening(rt.alloc(), 1, 1, 8, 1)?;
    closes_once_the_pass_is_spent::<Brand, HostRuntime>(&rt, opening);
    Ok(())
}

// The call of ticket 0 is released before ticket 1 begins, and finished after it.
fn is_finished_later<N: Name, R: Wait + Abort>(rt: &R, opening: Opening<Placing>)
    requires { N.engine ≡ name_of placing opening }
{
    let (engine, mut sessions) = started::<N>(opening);
    let mut other = last_of::<N>(rt, &mut sessions);
    let mut session = last_of::<N>(rt, &mut sessions);
    let first = begins_free(rt, &engine, &mut session, 0, 0);
    let first = releases(rt, &engine, first);
    let second = begins_free(rt, &engine, &mut other, 0, 1);
    let front = engine.next_front(rt);
    replies(rt, &engine, &mut session, 0, None);
    let (engine, mut sessions) = stays_open(rt, engine, sessions, 2, 0);
    finishes(rt, &engine, second, 2);
    ends(rt, &engine, first, 1);
    is_not_given(rt, &engine, front);
    replies(rt, &engine, &mut session, 0, Some(1));
    replies(rt, &engine, &mut session, 0, Some(1));
    put_back::<N>(rt, &mut sessions, session);
    put_back::<N>(rt, &mut sessions, other);
    closes(rt, engine, sessions, &[2], &[0, 1]);
}

#[test]
fn released_call_is_finished_behind_a_later_one(rt: HostRuntime) -> Result<(), Fail> {
    let opening = opening(rt.alloc(), 1, 2, 8, 2)?;
    is_finished_later::<Brand, HostRuntime>(&rt, opening);
    Ok(())
}
