//! Tests of what a session learns of its calls: their replies, and why one may not begin.
ghost use Rattle.std.specs.Prelude.{◌≡◌};
ghost use Rattle.vll_queue.specs.Shown.{name_of};
ghost use Rattle.vll_sca.specs.Placing.{placing};

use crate::opening::opening;
use crate::playing::{
    begins_blocked, begins_free, begins_refused, call_is_free, closes, finishes, is_given, last_of,
    replies, started,
};
use std::marker::Brand;
use std::process::Abort;
use std::sync::Wait;
use std::test::*;
use vll_engine::{BeginRefusal, Name, Opening};
use vll_sca::Placing;

fn reply_comes<N: Name, R: Wait + Abort>(rt: &R, opening: Opening<Placing>)
    requires { N.engine ≡ name_of placing opening }
{
    let (engine, mut sessions) = started::<N>(opening);
    let mut session = last_of::<N>(rt, &mut sessions);
    let pass = begins_free(rt, &engine, &mut session, 0, 0);
    replies(rt, &engine, &mut session, 0, None);
    finishes(rt, &engine, pass, 1);
    replies(rt, &engine, &mut session, 0, Some(1));
    replies(rt, &engine, &mut session, 1, None);
    closes(rt, engine, sessions, &[1], &[0]);
}

#[test]
fn reply_comes_when_the_call_is_finished(rt: HostRuntime) -> Result<(), Fail> {
    let opening = opening(rt.alloc(), 1, 1, 8, 1)?;
    reply_comes::<Brand, HostRuntime>(&rt, opening);
    Ok(())
}

// A bump of a record that holds 0 replies 1, and so does a read after it.
fn reads_the_bumped_value<N: Name, R: Wait + Abort>(rt: &R, opening: Opening<Placing>)
    requires { N.engine ≡ name_of placing opening }
{
    let (engine, mut sessions) = started::<N>(opening);
    let mut session = last_of::<N>(rt, &mut sessions);
    let bump = call_is_free(rt, &engine, &mut session, "bump", 0, 0);
    finishes(rt, &engine, bump, 1);
    replies(rt, &engine, &mut session, 0, Some(1));
    let read = call_is_free(rt, &engine, &mut session, "read", 0, 1);
    finishes(rt, &engine, read, 1);
    replies(rt, &engine, &mut session, 1, Some(1));
    closes(rt, engine, sessions, &[1], &[0, 0]);
}

#[test]
fn read_replies_what_a_bump_has_stored(rt: HostRuntime) -> Result<(), Fail> {
    let opening = opening(rt.alloc(), 1, 2, 8, 1)?;
    reads_the_bumped_value::<Brand, HostRuntime>(&rt, opening);
    Ok(())
}

fn refuses_by_cap_and_limit<N: Name, R: Wait + Abort>(rt: &R, opening: Opening<Placing>)
    requires { N.engine ≡ name_of placing opening }
{
    let (engine, mut sessions) = started::<N>(opening);
    let mut session = last_of::<N>(rt, &mut sessions);
    let first = begins_free(rt, &engine, &mut session, 0, 0);
    begins_blocked(rt, &engine, &mut session, 0, 1);
    begins_refused(rt, &engine, &mut session, 0, BeginRefusal::Busy);
    finishes(rt, &engine, first, 1);
    let second = is_given::<N, R>(rt, engine.next_front(rt), 1);
    begins_blocked(rt, &engine, &mut session, 0, 2);
    begins_refused(rt, &engine, &mut session, 0, BeginRefusal::Spent);
    finishes(rt, &engine, second, 2);
    let third = is_given::<N, R>(rt, engine.next_front(rt), 2);
    finishes(rt, &engine, third, 3);
    closes(rt, engine, sessions, &[3], &[0, 0, 0]);
}

#[test]
fn cap_is_busy_and_limit_is_spent(rt: HostRuntime) -> Result<(), Fail> {
    let opening = opening(rt.alloc(), 1, 3, 1, 1)?;
    refuses_by_cap_and_limit::<Brand, HostRuntime>(&rt, opening);
    Ok(())
}
