//! Tests of the lines of finished calls, handed out while the engine goes on.
ghost use Rattle.std.specs.Prelude.{◌≡◌};
ghost use Rattle.vll_queue.specs.Shown.{name_of};
ghost use Rattle.vll_sca.specs.Placing.{placing};

use crate::asserts::{equal, holds};
use crate::opening::opening;
use crate::playing::{
    begins_blocked, begins_free, closes, finishes, is_given, last_client, last_of, output_of,
    started,
};
use std::marker::Brand;
use std::process::Abort;
use std::sync::Wait;
use std::test::*;
use vll_core::{Line, Ticket};
use vll_engine::{Engine, Name, Opening, Session};
use vll_sca::Placing;

// The client of a line, and the output of its call.
type Shown = (u32, u64);

// These lines, and no others, are in a list.
fn are<R: Abort>(rt: &R, lines: &[Line], wanted: &[Shown]) {
    equal(rt, lines.len(), wanted.len());
    for (line, wanted) in lines.iter().zip(wanted) {
        let (client, output) = *wanted;
        equal(rt, line.client, client);
        equal(rt, line.reply.as_ref().and_then(output_of), Some(output));
    }
}

// After the lines from a ticket on were appended to a list, these are in it.
fn appends<N: Name, R: Wait + Abort>(
    rt: &R,
    engine: &Engine<N, Placing>,
    session: &mut Session,
    from: u32,
    lines: &mut Vec<Line>,
    wanted: &[Shown],
)
    requires { session.old.table ≡ N.engine.table }
    ensures { session.new.table ≡ N.engine.table }
{
    engine.lines_from(rt, session, Ticket(from), lines);
    are(rt, lines.as_slice(), wanted);
}

// Calls of one client finish in their order, and lines are collected in room for two.
fn collects_what_has_finished<N: Name, R: Wait + Abort>(
    rt: &R,
    opening: Opening<Placing>,
    mut lines: Vec<Line>,
)
    requires { N.engine ≡ name_of placing opening }
{
    let (engine, mut sessions) = started::<N>(opening);
    let mut session = last_of::<N>(rt, &mut sessions);
    appends(rt, &engine, &mut session, 0, &mut lines, &[]);
    let first = begins_free(rt, &engine, &mut session, 0, 0);
    begins_blocked(rt, &engine, &mut session, 0, 1);
    appends(rt, &engine, &mut session, 0, &mut lines, &[]);
    finishes(rt, &engine, first, 1);
    appends(rt, &engine, &mut session, 0, &mut lines, &[(0, 1)]);
    let second = is_given::<N, R>(rt, engine.next_front(rt), 1);
    appends(rt, &engine, &mut session, 1, &mut lines, &[(0, 1)]);
    finishes(rt, &engine, second, 2);
    let third = begins_free(rt, &engine, &mut session, 0, 2);
    finishes(rt, &engine, third, 3);
    appends(rt, &engine, &mut session, 1, &mut lines, &[(0, 1), (0, 2)]);
    appends(rt, &engine, &mut session, 2, &mut lines, &[(0, 1), (0, 2)]);
    lines.clear();
    appends(rt, &engine, &mut session, 1, &mut lines, &[(0, 2), (0, 3)]);
    lines.clear();
    appends(rt, &engine, &mut session, 3, &mut lines, &[]);
    appends(rt, &engine, &mut session, u32::MAX, &mut lines, &[]);
    appends(rt, &engine, &mut session, 2, &mut lines, &[(0, 3)]);
    closes(rt, engine, sessions, &[3], &[0, 0, 0]);
}

#[test]
fn lines_are_appended_as_far_as_calls_have_finished(rt: HostRuntime) -> Result<(), Fail> {
    let opening = opening(rt.alloc(), 1, 3, 3, 1)?;
    let lines = Vec::with_capacity(rt.alloc(), 2)?;
    collects_what_has_finished::<Brand, HostRuntime>(&rt, opening, lines);
    Ok(())
}

// The second of three calls finishes last, and one client gets the lines of both.
fn stops_before_a_call_that_runs<N: Name, R: Wait + Abort>(
    rt: &R,
    opening: Opening<Placing>,
    mut lines: Vec<Line>,
)
    requires { N.engine ≡ name_of placing opening }
{
    let (engine, mut sessions) = started::<N>(opening);
    let mut one = last_of::<N>(rt, &mut sessions);
    let mut zero = last_of::<N>(rt, &mut sessions);
    let first = begins_free(rt, &engine, &mut zero, 0, 0);
    finishes(rt, &engine, first, 1);
    let second = begins_free(rt, &engine, &mut one, 0, 1);
    let third = begins_free(rt, &engine, &mut zero, 1, 2);
    finishes(rt, &engine, third, 1);
    appends(rt, &engine, &mut zero, 0, &mut lines, &[(0, 1)]);
    appends(rt, &engine, &mut zero, 1, &mut lines, &[(0, 1)]);
    finishes(rt, &engine, second, 2);
    appends(
        rt,
        &engine,
        &mut zero,
        1,
        &mut lines,
        &[(0, 1), (1, 2), (0, 1)],
    );
    closes(rt, engine, sessions, &[2, 1], &[0, 1, 0]);
}

#[test]
fn lines_stop_before_a_call_that_runs(rt: HostRuntime) -> Result<(), Fail> {
    let opening = opening(rt.alloc(), 2, 3, 3, 2)?;
    let lines = Vec::with_capacity(rt.alloc(), 8)?;
    stops_before_a_call_that_runs::<Brand, HostRuntime>(&rt, opening, lines);
    Ok(())
}

// A client gets the lines of the calls that it has made.
fn client_gets_its_lines<N: Name, R: Wait + Abort>(
    rt: &R,
    opening: Opening<Placing>,
    mut lines: Vec<Line>,
)
    requires { N.engine ≡ name_of placing opening }
{
    let (engine, mut clients) = opening.start_clients::<N>();
    let mut client = last_client(rt, &mut clients);
    holds(rt, client.call(rt, &engine, "bump", &[0]).is_ok());
    holds(rt, client.call(rt, &engine, "bump", &[0]).is_ok());
    client.lines_from(rt, &engine, Ticket(0), &mut lines);
    are(rt, lines.as_slice(), &[(0, 1), (0, 2)]);
}

#[test]
fn a_client_gets_lines(rt: HostRuntime) -> Result<(), Fail> {
    let opening = opening(rt.alloc(), 1, 2, 2, 1)?;
    let lines = Vec::with_capacity(rt.alloc(), 2)?;
    client_gets_its_lines::<Brand, HostRuntime>(&rt, opening, lines);
    Ok(())
}
