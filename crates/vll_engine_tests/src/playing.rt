//! What the tests do with an engine, step by step, each step with the answer that it must give.
ghost use Rattle.std.specs.Prelude.{◌≡◌, All, IfSome};
ghost use Rattle.vll_check.specs.Calls.{Fits};
ghost use Rattle.vll_queue.specs.Pass.{IsFresh, IsReleased};
ghost use Rattle.vll_queue.specs.Shown.{name_of};
ghost use Rattle.vll_sca.specs.Placing.{placing};

use crate::asserts::{equal, fail, holds};
use std::process::Abort;
use std::sync::Wait;
use std::test::*;
use vll_check::Library;
use vll_core::{Line, Ticket};
use vll_engine::{
    BeginRefusal, Begun, Client, Clients, Closed, Engine, Name, Opening, Pass, Released, Session,
};
use vll_proc::{Call, Reply};
use vll_sca::Placing;

// The engine of an opening, and its sessions.
pub(crate) fn started<N: Name>(opening: Opening<Placing>) -> (Engine<N, Placing>, Vec<Session>)
    requires { N.engine ≡ name_of placing opening }
    ensures { All (λ s. s.table ≡ N.engine.table) result.1.items }
{
    opening.start::<N>()
}

// The last session of a list.
pub(crate) fn last_of<N: Name>(rt: &impl Abort, sessions: &mut Vec<Session>) -> Session
    requires { All (λ s. s.table ≡ N.engine.table) sessions.old.items }
    ensures session { result.table ≡ N.engine.table }
    ensures others { All (λ s. s.table ≡ N.engine.table) sessions.new.items }
{
    match sessions.pop() {
        Some(session) => session,
        None => fail(rt, "there is no session"),
    }
}

// The last client of a list.
pub(crate) fn last_client<N: Name>(rt: &impl Abort, clients: &mut Clients<N>) -> Client<N> {
    match clients.pop() {
        Some(client) => client,
        None => fail(rt, "there is no client"),
    }
}

// Puts a session back at the end of a list.
pub(crate) fn put_back<N: Name>(rt: &impl Abort, sessions: &mut Vec<Session>, session: Session)
    requires session { session.table ≡ N.engine.table }
    requires others { All (λ s. s.table ≡ N.engine.table) sessions.old.items }
    ensures { All (λ s. s.table ≡ N.engine.table) sessions.new.items }
{
    match sessions.push(session) {
        Ok(()) => {}
        Err(_) => fail(rt, "there is no room for a session"),
    }
}

// The call of a procedure for a record.
pub(crate) fn call_of(rt: &impl Abort, library: &Library, name: &str, record: u64) -> Call
    ensures { Fits library.now result }
{
    match library.call(name, &[record]) {
        Ok(call) => call,
        Err(_) => fail(rt, "there is no such call"),
    }
}

// The bump of a record.
pub(crate) fn bump_of(rt: &impl Abort, library: &Library, record: u64) -> Call
    ensures { Fits library.now result }
{
    call_of(rt, library, "bump", record)
}

// The bump of a record is free under a ticket.
pub(crate) fn begins_free<N: Name, R: Wait + Abort>(
    rt: &R,
    engine: &Engine<N, Placing>,
    session: &mut Session,
    record: u64,
    ticket: u32,
) -> Pass
    requires { session.old.table ≡ N.engine.table }
    ensures session { session.new.table ≡ N.engine.table }
    ensures pass { IsFresh N.engine result }
{
    call_is_free(rt, engine, session, "bump", record, ticket)
}

// The call of a procedure for a record is free under a ticket.
pub(crate) fn call_is_free<N: Name, R: Wait + Abort>(
    rt: &R,
    engine: &Engine<N, Placing>,
    session: &mut Session,
    name: &str,
    record: u64,
    ticket: u32,
) -> Pass
    requires { session.old.table ≡ N.engine.table }
    ensures session { session.new.table ≡ N.engine.table }
    ensures pass { IsFresh N.engine result }
{
    let call = call_of(rt, engine.library(), name, record);
    match engine.begin(rt, session, &call) {
        Begun::Free(pass) => {
            equal(rt, pass.ticket(), Ticket(ticket));
            pass
        }
        Begun::Blocked(_) => fail(rt, "the call is blocked"),
        Begun::Refused(_) => fail(rt, "the call is refused"),
    }
}

// The bump of a record is blocked under a ticket.
pub(crate) fn begins_blocked<N: Name, R: Wait + Abort>(
    rt: &R,
    engine: &Engine<N, Placing>,
    session: &mut Session,
    record: u64,
    ticket: u32,
)
    requires { session.old.table ≡ N.engine.table }
    ensures { session.new.table ≡ N.engine.table }
{
    call_is_blocked(rt, engine, session, "bump", record, ticket);
}

// The call of a procedure for a record is blocked under a ticket.
pub(crate) fn call_is_blocked<N: Name, R: Wait + Abort>(
    rt: &R,
    engine: &Engine<N, Placing>,
    session: &mut Session,
    name: &str,
    record: u64,
    ticket: u32,
)
    requires { session.old.table ≡ N.engine.table }
    ensures { session.new.table ≡ N.engine.table }
{
    let call = call_of(rt, engine.library(), name, record);
    match engine.begin(rt, session, &call) {
        Begun::Free(pass) => {
            finishes(rt, engine, pass, 0);
            fail(rt, "the call is free")
        }
        Begun::Blocked(found) => equal(rt, found, Ticket(ticket)),
        Begun::Refused(_) => fail(rt, "the call is refused"),
    }
}

// The bump of a record is refused.
pub(crate) fn begins_refused<N: Name, R: Wait + Abort>(
    rt: &R,
    engine: &Engine<N, Placing>,
    session: &mut Session,
    record: u64,
    refusal: BeginRefusal,
)
    requires { session.old.table ≡ N.engine.table }
    ensures { session.new.table ≡ N.engine.table }
{
    let call = bump_of(rt, engine.library(), record);
    match engine.begin(rt, session, &call) {
        Begun::Free(pass) => {
            finishes(rt, engine, pass, 0);
            fail(rt, "the call is free")
        }
        Begun::Blocked(_) => fail(rt, "the call is blocked"),
        Begun::Refused(found) => equal(rt, found, refusal),
    }
}

// A pass was given, for this ticket.
pub(crate) fn is_given<N: Name, R: Abort>(rt: &R, pass: Option<Pass>, ticket: u32) -> Pass
    requires { IfSome pass (IsFresh N.engine) }
    ensures { IsFresh N.engine result }
{
    match pass {
        Some(pass) => {
            equal(rt, pass.ticket(), Ticket(ticket));
            pass
        }
        None => fail(rt, "there is no pass"),
    }
}

// No pass was given.
pub(crate) fn is_not_given<N: Name, R: Wait + Abort>(
    rt: &R,
    engine: &Engine<N, Placing>,
    pass: Option<Pass>,
)
    requires { IfSome pass (IsFresh N.engine) }
{
    match pass {
        Some(pass) => {
            finishes(rt, engine, pass, 0);
            fail(rt, "there is a pass")
        }
        None => {}
    }
}

// Executes and releases the call of a pass.
pub(crate) fn releases<N: Name, R: Abort>(
    rt: &R,
    engine: &Engine<N, Placing>,
    pass: Pass,
) -> Released
    requires { IsFresh N.engine pass }
    ensures { IsReleased N.engine result }
{
    let ticket = pass.ticket();
    let done = engine.execute(pass);
    equal(rt, done.ticket(), ticket);
    let released = engine.release(done);
    equal(rt, released.ticket(), ticket);
    released
}

// Finishes a released call, whose reply is this one output.
pub(crate) fn ends<N: Name, R: Wait + Abort>(
    rt: &R,
    engine: &Engine<N, Placing>,
    released: Released,
    output: u64,
)
    requires { IsReleased N.engine released }
{
    let ticket = released.ticket();
    let (found, reply) = engine.finish(rt, released);
    equal(rt, found, ticket);
    equal(rt, output_of(&reply), Some(output));
}

// Executes, releases and finishes the call of a pass, whose reply is this one output.
pub(crate) fn finishes<N: Name, R: Wait + Abort>(
    rt: &R,
    engine: &Engine<N, Placing>,
    pass: Pass,
    output: u64,
)
    requires { IsFresh N.engine pass }
{
    let released = releases(rt, engine, pass);
    ends(rt, engine, released, output);
}

// The output of a committed call that has one.
pub(crate) fn output_of(reply: &Reply) -> Option<u64> {
    match reply {
        Reply::Committed(outputs) if outputs.len() == 1 => outputs.get(0),
        _ => None,
    }
}

// The ticket's reply is this one output, or is not there yet.
pub(crate) fn replies<N: Name, R: Wait + Abort>(
    rt: &R,
    engine: &Engine<N, Placing>,
    session: &mut Session,
    ticket: u32,
    output: Option<u64>,
)
    requires { session.old.table ≡ N.engine.table }
    ensures { session.new.table ≡ N.engine.table }
{
    let reply = engine.reply(rt, session, Ticket(ticket));
    equal(rt, reply.is_some(), output.is_some());
    equal(rt, reply.as_ref().and_then(output_of), output);
}

// Closes an engine, and returns what it leaves.
pub(crate) fn closed_of<N: Name, R: Abort>(
    rt: &R,
    engine: Engine<N, Placing>,
    sessions: Vec<Session>,
) -> Closed
    requires { All (λ s. s.table ≡ N.engine.table) sessions.items }
{
    match engine.close(sessions) {
        Ok(closed) => closed,
        Err(_) => fail(rt, "calls are left"),
    }
}

// No claim is open on any of `records` records.
fn none_is_open<R: Abort>(rt: &R, pairs: &[u64], records: usize) {
    equal(rt, pairs.len(), records);
    for pair in pairs {
        equal(rt, *pair, 0);
    }
}

// The lines are of these clients, and each has its reply.
fn are_lines_of<R: Abort>(rt: &R, lines: &[Line], clients: &[u32]) {
    equal(rt, lines.len(), clients.len());
    for (line, client) in lines.iter().zip(clients) {
        equal(rt, line.client, *client);
        holds(rt, line.reply.is_some());
    }
}

// The engine closes with these records and with lines of these clients, and leaves no claim open.
pub(crate) fn closes<N: Name, R: Abort>(
    rt: &R,
    engine: Engine<N, Placing>,
    sessions: Vec<Session>,
    records: &[u64],
    clients: &[u32],
)
    requires { All (λ s. s.table ≡ N.engine.table) sessions.items }
{
    let closed = closed_of(rt, engine, sessions);
    equal(rt, closed.records.as_slice(), records);
    none_is_open(rt, closed.pairs.as_slice(), records.len());
    are_lines_of(rt, closed.journal.as_slice(), clients);
}

// The engine does not close, since `running` calls run and `waiting` wait. Returns it and the sessions.
pub(crate) fn stays_open<N: Name, R: Abort>(
    rt: &R,
    engine: Engine<N, Placing>,
    sessions: Vec<Session>,
    running: u32,
    waiting: u32,
) -> (Engine<N, Placing>, Vec<Session>)
    requires { All (λ s. s.table ≡ N.engine.table) sessions.items }
    ensures { result.1 ≡ sessions }
{
    match engine.close(sessions) {
        Ok(_) => fail(rt, "no call is left"),
        Err(left) => {
            equal(rt, left.running, running);
            equal(rt, left.waiting, waiting);
            (left.engine, left.sessions)
        }
    }
}
