//! Tokens for the tests, and checks of what their runs leave.
ghost use Rattle.std.specs.Prelude.{◌≡◌, ◌<◌, ◌^◌, All, IfOk, length, nat_eq};
ghost use Rattle.std.specs.List.{IsDistinct};
ghost use Rattle.vll_check.specs.Calls.{Fits};
ghost use Rattle.vll_counters.specs.Shown.{AreNewSessions};
ghost use Rattle.vll_queue.specs.Shown.{library_of};
ghost use Rattle.vll_tokens.specs.Tokens.{AreFit, IsFit, clients_of};

use crate::asserts::{equal, fail};
use std::alloc::Global;
use std::process::Abort;
use std::test::*;
use vll_check::Library;
use vll_core::Line;
use vll_engine::{Closed, Engine, Name, Session};
use vll_proc::{Call, Reply};
use vll_sca::Placing;
use vll_workers::Token;

// The call of a procedure for a record.
pub(crate) fn call_of(rt: &impl Abort, library: &Library, name: &str, record: u64) -> Call
    ensures { Fits library.now result }
{
    match library.call(name, &[record]) {
        Ok(call) => call,
        Err(_) => fail(rt, "there is no such call"),
    }
}

// The bump of a record.
pub(crate) fn bump_of(rt: &impl Abort, library: &Library, record: u64) -> Call
    ensures { Fits library.now result }
{
    call_of(rt, library, "bump", record)
}

// The first of two names for an even index, and the second for an odd one.
fn in_turn<'a>(names: (&'a str, &'a str), index: u32) -> &'a str {
    if index % 2 == 0 { names.0 } else { names.1 }
}

// Makes a script of `times` calls for a record, of two procedures in turn.
fn script(
    rt: &impl Abort,
    alloc: Global,
    library: &Library,
    names: (&str, &str),
    record: u64,
    times: u32,
) -> Result<Vec<Call>, Fail>
    ensures fits { IfOk result (λ s. All (Fits library.now) s.items) }
    ensures few { IfOk result (λ s. length s.items < 2 ^ 32) }
{
    let mut script = Vec::with_capacity(alloc, times as usize)?;
    for index in 0..times {
        let name = in_turn(names, index);
        script.push_reserved(call_of(rt, library, name, record));
    }
    Ok(script)
}

// Makes a token of `times` calls of a procedure for a record.
pub(crate) fn calling<N: Name>(
    rt: &impl Abort,
    alloc: Global,
    library: &Library,
    session: Session,
    name: &str,
    record: u64,
    times: u32,
) -> Result<Token, Fail>
    requires library { library.now ≡ library_of N.engine }
    requires session { session.table ≡ N.engine.table }
    ensures fit { IfOk result (IsFit N.engine) }
    ensures client { IfOk result (λ t. t.client ≡ session.session.client) }
{
    calling_in_turn::<N>(rt, alloc, library, session, (name, name), record, times)
}

// Makes a token of `times` calls for a record, of two procedures in turn.
fn calling_in_turn<N: Name>(
    rt: &impl Abort,
    alloc: Global,
    library: &Library,
    session: Session,
    names: (&str, &str),
    record: u64,
    times: u32,
) -> Result<Token, Fail>
    requires library { library.now ≡ library_of N.engine }
    requires session { session.table ≡ N.engine.table }
    ensures fit { IfOk result (IsFit N.engine) }
    ensures client { IfOk result (λ t. t.client ≡ session.session.client) }
{
    let script = script(rt, alloc, library, names, record, times)?;
    Ok(Token::new(session.client(), session, script))
}

// The last session of an engine that was opened, and those before it.
pub(crate) fn last_and_others<N: Name>(
    rt: &impl Abort,
    sessions: Vec<Session>,
) -> (Session, Vec<Session>)
    requires { AreNewSessions N.engine.table N.engine.clients sessions.items }
    ensures last { result.0.table ≡ N.engine.table }
    ensures others { AreNewSessions N.engine.table (length result.1.items) result.1.items }
{
    let mut sessions = sessions;
    match sessions.pop() {
        Some(session) => (session, sessions),
        None => fail(rt, "there is no session"),
    }
}

// Makes a token for each of these sessions of the first clients, of `times` calls of a procedure for a record: the one
// with its client's number, modulo `records`.
pub(crate) fn all_calling<N: Name>(
    rt: &impl Abort,
    alloc: Global,
    library: &Library,
    sessions: Vec<Session>,
    name: &str,
    records: u32,
    times: u32,
) -> Result<Vec<Token>, Fail>
    requires library { library.now ≡ library_of N.engine }
    requires sessions { AreNewSessions N.engine.table (length sessions.items) sessions.items }
    requires records { 0 < records }
    ensures fit { IfOk result (λ t. AreFit N.engine t.items) }
    ensures distinct { IfOk result (λ t. IsDistinct nat_eq (clients_of t.items)) }
{
    all_calling_in_turn::<N>(rt, alloc, library, sessions, (name, name), records, times)
}

// As `all_calling`, of two procedures in turn.
pub(crate) fn all_calling_in_turn<N: Name>(
    rt: &impl Abort,
    alloc: Global,
    library: &Library,
    sessions: Vec<Session>,
    names: (&str, &str),
    records: u32,
    times: u32,
) -> Result<Vec<Token>, Fail>
    requires library { library.now ≡ library_of N.engine }
    requires sessions { AreNewSessions N.engine.table (length sessions.items) sessions.items }
    requires records { 0 < records }
    ensures fit { IfOk result (λ t. AreFit N.engine t.items) }
    ensures distinct { IfOk result (λ t. IsDistinct nat_eq (clients_of t.items)) }
{
    let mut sessions = sessions;
    let mut tokens = Vec::new(alloc);
    while let Some(session) = sessions.pop() {
        let record = u64::from(session.client() % records);
        let token = calling_in_turn::<N>(rt, alloc, library, session, names, record, times)?;
        tokens.push(token)?;
    }
    Ok(tokens)
}

// Checks that the tokens are of clients 0, 1 and so on, and that `next` calls of each have entered.
pub(crate) fn are_home(rt: &impl Abort, tokens: &[Token], clients: usize, next: u32) {
    equal(rt, tokens.len(), clients);
    for (client, token) in tokens.iter().enumerate() {
        equal(rt, token.client() as usize, client);
        equal(rt, token.next(), next);
    }
}

// The output of a committed call that has one.
pub(crate) fn output_of(reply: &Option<Reply>) -> Option<u64> {
    match reply {
        Some(Reply::Committed(outputs)) if outputs.len() == 1 => outputs.get(0),
        _ => None,
    }
}

// The sessions of tokens.
fn sessions_of<N: Name>(alloc: Global, tokens: Vec<Token>) -> Result<Vec<Session>, Fail>
    requires { All (λ t. t.session.table ≡ N.engine.table) tokens.items }
    ensures { IfOk result (λ s. All (λ s. s.table ≡ N.engine.table) s.items) }
{
    let mut tokens = tokens;
    let mut sessions = Vec::new(alloc);
    while let Some(token) = tokens.pop() {
        sessions.push(token.into_session())?;
    }
    Ok(sessions)
}

// Closes an engine, and returns what it leaves.
pub(crate) fn closed_of<N: Name>(
    rt: &impl Abort,
    engine: Engine<N, Placing>,
    sessions: Vec<Session>,
) -> Closed
    requires { All (λ s. s.table ≡ N.engine.table) sessions.items }
{
    match engine.close(sessions) {
        Ok(closed) => closed,
        Err(_) => fail(rt, "calls are left"),
    }
}

// Checks that no claim is left open.
fn none_is_open(rt: &impl Abort, pairs: &[u64]) {
    for pair in pairs {
        equal(rt, *pair, 0);
    }
}

// Checks that the lines have these outputs, in order.
fn have_outputs(rt: &impl Abort, lines: &[Line], outputs: &[u64]) {
    equal(rt, lines.len(), outputs.len());
    for (line, output) in lines.iter().zip(outputs) {
        equal(rt, output_of(&line.reply), Some(*output));
    }
}

// Checks that the engine closes with these records, no open claim, and these outputs in order of entry.
pub(crate) fn closes<N: Name>(
    rt: &impl Abort,
    engine: Engine<N, Placing>,
    sessions: Vec<Session>,
    records: &[u64],
    outputs: &[u64],
)
    requires { All (λ s. s.table ≡ N.engine.table) sessions.items }
{
    let closed = closed_of(rt, engine, sessions);
    equal(rt, closed.records.as_slice(), records);
    none_is_open(rt, closed.pairs.as_slice());
    have_outputs(rt, closed.journal.as_slice(), outputs);
}

// Checks that the tokens are back from `times` bumps each of record 0, and that each call has found what the one before
// it left.
pub(crate) fn are_counted<N: Name>(
    rt: &impl Abort,
    alloc: Global,
    engine: Engine<N, Placing>,
    tokens: Vec<Token>,
    clients: u16,
    times: u16,
) -> Result<(), Fail>
    requires { All (λ t. t.session.table ≡ N.engine.table) tokens.items }
{
    are_home(
        rt,
        tokens.as_slice(),
        usize::from(clients),
        u32::from(times),
    );
    let sessions = sessions_of::<N>(alloc, tokens)?;
    let total = u64::from(clients) * u64::from(times);
    let mut outputs = Vec::new(alloc);
    for output in 1..=total {
        outputs.push(output)?;
    }
    closes(rt, engine, sessions, &[total], outputs.as_slice());
    Ok(())
}
