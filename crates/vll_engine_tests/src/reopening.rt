//! Tests of reopened engines, which continue from the records of others.
ghost use Rattle.std.specs.Prelude.{◌≡◌, ◌≤◌, All, IfOk, length, vec_capacity};
ghost use Rattle.vll_queue.specs.Shown.{name_of};
ghost use Rattle.vll_sca.specs.Placing.{placing};

use crate::asserts::{equal, fail, holds};
use crate::judging::judge;
use crate::playing::{
    begins_blocked, begins_free, call_of, closes, finishes, is_given, last_client, last_of,
    put_back, started,
};
use std::alloc::{AllocError, Global};
use std::marker::Brand;
use std::process::Abort;
use std::sync::Wait;
use std::test::*;
use vll_core::{Config, Line};
use vll_engine::{
    Client, Engine, Knob, Name, NotReopened, Opening, Pacing, Reopened, Session, USUAL,
};
use vll_sca::Placing;
use vll_test_procedures::library;

// The limit of each engine of these tests.
pub(crate) const LIMIT: u32 = 4;

// An opening over these records, for two clients.
pub(crate) fn opening_for_two(alloc: Global, records: [u64; 2]) -> Result<Opening<Placing>, Fail>
    ensures limit { IfOk result (λ o. o.config.limit ≡ LIMIT) }
    ensures clients { IfOk result (λ o. o.clients ≡ 2) }
{
    let library = library(alloc, 2)?;
    let records = Vec::from_array(alloc, records)?;
    let config = Config {
        cap: LIMIT,
        limit: LIMIT,
        bits: 64,
    };
    let opening = Opening::new(alloc, records, library, config, Placing::Modulo, 2)?;
    Ok(opening)
}

// A list for a journal.
pub(crate) fn room_for_lines(alloc: Global) -> Result<Vec<Line>, AllocError>
    ensures { IfOk result (λ v. LIMIT ≤ vec_capacity v) }
{
    Vec::with_capacity(alloc, LIMIT as usize)
}

// A list for an engine's records.
pub(crate) fn room_for_records<N: Name, R: Abort>(
    rt: &R,
    alloc: Global,
    engine: &Engine<N, Placing>,
) -> Vec<u64>
    ensures { length N.engine.base.records ≤ vec_capacity result }
{
    match Vec::with_capacity(alloc, engine.library().records() as usize) {
        Ok(room) => room,
        Err(_) => fail(rt, "there is no memory"),
    }
}

// Reopens an engine, with its two sessions.
fn reopened<N: Name, R: Abort>(
    rt: &R,
    alloc: Global,
    engine: Engine<N, Placing>,
    sessions: Vec<Session>,
    journal: Vec<Line>,
) -> Reopened<Placing>
    requires sessions { All (λ s. s.table ≡ N.engine.table) sessions.items }
    requires limit { N.engine.config.limit ≡ LIMIT }
    requires clients { N.engine.clients ≡ 2 }
    requires room { LIMIT ≤ vec_capacity journal }
    ensures limit { result.opening.config.limit ≡ LIMIT }
    ensures clients { result.opening.clients ≡ 2 }
    ensures room { LIMIT ≤ vec_capacity result.journal }
{
    holds(rt, sessions.len() == 2);
    let records = room_for_records(rt, alloc, &engine);
    match engine.reopen(alloc, sessions, journal, records) {
        Ok(reopened) => reopened,
        Err(_) => fail(rt, "the engine is not reopened"),
    }
}

// An engine with two sessions is not reopened, since `running` calls run and `waiting` wait. All is returned.
fn is_not_reopened<N: Name, R: Abort>(
    rt: &R,
    alloc: Global,
    engine: Engine<N, Placing>,
    sessions: Vec<Session>,
    journal: Vec<Line>,
    running: u32,
    waiting: u32,
) -> (Engine<N, Placing>, Vec<Session>, Vec<Line>)
    requires sessions { All (λ s. s.table ≡ N.engine.table) sessions.items }
    requires limit { N.engine.config.limit ≡ LIMIT }
    requires clients { N.engine.clients ≡ 2 }
    requires room { LIMIT ≤ vec_capacity journal }
    ensures sessions { result.1 ≡ sessions }
    ensures journal { result.2 ≡ journal }
{
    holds(rt, sessions.len() == 2);
    let records = room_for_records(rt, alloc, &engine);
    match engine.reopen(alloc, sessions, journal, records) {
        Ok(_) => fail(rt, "no call is left"),
        Err(NotReopened { left, journal, .. }) => match left {
            Ok(_) => fail(rt, "there is no memory"),
            Err(open) => {
                equal(rt, open.running, running);
                equal(rt, open.waiting, waiting);
                (open.engine, open.sessions, journal)
            }
        },
    }
}

// A pass is out, and a call of the other session waits behind it.
fn goes_on_once_nothing_is_left<N: Name, R: Wait + Abort>(
    rt: &R,
    alloc: Global,
    opening: Opening<Placing>,
    journal: Vec<Line>,
) -> Reopened<Placing>
    requires named { N.engine ≡ name_of placing opening }
    requires limit { opening.config.limit ≡ LIMIT }
    requires clients { opening.clients ≡ 2 }
    requires room { LIMIT ≤ vec_capacity journal }
    ensures limit { result.opening.config.limit ≡ LIMIT }
    ensures clients { result.opening.clients ≡ 2 }
    ensures room { LIMIT ≤ vec_capacity result.journal }
{
    let (engine, mut sessions) = started::<N>(opening);
    let mut one = last_of::<N>(rt, &mut sessions);
    let mut zero = last_of::<N>(rt, &mut sessions);
    let first = begins_free(rt, &engine, &mut zero, 0, 0);
    begins_blocked(rt, &engine, &mut one, 0, 1);
    put_back::<N>(rt, &mut sessions, one);
    put_back::<N>(rt, &mut sessions, zero);
    let (engine, sessions, journal) = is_not_reopened(rt, alloc, engine, sessions, journal, 1, 1);
    finishes(rt, &engine, first, 6);
    let (engine, sessions, journal) = is_not_reopened(rt, alloc, engine, sessions, journal, 0, 1);
    let second = is_given::<N, R>(rt, engine.next_front(rt), 1);
    finishes(rt, &engine, second, 7);
    reopened(rt, alloc, engine, sessions, journal)
}

// The next engine has the records, takes as many calls as the one before, and numbers them from 0.
fn begins_anew<N: Name, R: Wait + Abort>(rt: &R, opening: Opening<Placing>)
    requires { N.engine ≡ name_of placing opening }
{
    let (engine, mut sessions) = started::<N>(opening);
    equal(rt, sessions.len(), 2);
    let mut one = last_of::<N>(rt, &mut sessions);
    equal(rt, one.client(), 1);
    let mut output = 7;
    for ticket in 0..LIMIT {
        let pass = begins_free(rt, &engine, &mut one, 0, ticket);
        output += 1;
        finishes(rt, &engine, pass, output);
    }
    put_back::<N>(rt, &mut sessions, one);
    closes(rt, engine, sessions, &[11, 9], &[1, 1, 1, 1]);
}

#[test]
fn reopen_hands_all_back_while_calls_are_left(rt: HostRuntime) -> Result<(), Fail> {
    let opening = opening_for_two(rt.alloc(), [5, 9])?;
    let journal = room_for_lines(rt.alloc())?;
    let next = goes_on_once_nothing_is_left::<Brand, HostRuntime>(
        &rt,
        rt.alloc(),
        opening,
        journal,
    );
    equal(&rt, next.journal.len(), 2);
    begins_anew::<Brand, HostRuntime>(&rt, next.opening);
    Ok(())
}

// A call that a test makes: the procedure, and its arguments.
type Asked<'a> = (&'a str, &'a [u64]);

// Makes a client's call, from entry to reply.
fn makes<N: Name, R: Wait + Abort>(
    rt: &R,
    engine: &Engine<N, Placing>,
    client: &mut Client<N>,
    asked: Asked<'_>,
) {
    let (name, args) = asked;
    holds(rt, client.call(rt, engine, name, args).is_ok());
}

// How often a thread tries to take the lock in the three epochs, which is not as usual.
const TRIES: u32 = 7;

// An epoch: the two clients make these calls in turn, and the engine is reopened.
fn epoch<N: Name, R: Wait + Abort>(
    rt: &R,
    alloc: Global,
    opening: Opening<Placing>,
    journal: Vec<Line>,
    calls: &[Asked<'_>],
) -> Reopened<Placing>
    requires named { N.engine ≡ name_of placing opening }
    requires limit { opening.config.limit ≡ LIMIT }
    requires clients { opening.clients ≡ 2 }
    requires room { LIMIT ≤ vec_capacity journal }
    ensures limit { result.opening.config.limit ≡ LIMIT }
    ensures clients { result.opening.clients ≡ 2 }
    ensures room { LIMIT ≤ vec_capacity result.journal }
{
    let (engine, mut clients) = opening.start_clients::<N>();
    equal(rt, engine.pacing().get(Knob::MostTries), TRIES);
    let mut now = last_client(rt, &mut clients);
    let mut next = last_client(rt, &mut clients);
    for asked in calls {
        makes(rt, &engine, &mut now, *asked);
        (now, next) = (next, now);
    }
    holds(rt, clients.push(now).is_ok());
    holds(rt, clients.push(next).is_ok());
    reopened(rt, alloc, engine, clients.into_sessions(), journal)
}

// An epoch under a name of its own, whose lines are judged and then appended to those of earlier epochs.
fn next_epoch<R: Wait + Abort>(
    rt: &R,
    alloc: Global,
    opening: Opening<Placing>,
    journal: Vec<Line>,
    calls: &[Asked<'_>],
    joined: &mut Vec<Line>,
) -> Reopened<Placing>
    requires limit { opening.config.limit ≡ LIMIT }
    requires clients { opening.clients ≡ 2 }
    requires room { LIMIT ≤ vec_capacity journal }
    ensures limit { result.opening.config.limit ≡ LIMIT }
    ensures clients { result.opening.clients ≡ 2 }
    ensures room { LIMIT ≤ vec_capacity result.journal }
{
    let next = epoch::<Brand, R>(rt, alloc, opening, journal, calls);
    equal(rt, next.journal.len(), calls.len());
    for line in next.journal.iter() {
        if joined.push(*line).is_err() {
            fail(rt, "there is no room for a line");
        }
    }
    next
}

// An engine whose clients make no call ends with these records.
fn ends_with<N: Name, R: Abort>(rt: &R, opening: Opening<Placing>, records: &[u64])
    requires { N.engine ≡ name_of placing opening }
{
    let (engine, sessions) = started::<N>(opening);
    closes(rt, engine, sessions, records, &[]);
}

// The calls of the two clients in the first, second and third epoch.
const FIRST: [Asked<'static>; 3] = [("bump", &[0]), ("take", &[0, 10]), ("transfer", &[1, 0, 4])];

const SECOND: [Asked<'static>; 4] = [
    ("take", &[0, 10]),
    ("via", &[0]),
    ("sum2", &[0, 1]),
    ("read", &[1]),
];

const THIRD: [Asked<'static>; 2] = [("take", &[0, 10]), ("via", &[0])];

// Three epochs, one after the other. Returns what the next one would begin with.
fn three_epochs<R: Wait + Abort>(
    rt: &R,
    alloc: Global,
    opening: Opening<Placing>,
    journal: Vec<Line>,
    joined: &mut Vec<Line>,
) -> Opening<Placing>
    requires limit { opening.config.limit ≡ LIMIT }
    requires clients { opening.clients ≡ 2 }
    requires room { LIMIT ≤ vec_capacity journal }
{
    let next = next_epoch(rt, alloc, opening, journal, &FIRST, joined);
    let next = next_epoch(rt, alloc, next.opening, next.journal, &SECOND, joined);
    let next = next_epoch(rt, alloc, next.opening, next.journal, &THIRD, joined);
    next.opening
}

#[test]
fn usual_pacing_has_the_usual_numbers(rt: HostRuntime) {
    for (knob, number) in USUAL {
        equal(&rt, Pacing::usual().get(knob), number);
    }
}

// Each epoch begins with the records that the one before left: a take aborts at first, and commits later. The engines of
// all of them have the first opening's pacing.
#[test]
fn three_epochs_are_one_serial_run(rt: HostRuntime) -> Result<(), Fail> {
    let alloc = rt.alloc();
    let mut joined = Vec::with_capacity(alloc, 9)?;
    let pacing = Pacing::usual().with(Knob::MostTries, TRIES);
    let opening = opening_for_two(alloc, [5, 9])?.with_pacing(pacing);
    let room = room_for_lines(alloc)?;
    let last = three_epochs(&rt, alloc, opening, room, &mut joined);
    let library = library(alloc, 2)?;
    let mut records = [5, 9];
    judge(&rt, &library, &mut records, joined.as_slice());
    equal(&rt, joined.len(), 9);
    ends_with::<Brand, HostRuntime>(&rt, last, &records);
    Ok(())
}
