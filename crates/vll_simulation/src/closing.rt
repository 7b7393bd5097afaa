//! The end of an engine: it is closed, or the next one continues from its records.
ghost use Rattle.std.specs.Prelude.{◌≡◌, ◌≤◌, All, length, vec_capacity};

use crate::held::{Caller, InHand};
use crate::shown::{Spot, are_lines, are_words, fail};
use crate::world::{Course, World};
use std::alloc::Global;
use std::process::Abort;
use std::sync::Wait;
use vll_check::Library;
use vll_core::{Core, Line};
use vll_engine::{Engine, Name, Opening, Passes, Session};
use vll_sca::Placing;

// The highest limit of an engine.
pub(crate) const MOST_LIMIT: u32 = 64;

// What the next engine continues from: its opening, and the records and the library of the machine beside it.
#[derive(Drop)]
pub(crate) struct Next {
    pub(crate) opening: Opening<Placing>,
    pub(crate) records: Vec<u64>,
    pub(crate) library: Library,
}

impl<N: Name> World<N> {
    // Where calls are left, the engine does not close, and says how many.
    pub(crate) fn closes_too_early<R: Abort>(self, rt: &R) -> World<N> {
        let World {
            engine,
            callers,
            passes,
            hand,
            core,
            draw,
            spot,
            tally,
            alloc,
        } = self;
        let engine = if core.running() == 0 && core.waiting() == 0 {
            engine
        } else {
            stays_open(rt, spot, alloc, engine, core.running(), core.waiting())
        };
        World {
            engine,
            callers,
            passes,
            hand,
            core,
            draw,
            spot,
            tally,
            alloc,
        }
    }

    // No call is left: the engine closes with what the machine has.
    pub(crate) fn closes<R: Wait + Abort>(self, rt: &R) -> Course {
        let World {
            engine,
            passes,
            hand,
            core,
            spot,
            tally,
            alloc,
            callers: _,
            draw,
        } = self;
        are_used_up(rt, &engine, passes, hand);
        match engine.close(Vec::new(alloc)) {
            Ok(closed) => {
                let words = core.words();
                are_words(rt, spot, "a record", closed.records.as_slice(), words, 1);
                are_words(rt, spot, "a pair word", closed.pairs.as_slice(), words, 2);
                is_journal(rt, spot, closed.journal.as_slice(), &core);
                Course { draw, spot, tally }
            }
            Err(_) => fail(rt, "calls are left"),
        }
    }

    // No call is left: the engine is reopened over the records that the machine has.
    pub(crate) fn reopens<R: Wait + Abort>(self, rt: &R, clients: u32) -> (Next, Course)
        requires limit { N.engine.config.limit ≤ MOST_LIMIT }
        requires clients { N.engine.clients ≡ clients }
        ensures limit { result.0.opening.config.limit ≤ MOST_LIMIT }
        ensures clients { result.0.opening.clients ≡ clients }
    {
        let World {
            engine,
            passes,
            hand,
            core,
            spot,
            mut tally,
            alloc,
            callers,
            draw,
        } = self;
        are_used_up(rt, &engine, passes, hand);
        let sessions = sessions_of(rt, alloc, callers);
        spot.holds(
            rt,
            "a session is missing",
            sessions.len() == clients as usize,
        );
        let lines = room_for_lines(rt, alloc);
        let records = room_for_records(rt, alloc, &engine);
        match engine.reopen(alloc, sessions, lines, records) {
            Ok(reopened) => {
                is_journal(rt, spot, reopened.journal.as_slice(), &core);
                let records = reopened.records;
                are_words(rt, spot, "a record", records.as_slice(), core.words(), 1);
                tally.reopens();
                let next = Next {
                    opening: reopened.opening,
                    records,
                    library: core.into_parts().1,
                };
                (next, Course { draw, spot, tally })
            }
            Err(_) => fail(rt, "calls are left, or there is no memory"),
        }
    }
}

// No call is left in these lists, which are destroyed.
fn are_used_up<N: Name, R: Wait + Abort>(
    rt: &R,
    engine: &Engine<N, Placing>,
    mut passes: Passes<N>,
    mut hand: Vec<InHand<N>>,
) {
    if let Some(released) = passes.run_last(engine) {
        engine.finish(rt, released);
        fail(rt, "a pass is left");
    }
    passes.destroy();
    match hand.pop() {
        None => hand.destroy_empty(),
        Some(call) => {
            hand.push_reserved(call);
            fail(rt, "a call is left in hand");
        }
    }
}

// An engine in which calls are left does not close, and says how many.
fn stays_open<N: Name, R: Abort>(
    rt: &R,
    spot: Spot,
    alloc: Global,
    engine: Engine<N, Placing>,
    running: u32,
    waiting: u32,
) -> Engine<N, Placing> {
    match engine.close(Vec::new(alloc)) {
        Ok(_) => fail(rt, "no call is left"),
        Err(left) => {
            spot.same(rt, "the number of running calls", left.running, running);
            spot.same(rt, "the number of waiting calls", left.waiting, waiting);
            left.engine
        }
    }
}

// The sessions of callers.
fn sessions_of<N: Name, R: Abort>(
    rt: &R,
    alloc: Global,
    mut callers: Vec<Caller<N>>,
) -> Vec<Session>
    ensures { All (λ s. s.table ≡ N.engine.table) result.items }
{
    let mut sessions = Vec::new(alloc);
    while let Some(caller) = callers.pop() {
        keep_session::<N>(rt, &mut sessions, caller);
    }
    sessions
}

// Appends a caller's session to a list.
fn keep_session<N: Name>(rt: &impl Abort, sessions: &mut Vec<Session>, caller: Caller<N>)
    requires { All (λ s. s.table ≡ N.engine.table) sessions.old.items }
    ensures { All (λ s. s.table ≡ N.engine.table) sessions.new.items }
{
    match sessions.push(caller.into_session()) {
        Ok(()) => {}
        Err(_) => fail(rt, "there is no room for a session"),
    }
}

// A list for a journal.
fn room_for_lines(rt: &impl Abort, alloc: Global) -> Vec<Line>
    ensures { MOST_LIMIT ≤ vec_capacity result }
{
    match Vec::with_capacity(alloc, MOST_LIMIT as usize) {
        Ok(room) => room,
        Err(_) => fail(rt, "there is no memory"),
    }
}

// A list for an engine's records.
fn room_for_records<N: Name, R: Abort>(
    rt: &R,
    alloc: Global,
    engine: &Engine<N, Placing>,
) -> Vec<u64>
    ensures { length N.engine.base.records ≤ vec_capacity result }
{
    match Vec::with_capacity(alloc, engine.library().records() as usize) {
        Ok(room) => room,
        Err(_) => fail(rt, "there is no memory"),
    }
}

// The journal is the machine's.
fn is_journal(rt: &impl Abort, spot: Spot, journal: &[Line], core: &Core<Placing>) {
    spot.same(
        rt,
        "the number of calls",
        journal.len(),
        core.journal().len(),
    );
    are_lines(rt, spot, journal, core.journal());
}
