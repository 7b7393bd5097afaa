//! Tests of how long a worker stays.
ghost use Rattle.std.specs.Prelude.{◌≡◌, nat_eq};
ghost use Rattle.std.specs.List.{IsDistinct};
ghost use Rattle.vll_queue.specs.Shown.{name_of};
ghost use Rattle.vll_sca.specs.Placing.{placing};
ghost use Rattle.vll_tokens.specs.Tokens.{AreFit, clients_of};

use crate::asserts::{equal, holds};
use crate::gates::Halt;
use crate::opening::opening;
use crate::runs::{begins, ends, waits};
use crate::tokens::{all_calling, closes, last_and_others, output_of};
use std::alloc::Global;
use std::marker::Brand;
use std::process::Abort;
use std::sync::Wait;
use std::sync::atomic::{AtomicBool, Ordering};
use std::test::*;
use std::thread::{Threads, join, yield_now};
use vll_core::Ticket;
use vll_engine::{Engine, Name, Opening, Session};
use vll_sca::Placing;
use vll_workers::{Gate, Token, run};

// How often a thread checks whether another one has come so far, which takes some seconds.
const MOST_LOOKS: u32 = 20_000_000;

// Tickets 2 to 5 run one after the other, and ticket 6 waits for ticket 0.
const LAST_OF_CHAIN: u32 = 5;

// Waits for another thread, unless that takes long.
fn awaits(has_come: &AtomicBool) {
    for _ in 0..MOST_LOOKS {
        if has_come.load(Ordering::SeqCst) {
            return;
        }
        yield_now();
    }
}

// Begins the calls, and lets the run begin. Once the worker has reached its halt, finishes ticket 0 under a hold, which
// is taken before the worker may go on.
fn begins_and_finishes<N: Name, R: Wait + Abort>(
    rt: &R,
    engine: &Engine<N, Placing>,
    session: Session,
    is_ready: &AtomicBool,
    halt: &Halt,
) -> Session
    requires { session.table ≡ N.engine.table }
    ensures { result.table ≡ N.engine.table }
{
    let mut session = session;
    let zero = begins(rt, engine, &mut session, 0);
    let one = begins(rt, engine, &mut session, 1);
    for ticket in 2..=LAST_OF_CHAIN {
        waits(rt, engine, &mut session, 1, Ticket(ticket));
    }
    waits(rt, engine, &mut session, 0, Ticket(LAST_OF_CHAIN + 1));
    ends(rt, engine, one);
    is_ready.store(true, Ordering::SeqCst);
    awaits(&halt.has_come);
    let zero = engine.release(engine.execute(zero));
    let mut hold = engine.hold(rt);
    halt.may_go.store(true, Ordering::SeqCst);
    hold.finish(zero);
    session
}

// Returns whether a run of one worker, which begins once the calls have begun, ends well, and the session that made
// these calls.
fn runs_beside<N: Name + Send + Sync, R: Wait + Threads + Abort + Sync, G: Gate + Sync>(
    rt: &R,
    alloc: Global,
    engine: &Engine<N, Placing>,
    tokens: Vec<Token>,
    session: Session,
    gate: &G,
    halt: &Halt,
) -> (bool, Session)
    requires fit { AreFit N.engine tokens.items }
    requires distinct { IsDistinct nat_eq (clients_of tokens.items) }
    requires session { session.table ≡ N.engine.table }
    ensures { result.1.table ≡ N.engine.table }
{
    let is_ready = AtomicBool::new(false);
    let ready = &is_ready;
    join(
        rt,
        move || -> bool
            requires fit { AreFit N.engine tokens.items }
            requires distinct { IsDistinct nat_eq (clients_of tokens.items) }
        {
            awaits(ready);
            run(rt, rt, alloc, engine, tokens, 1, gate).is_ok()
        },
        move || -> Session
            requires { session.table ≡ N.engine.table }
            ensures { result.table ≡ N.engine.table }
        { begins_and_finishes(rt, engine, session, ready, halt) },
    )
}

// One worker has a token in its first two rounds, and executes a chain of calls that waits. In the round that finishes
// the last of them, it has no token and finds no call, and it is held back at the end of that round. Then another call
// may run, which its next round finds.
fn stays_after_an_empty_round<N: Name + Send + Sync, R: Wait + Threads + Abort + Sync>(
    rt: &R,
    alloc: Global,
    opening: Opening<Placing>,
) -> Result<(), Fail>
    requires { N.engine ≡ name_of placing opening }
{
    let (engine, sessions) = opening.start::<N>();
    let (session, sessions) = last_and_others::<N>(rt, sessions);
    let tokens = all_calling::<N>(rt, alloc, engine.library(), sessions, "bump", 1, 0)?;
    let halt = Halt::new(Ticket(LAST_OF_CHAIN));
    let (is_well, mut session) = runs_beside(rt, alloc, &engine, tokens, session, &halt, &halt);
    holds(rt, is_well);
    holds(rt, halt.has_come.load(Ordering::SeqCst));
    let reply = engine.reply(rt, &mut session, Ticket(LAST_OF_CHAIN + 1));
    equal(rt, output_of(&reply), Some(2));
    closes(rt, engine, Vec::new(alloc), &[2, 5], &[1, 1, 2, 3, 4, 5, 2]);
    Ok(())
}

// With two tokens for one worker, which therefore takes them before a hold.
#[test]
fn worker_stays_after_a_round_without_a_token(rt: HostRuntime) -> Result<(), Fail> {
    let opening = opening(rt.alloc(), 2, 7, 3)?;
    stays_after_an_empty_round::<Brand, HostRuntime>(&rt, rt.alloc(), opening)
}
