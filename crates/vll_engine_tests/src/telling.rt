//! Tests of news from one thread to another, by a channel.
ghost use Rattle.std.specs.Prelude.{◌≡◌, ◌<◌, length};
ghost use Rattle.vll_queue.specs.Shown.{name_of};
ghost use Rattle.vll_sca.specs.Placing.{placing};

use crate::asserts::{equal, fail};
use crate::opening::opening;
use crate::playing::{bump_of, closes, last_client, output_of};
use crossbeam_channel::{Receiver, Sender, unbounded};
use std::alloc::Global;
use std::marker::Brand;
use std::process::Abort;
use std::sync::Wait;
use std::test::*;
use std::thread::{Threads, join};
use vll_core::Ticket;
use vll_engine::{Client, Engine, EngineSpent, Name, News, Opening};
use vll_sca::Placing;

// A call was made from entry to reply: its ticket, its output, and news that has it.
#[derive(Drop)]
struct Receipt<N: Name> {
    ticket: Ticket,
    output: u64,
    news: News<N>,
    ghost has_it: { ticket < length news.calls },
}

// Makes a client's bump of record 0. Returns it with news of what the client has seen.
fn makes_and_tells<N: Name, R: Wait + Abort>(
    rt: &R,
    engine: &Engine<N, Placing>,
    client: &mut Client<N>,
) -> Receipt<N> {
    let call = bump_of(rt, engine.library(), 0);
    match client.make(rt, engine, &call) {
        Ok((ticket, reply)) => Receipt {
            ticket,
            output: output_of(&reply).unwrap_or(0),
            news: client.tell(engine),
        },
        Err(EngineSpent) => fail(rt, "the engine is spent"),
    }
}

// Makes a client hear of a call that was made, and makes a bump after it. Returns the bump's ticket and output.
fn hears_and_makes<N: Name, R: Wait + Abort>(
    rt: &R,
    engine: &Engine<N, Placing>,
    client: &mut Client<N>,
    receipt: Receipt<N>,
) -> (Ticket, u64)
    ensures behind { receipt.ticket < result.0 }
{
    client.hear(engine, receipt.news);
    let call = bump_of(rt, engine.library(), 0);
    match client.make(rt, engine, &call) {
        Ok((ticket, reply)) => (ticket, output_of(&reply).unwrap_or(0)),
        Err(EngineSpent) => fail(rt, "the engine is spent"),
    }
}

// Makes one client's bump, and sends the news to the other client.
fn tells<N: Name, R: Wait + Abort>(
    rt: &R,
    engine: &Engine<N, Placing>,
    mut client: Client<N>,
    to: Sender<Receipt<N>, Global>,
) {
    let receipt = makes_and_tells(rt, engine, &mut client);
    equal(rt, (receipt.ticket, receipt.output), (Ticket(0), 1));
    if to.send(rt, receipt).is_err() {
        fail(rt, "nobody hears")
    }
}

// Waits for the news, and makes the other client's bump once it has heard.
fn hears<N: Name, R: Wait + Abort>(
    rt: &R,
    engine: &Engine<N, Placing>,
    mut client: Client<N>,
    from: Receiver<Receipt<N>, Global>,
) {
    let Ok(receipt) = from.recv(rt) else {
        fail(rt, "there is no news")
    };
    let made = hears_and_makes(rt, engine, &mut client, receipt);
    equal(rt, made, (Ticket(1), 2));
}

// Each client has a thread of its own.
fn one_tells_and_one_hears<N: Name + Send + Sync, R: Wait + Threads + Abort + Sync>(
    rt: &R,
    alloc: Global,
    opening: Opening<Placing>,
) -> Result<(), Fail>
    requires { N.engine ≡ name_of placing opening }
{
    let (to, from) = unbounded(alloc)?;
    let (engine, mut clients) = opening.start_clients::<N>();
    let other = last_client(rt, &mut clients);
    let one = last_client(rt, &mut clients);
    let engine_now = &engine;
    join(
        rt,
        move || tells(rt, engine_now, one, to),
        move || hears(rt, engine_now, other, from),
    );
    closes(rt, engine, clients.into_sessions(), &[2], &[0, 1]);
    Ok(())
}

#[test]
fn call_that_was_told_of_comes_first(rt: HostRuntime) -> Result<(), Fail> {
    let opening = opening(rt.alloc(), 1, 2, 1, 2)?;
    one_tells_and_one_hears::<Brand, HostRuntime>(&rt, rt.alloc(), opening)
}
