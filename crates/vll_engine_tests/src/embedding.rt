//! Tests of an engine as an embedding program uses it: through clients, with calls by name.
ghost use Rattle.std.specs.Prelude.{◌≡◌, ◌≤◌, vec_capacity};
ghost use Rattle.vll_queue.specs.Shown.{name_of};
ghost use Rattle.vll_sca.specs.Placing.{placing};

use crate::asserts::{equal, fail, holds};
use crate::opening::opening;
use crate::playing::output_of;
use crate::reopening::{LIMIT, opening_for_two, room_for_lines, room_for_records};
use std::alloc::Global;
use std::marker::Brand;
use std::process::Abort;
use std::sync::Wait;
use std::test::*;
use std::thread::{Threads, join};
use vll_check::CallFault;
use vll_core::Line;
use vll_engine::{BeginRefusal, Client, Clients, Engine, EngineFault, Name, Opening, Service};
use vll_sca::Placing;

// Makes a client's bump of a record. Returns its ticket and its output.
fn bumps<N: Name>(
    rt: &impl Wait,
    engine: &Engine<N, Placing>,
    client: &mut Client<N>,
    record: u64,
) -> Result<(u32, u64), EngineFault> {
    let (ticket, reply) = client.call(rt, engine, "bump", &[record])?;
    Ok((ticket.0, output_of(&reply).unwrap_or(0)))
}

// A call that is not made reports why, and has not entered, as the ticket of the next one shows.
fn calls_up_to_the_limit_of_two<N: Name, R: Wait + Abort>(
    rt: &R,
    engine: &Engine<N, Placing>,
    client: &mut Client<N>,
) {
    equal(rt, bumps(rt, engine, client, 0), Ok((0, 1)));
    let out_of_range = Err(EngineFault::Call(CallFault::RecordRange));
    equal(rt, bumps(rt, engine, client, 1), out_of_range);
    let unknown = client.call(rt, engine, "no procedure", &[]);
    holds(
        rt,
        unknown.err() == Some(EngineFault::Call(CallFault::UnknownProc)),
    );
    equal(rt, bumps(rt, engine, client, 0), Ok((1, 2)));
    let spent = Err(EngineFault::Refused(BeginRefusal::Spent));
    equal(rt, bumps(rt, engine, client, 0), spent);
}

// One client makes its calls, and the engine closes.
#[derive(Drop)]
struct OneCallsByName<'a, R> {
    rt: &'a R,
}

impl<'a, R: Wait + Abort> Service for OneCallsByName<'a, R> {
    type Answer = Result<(), EngineFault>;

    fn host<N: Name>(
        self,
        engine: Engine<N, Placing>,
        mut clients: Clients<N>,
    ) -> Result<(), EngineFault> {
        let rt = self.rt;
        match clients.pop() {
            Some(mut client) => calls_up_to_the_limit_of_two(rt, &engine, &mut client),
            None => fail(rt, "there is no client"),
        }
        let closed = engine.close(clients.into_sessions())?;
        equal(rt, closed.records.as_slice(), [2].as_slice());
        Ok(())
    }
}

#[test]
fn call_by_name_is_made_or_says_why_not(rt: HostRuntime) -> Result<(), Fail> {
    let opening = opening(rt.alloc(), 1, 2, 2, 1)?;
    opening.host(OneCallsByName { rt: &rt })?;
    Ok(())
}

// The number of bumps each of two threads makes.
const BUMPS: u32 = LIMIT / 2;

// Makes a client's bumps of record 0.
fn bumps_often<N: Name>(
    rt: &impl Wait,
    engine: &Engine<N, Placing>,
    mut client: Client<N>,
) -> Result<Client<N>, EngineFault> {
    for _ in 0..BUMPS {
        bumps(rt, engine, &mut client, 0)?;
    }
    Ok(client)
}

// Makes both clients' bumps, each client in a thread, and puts the clients back. Only then all are there.
fn two_threads_bump<N: Name + Send + Sync, R: Wait + Threads + Abort + Sync>(
    rt: &R,
    engine: &Engine<N, Placing>,
    clients: &mut Clients<N>,
) -> Result<(), EngineFault> {
    let (Some(one), Some(zero)) = (clients.pop(), clients.pop()) else {
        return Ok(());
    };
    let (zero, one) = join(
        rt,
        || bumps_often(rt, engine, zero),
        || bumps_often(rt, engine, one),
    );
    clients.push(zero?)?;
    holds(rt, !clients.are_all());
    clients.push(one?)?;
    Ok(())
}

// Two clients call and are put back, and the engine is reopened. Returns its journal.
fn two_call_in_threads<N: Name + Send + Sync, R: Wait + Threads + Abort + Sync>(
    rt: &R,
    alloc: Global,
    opening: Opening<Placing>,
    room: Vec<Line>,
) -> Result<Vec<Line>, EngineFault>
    requires named { N.engine ≡ name_of placing opening }
    requires room { opening.config.limit ≤ vec_capacity room }
{
    let (engine, mut clients) = opening.start_clients::<N>();
    two_threads_bump(rt, &engine, &mut clients)?;
    if !clients.are_all() {
        fail(rt, "a client is not there");
    }
    let records = room_for_records(rt, alloc, &engine);
    let next = engine.reopen(alloc, clients.into_sessions(), room, records)?;
    Ok(next.journal)
}

#[test]
fn clients_call_in_threads_and_are_put_back(rt: HostRuntime) -> Result<(), Fail> {
    let opening = opening_for_two(rt.alloc(), [5, 9])?;
    let room = room_for_lines(rt.alloc())?;
    let journal = two_call_in_threads::<Brand, HostRuntime>(&rt, rt.alloc(), opening, room)?;
    equal(&rt, journal.len(), LIMIT as usize);
    Ok(())
}
