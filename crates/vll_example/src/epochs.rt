//! Epochs of the bank: more calls than one engine takes, by a thread for each client.
ghost use Rattle.std.specs.Prelude.{◌≡◌, ◌≤◌, IfOk, map, sum, vec_capacity};
ghost use Rattle.vll_counters.specs.Headline.Views.{calls_in};
ghost use Rattle.vll_example.specs.Bank.{procedures};
ghost use Rattle.vll_example.specs.Epochs.{AreOneSerialRun};
ghost use Rattle.vll_queue.specs.Closed.{AreSerial, GoesOn};
ghost use Rattle.vll_queue.specs.Shown.{name_of};
ghost use Rattle.vll_sca.specs.Placing.{placing};

use crate::procedures::library;
use std::alloc::Global;
use std::marker::Brand;
use std::sync::Wait;
use std::thread::{Threads, map_vec};
use vll_core::{Config, Line};
use vll_engine::{Client, Clients, Engine, EngineFault, Name, Opening, Reopened};
use vll_proc::epochs_are_one_serial_run;
use vll_sca::Placing;

// The number of clients, each on a thread of its own.
const CLIENTS: u32 = 4;

// The number of calls that a client makes in an epoch.
const CALLS: u32 = 5;

// The number of calls in an epoch: as many as each engine takes.
const LIMIT: u32 = CLIENTS * CALLS;

/// Opens the bank for four clients, runs three epochs, and prints what does not depend on the schedule.
pub(crate) fn run<R: Threads + Wait + Print + Sync>(
    rt: &R,
    alloc: Global,
) -> Result<(), EngineFault> {
    let accounts = vec![in alloc; 100, 50]?;
    let config = Config {
        cap: CLIENTS,
        limit: LIMIT,
        bits: 64,
    };
    let library = library(alloc, 2)?;
    let opening = Opening::new(alloc, accounts, library, config, Placing::Spread, CLIENTS)?;
    let epochs = run_epochs(rt, alloc, opening, 3)?;
    print_last(rt, epochs.journals.as_slice())
}

// Prints the last reply of each journal.
fn print_last(rt: &impl Print, journals: &[Vec<Line>]) -> Result<(), EngineFault> {
    for (epoch, journal) in journals.iter().enumerate() {
        let calls = journal.len();
        if let Some(
            Line {
                reply: Some(reply),
                ..
            },
        ) = journal.last()
        {
            println!(rt; "epoch {epoch}: of {calls} transfers the last {reply}")?;
        }
    }
    Ok(())
}

/// What epochs left: the journal of each, in order, and an opening over the accounts as they are.
#[derive(Drop)]
pub(crate) struct Epochs {
    pub(crate) journals: Vec<Vec<Line>>,
    pub(crate) next: Opening<Placing>,
}

/// Runs so many epochs, each with an engine of its own over the accounts that the previous one left.
///
/// The replies in all journals, and the accounts at the end, are those of one serial run of all calls, in the order of
/// the journals. In total the accounts hold as much as at the opening.
pub(crate) fn run_epochs<R: Threads + Wait + Sync>(
    rt: &R,
    alloc: Global,
    opening: Opening<Placing>,
    count: u32,
) -> Result<Epochs, EngineFault>
    requires procedures { opening.library.procs ≡ procedures }
    requires limit { opening.config.limit ≡ LIMIT }
    ensures serial { IfOk result (λ e. AreOneSerialRun opening.records (map (λ j. j.items) e.journals.items) e.next.records) }
    ensures total { IfOk result (λ e. sum e.next.records ≡ sum opening.records) }
{
    epochs_are_one_serial_run();
    let mut now = opening;
    let mut journals = Vec::new(alloc);
    for _ in 0..count {
        let room = Vec::with_capacity(alloc, LIMIT as usize)?;
        let Reopened {
            journal,
            opening,
            ..
        } = run_epoch::<Brand, R>(rt, alloc, now, room)?;
        journals.push(journal)?;
        now = opening;
    }
    Ok(Epochs {
        journals,
        next: now,
    })
}

// Runs an epoch, and opens the next one.
fn run_epoch<N: Name + Send + Sync, R: Threads + Wait + Sync>(
    rt: &R,
    alloc: Global,
    opening: Opening<Placing>,
    room: Vec<Line>,
) -> Result<Reopened<Placing>, EngineFault>
    requires named { N.engine ≡ name_of placing opening }
    requires procedures { opening.library.procs ≡ procedures }
    requires room { opening.config.limit ≤ vec_capacity room }
    ensures serial { IfOk result (λ next. AreSerial N.engine next.journal.items) }
    ensures opening { IfOk result (λ next. GoesOn placing N.engine (calls_in next.journal.items) next.opening) }
{
    let (engine, mut clients) = opening.start_clients::<N>();
    make_calls(rt, alloc, &engine, &mut clients)?;
    if !clients.are_all() {
        return Err(EngineFault::Left);
    }
    let records = Vec::with_capacity(alloc, engine.library().records() as usize)?;
    Ok(engine.reopen(alloc, clients.into_sessions(), room, records)?)
}

// Makes the calls of all clients, each on a thread of its own, and puts the clients back.
fn make_calls<N: Name + Send + Sync, R: Threads + Wait + Sync>(
    rt: &R,
    alloc: Global,
    engine: &Engine<N, Placing>,
    clients: &mut Clients<N>,
) -> Result<(), EngineFault> {
    let mut apart = Vec::with_capacity(alloc, CLIENTS as usize)?;
    for _ in 0..CLIENTS {
        match clients.pop() {
            Some(client) => apart.push(client)?,
            None => return Err(EngineFault::Left),
        }
    }
    let done = map_vec(rt, apart, &|client| make_transfers(rt, engine, client))?;
    for client in done {
        clients.push(client?)?;
    }
    Ok(())
}

// Makes a client's calls, one after the other.
fn make_transfers<N: Name>(
    rt: &impl Wait,
    engine: &Engine<N, Placing>,
    mut client: Client<N>,
) -> Result<Client<N>, EngineFault> {
    for _ in 0..CALLS {
        client.call(rt, engine, "transfer", &[0, 1, 1])?;
    }
    Ok(client)
}
