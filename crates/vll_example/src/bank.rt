//! A bank on the engine: calls of one client, then of two at the same time, and last news from one to the other.
ghost use Rattle.std.specs.Prelude.{◌≡◌, IfOk, sum};
ghost use Rattle.vll_example.specs.Bank.{procedures};
ghost use Rattle.vll_queue.specs.Pass.{IsFresh};

use crate::procedures::library;
use crate::relay::relay;
use std::alloc::Global;
use std::marker::Brand;
use std::sync::Wait;
use vll_core::{Config, Ticket};
use vll_engine::{Begun, Client, Clients, Engine, EngineFault, Name, Opening, Pass, Service};
use vll_proc::{Reply, invariants_carry_over};
use vll_sca::Placing;

/// Opens the engine over two accounts, for two clients, and serves them. All memory is allocated here.
pub(crate) fn open<R: Wait + Print>(rt: &R, alloc: Global) -> Result<(), EngineFault> {
    let accounts = vec![in alloc; 100, 50]?;
    let config = Config {
        cap: 8,
        limit: 8,
        bits: 64,
    };
    let library = library(alloc, 2)?;
    let opening = Opening::new(alloc, accounts, library, config, Placing::Spread, 2)?;
    opening.host(Bank { rt })
}

// What is done with the engine.
#[derive(Drop)]
struct Bank<'a, R> {
    rt: &'a R,
}

impl<'a, R: Wait + Print> Service for Bank<'a, R> {
    type Answer = Result<(), EngineFault>;

    ghost use Rattle.std.specs.Prelude.{◌≡◌};
    ghost use Rattle.vll_example.specs.Bank.{procedures};

    ghost allows = { λ _ e. e.base.procs ≡ procedures };

    fn host<N: Name>(
        self,
        engine: Engine<N, Placing>,
        mut clients: Clients<N>,
    ) -> Result<(), EngineFault>
        requires procedures { N.engine.base.procs ≡ procedures }
    {
        make_calls(self.rt, &engine, &mut clients)?;
        let accounts = close(engine, clients)?;
        print_accounts(self.rt, accounts.as_slice())
    }
}

// Makes the calls of both clients.
fn make_calls<N: Name, R: Wait + Print>(
    rt: &R,
    engine: &Engine<N, Placing>,
    clients: &mut Clients<N>,
) -> Result<(), EngineFault> {
    let (Some(mut other), Some(mut first)) = (clients.pop(), clients.pop()) else {
        return Ok(());
    };
    make_calls_of(rt, engine, &mut first, &mut other)
}

fn make_calls_of<N: Name, R: Wait + Print>(
    rt: &R,
    engine: &Engine<N, Placing>,
    first: &mut Client<N>,
    other: &mut Client<N>,
) -> Result<(), EngineFault> {
    transfer_twice(rt, engine, first)?;
    meet(rt, engine, first, other)?;
    print_order(rt, relay(rt, engine, first, other)?)
}

// Makes one client's two transfers; for the second its account is too low.
fn transfer_twice<N: Name, R: Wait + Print>(
    rt: &R,
    engine: &Engine<N, Placing>,
    client: &mut Client<N>,
) -> Result<(), EngineFault> {
    for amount in [30, 500] {
        let (_, reply) = client.call(rt, engine, "transfer", &[0, 1, amount])?;
        println!(rt; "the transfer {reply}")?;
    }
    Ok(())
}

fn print_order(rt: &impl Print, (told, behind): (Ticket, Ticket)) -> Result<(), EngineFault> {
    println!(rt; "call {} comes after call {}", behind.0, told.0)?;
    Ok(())
}

fn print_accounts(rt: &impl Print, accounts: &[u64]) -> Result<(), EngineFault> {
    for (account, value) in accounts.iter().enumerate() {
        println!(rt; "account {account} holds {value}")?;
    }
    Ok(())
}

// Closes the engine and returns what the accounts hold: in total as much as at the opening. Each call of the bank keeps
// the total, and what each call keeps holds to the end.
fn close<N: Name>(engine: Engine<N, Placing>, clients: Clients<N>) -> Result<Vec<u64>, EngineFault>
    requires procedures { N.engine.base.procs ≡ procedures }
    ensures total { IfOk result (λ accounts. sum accounts.items ≡ sum N.engine.base.records) }
{
    invariants_carry_over::<Brand>();
    let closed = engine.close(clients.into_sessions())?;
    Ok(closed.records)
}

// Brings a call to its end.
fn run<N: Name>(rt: &impl Wait, engine: &Engine<N, Placing>, pass: Pass) -> Reply
    requires { IsFresh N.engine pass }
{
    let done = engine.execute(pass);
    let released = engine.release(done);
    let (_, reply) = engine.finish(rt, released);
    reply
}

// Two clients at the same time: the sum begins while the transfer has its claims, so it waits, and runs once the
// transfer has finished. Its client then gets the reply.
fn meet<N: Name, R: Wait + Print>(
    rt: &R,
    engine: &Engine<N, Placing>,
    first: &mut Client<N>,
    other: &mut Client<N>,
) -> Result<(), EngineFault> {
    let transfer = engine.library().call("transfer", &[0, 1, 20])?;
    let sum = engine.library().call("sum", &[0, 1])?;
    let pass = match first.begin(rt, engine, &transfer) {
        Begun::Free(pass) => pass,
        Begun::Blocked(_) => return Err(EngineFault::Left),
        Begun::Refused(refusal) => return Err(refusal.into()),
    };
    let waiting = match other.begin(rt, engine, &sum) {
        Begun::Free(pass) => {
            run(rt, engine, pass);
            Err(EngineFault::Left)
        }
        Begun::Blocked(ticket) => Ok(ticket),
        Begun::Refused(refusal) => Err(refusal.into()),
    };
    // a pass has to be consumed before the function may return
    let reply = run(rt, engine, pass);
    println!(rt; "the transfer {reply}")?;
    let ticket = waiting?;
    run_front(rt, engine);
    match other.reply(rt, engine, ticket) {
        Some(reply) => println!(rt; "the sum {reply}")?,
        None => return Err(EngineFault::Left),
    }
    Ok(())
}

// Runs the first call that has not finished, if it waits.
fn run_front<N: Name>(rt: &impl Wait, engine: &Engine<N, Placing>) {
    if let Some(pass) = engine.next_front(rt) {
        run(rt, engine, pass);
    }
}
