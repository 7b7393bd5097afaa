//! Tests of a token that goes on after a run.
ghost use Rattle.std.specs.Prelude.{◌≡◌, IfOk};
ghost use Rattle.vll_queue.specs.Shown.{name_of};
ghost use Rattle.vll_sca.specs.Placing.{placing};
ghost use Rattle.vll_tokens.specs.Tokens.{IsFit};

use crate::asserts::{equal, fail};
use crate::opening::opening;
use crate::tokens::{bump_of, calling, closes, last_and_others, output_of};
use std::alloc::Global;
use std::marker::Brand;
use std::process::Abort;
use std::sync::Wait;
use std::test::*;
use std::thread::Threads;
use vll_core::Ticket;
use vll_engine::{Engine, Name, Opening};
use vll_sca::Placing;
use vll_workers::{OpenGate, Token, run};

// Runs one token, and returns it.
fn after_run<N: Name + Send + Sync, R: Wait + Threads + Abort + Sync>(
    rt: &R,
    alloc: Global,
    engine: &Engine<N, Placing>,
    token: Token,
) -> Result<Token, Fail>
    requires { IsFit N.engine token }
    ensures { IfOk result (IsFit N.engine) }
{
    let mut tokens = Vec::new(alloc);
    tokens.push(token)?;
    match run(rt, rt, alloc, engine, tokens, 1, &OpenGate) {
        Ok(mut tokens) => match tokens.pop() {
            Some(token) => Ok(token),
            None => fail(rt, "there is no token"),
        },
        Err(_) => fail(rt, "the run has a fault"),
    }
}

// Gives the token's session the reply of a ticket, which has this output, and the token one more call.
fn with_one_more<N: Name, R: Wait + Abort>(
    rt: &R,
    engine: &Engine<N, Placing>,
    token: Token,
    ticket: Ticket,
    output: u64,
) -> Result<Token, Fail>
    requires { IsFit N.engine token }
    ensures { IfOk result (IsFit N.engine) }
{
    let client = token.client();
    let next = token.next();
    let (mut session, mut script) = token.into_parts();
    let reply = engine.reply(rt, &mut session, ticket);
    equal(rt, output_of(&reply), Some(output));
    if script.len() != 2 {
        fail(rt, "the script has another length");
    }
    script.push(bump_of(rt, engine.library(), 0))?;
    Ok(Token::resume(client, session, script, next))
}

fn goes_on<N: Name + Send + Sync, R: Wait + Threads + Abort + Sync>(
    rt: &R,
    alloc: Global,
    opening: Opening<Placing>,
) -> Result<(), Fail>
    requires { N.engine ≡ name_of placing opening }
{
    let (engine, sessions) = opening.start::<N>();
    let (session, _) = last_and_others::<N>(rt, sessions);
    let token = calling::<N>(rt, alloc, engine.library(), session, "bump", 0, 2)?;
    let token = after_run::<N, R>(rt, alloc, &engine, token)?;
    let token = with_one_more::<N, R>(rt, &engine, token, Ticket(1), 2)?;
    let token = after_run::<N, R>(rt, alloc, &engine, token)?;
    equal(rt, token.next(), 3);
    closes(rt, engine, Vec::new(alloc), &[3], &[1, 2, 3]);
    Ok(())
}

#[test]
fn token_goes_on_where_it_was(rt: HostRuntime) -> Result<(), Fail> {
    let opening = opening(rt.alloc(), 1, 3, 1)?;
    goes_on::<Brand, HostRuntime>(&rt, rt.alloc(), opening)
}
