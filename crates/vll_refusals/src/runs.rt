//! A run by worker threads, with and without a bound on their starts.
ghost use Rattle.std.specs.Prelude.{◌≡◌, ◌≤◌, ◌<◌, ◌^◌, All, length};
ghost use Rattle.vll_check.specs.Calls.{Fits};
ghost use Rattle.vll_queue.specs.Shown.{library_of, name_of};
ghost use Rattle.vll_sca.specs.Placing.{placing};

use crate::answer::Answer;
use crate::unready::Unready;
use crate::{begin, end};
use std::alloc::Global;
use std::marker::Brand;
use std::sync::Wait;
use std::thread::Threads;
use vll_core::Line;
use vll_engine::{Closed, Name, Opening};
use vll_proc::{Call, Reply};
use vll_sca::Placing;
use vll_server::{
    MOST_CLIENTS, Plain, Scenario, ScenarioFault, opening_of, read_scenario, tokens_of,
};
use vll_workers::{OpenGate, RunFault, Token, run, run_limited};

pub(crate) const CLIENTS: usize = 4;

/// The number of calls each client makes.
pub(crate) const CALLS: u32 = 3;

const WORKERS: u32 = 8;

/// The number of thread starts that `run_limited` may try: if the only one fails, it returns `Spawn`.
pub(crate) const STARTS: u32 = 1;

// Four clients that change one record three times each.
const FOUR_CLIENTS: &str = r#"{"version":1,"records":[0],
 "procs":[{"name":"bump","args":1,"keys":[["write","arg",0]],
   "body":[["set",0,["add",["key",0],1]],["reply",["key",0]]]}],
 "clients":[
  [{"proc":"bump","args":[0]},{"proc":"bump","args":[0]},{"proc":"bump","args":[0]}],
  [{"proc":"bump","args":[0]},{"proc":"bump","args":[0]},{"proc":"bump","args":[0]}],
  [{"proc":"bump","args":[0]},{"proc":"bump","args":[0]},{"proc":"bump","args":[0]}],
  [{"proc":"bump","args":[0]},{"proc":"bump","args":[0]},{"proc":"bump","args":[0]}]]}"#;

/// A scenario of four clients on one record.
pub(crate) fn four_clients(alloc: Global) -> Result<Scenario, ScenarioFault> {
    read_scenario(alloc, &mut Plain::new(FOUR_CLIENTS.as_bytes()))
}

/// Runs the calls of the four clients, with `run_limited` if the starts have a bound, else with `run`.
pub(crate) fn run_clients<R: Print + AllocGlobal + Threads + Wait + Sync>(
    rt: &R,
    starts: Option<u32>,
) -> Result<Answer, Unready> {
    let scenario = four_clients(rt.alloc())?;
    let (opening, scripts) = opening_of(rt.alloc(), scenario)?;
    run_named::<Brand, R>(rt, rt.alloc(), opening, scripts, starts)
}

// Runs them in an engine of this name.
fn run_named<N: Name + Send + Sync, R: Print + Threads + Wait + Sync>(
    rt: &R,
    alloc: Global,
    opening: Opening<Placing>,
    scripts: Vec<Vec<Call>>,
    starts: Option<u32>,
) -> Result<Answer, Unready>
    requires named { N.engine ≡ name_of placing opening }
    requires clients { N.engine.clients ≡ length scripts.items }
    requires few { length scripts.items ≤ MOST_CLIENTS }
    requires short { All (λ script. length script.items < 2 ^ 32) scripts.items }
    requires fits { All (λ script. All (Fits (library_of N.engine)) script.items) scripts.items }
{
    let (engine, sessions) = opening.start::<N>();
    let tokens = tokens_of::<N>(alloc, sessions, scripts)?;
    begin(rt)?;
    let ran = match starts {
        None => run(rt, rt, alloc, &engine, tokens, WORKERS, &OpenGate),
        Some(starts) => run_limited(rt, rt, alloc, &engine, tokens, WORKERS, starts, &OpenGate),
    };
    end(rt)?;
    let (answer, tokens) = match ran {
        Ok(tokens) => (Answer::Ample, tokens),
        Err(error) => (of_fault(error.fault), error.tokens),
    };
    let left = match engine.close(Vec::new(alloc)) {
        Ok(closed) => closed,
        Err(_) => return Ok(Answer::Wrong),
    };
    Ok(match answer {
        Answer::Ample => answer.only_if(are_through(tokens.as_slice()) && is_done(&left)),
        _ => answer.only_if(are_as_they_came(tokens.as_slice()) && is_untouched(&left)),
    })
}

fn of_fault(fault: RunFault) -> Answer {
    match fault {
        RunFault::NoMemory => Answer::NoMemory,
        RunFault::Spawn => Answer::Spawn,
        RunFault::Spent => Answer::Wrong,
    }
}

// Whether the tokens are back in rising order of their clients, each with all its calls entered.
fn are_through(tokens: &[Token]) -> bool {
    for (client, token) in tokens.iter().enumerate() {
        if token.client() as usize != client || token.next() != CALLS {
            return false;
        }
    }
    tokens.len() == CLIENTS
}

// Whether the tokens are in the order in which they were passed, that of their clients, and none has entered a call.
fn are_as_they_came(tokens: &[Token]) -> bool {
    for (client, token) in tokens.iter().enumerate() {
        if token.client() as usize != client || token.next() != 0 {
            return false;
        }
    }
    tokens.len() == CLIENTS
}

// Whether each call of all clients has added 1, in the order of entry.
fn is_done(closed: &Closed) -> bool {
    counts_up(closed.journal.as_slice(), 12) && holds(closed, 12)
}

/// Whether `calls` calls have added 1 each, in the order of entry.
pub(crate) fn counts_up(journal: &[Line], calls: usize) -> bool {
    for (ticket, line) in journal.iter().enumerate() {
        if !replies(line, ticket as u64) {
            return false;
        }
    }
    journal.len() == calls
}

/// Whether the record has this value, and no claim is open.
pub(crate) fn holds(closed: &Closed, value: u64) -> bool {
    closed.records.as_slice() == [value].as_slice() && closed.pairs.as_slice() == [0].as_slice()
}

// Whether the reply is one more than the ticket.
fn replies(line: &Line, ticket: u64) -> bool {
    match &line.reply {
        Some(Reply::Committed(outputs)) => {
            outputs.as_slice() == [ticket.saturating_add(1)].as_slice()
        }
        _ => false,
    }
}

// Whether nothing has entered.
fn is_untouched(closed: &Closed) -> bool {
    closed.journal.is_empty() && holds(closed, 0)
}
