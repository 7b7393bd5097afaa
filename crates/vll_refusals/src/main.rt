//! Calls one of the functions that allocate, on a small input, and reports whether its answer is right, also if an
//! allocation fails. tools/trials makes each allocation fail in turn.
#![tactic(auto)]

mod answer;
mod reopening;
mod rooms;
mod runs;
mod texts;
mod unready;

use crate::answer::Answer;
use crate::unready::Unready;
use std::process::ExitCode;
use std::rt::Env;
use std::sync::Wait;
use std::thread::Threads;
use std::{env, io};

const USAGE: &str = "usage: vll_refusals CALL
the calls: bits queue core words opening reopen run run_limited read_scenario write_outcome serve replay serve_stream";

fn main(rt: HostRuntime) -> ExitCode {
    match answer_of(&rt) {
        Ok(Some(answer)) => {
            let _ = println!(rt; "{}", answer.word());
            ExitCode::from(answer.status())
        }
        Ok(None) => ExitCode::from(0),
        Err(_) => {
            let _ = println!(rt; "not ready");
            ExitCode::from(2)
        }
    }
}

// Returns the answer of the call that the command line names, if it names one.
fn answer_of<R: Env + Print + AllocGlobal + Threads + Wait + Sync>(
    rt: &R,
) -> Result<Option<Answer>, Unready> {
    let words: Vec<String> = env::args(rt)?.collect(rt.alloc())?;
    match words.as_slice() {
        [_, word] => of_call(rt, word.as_str()),
        _ => usage(rt),
    }
}

fn of_call<R: Print + AllocGlobal + Threads + Wait + Sync>(
    rt: &R,
    call: &str,
) -> Result<Option<Answer>, Unready> {
    let answer = match call {
        "bits" => rooms::bits(rt)?,
        "queue" => rooms::queue(rt)?,
        "core" => rooms::core(rt)?,
        "words" => rooms::words(rt)?,
        "opening" => rooms::opening(rt)?,
        "reopen" => reopening::reopen(rt)?,
        "run" => runs::run_clients(rt, None)?,
        "run_limited" => runs::run_clients(rt, Some(runs::STARTS))?,
        "read_scenario" => texts::read(rt)?,
        "write_outcome" => texts::write(rt)?,
        "serve" => texts::served(rt)?,
        "replay" => texts::replayed(rt)?,
        "serve_stream" => texts::streamed(rt)?,
        _ => return usage(rt),
    };
    Ok(Some(answer))
}

fn usage(rt: &impl Print) -> Result<Option<Answer>, Unready> {
    println!(rt; "{USAGE}")?;
    Ok(None)
}

// Prints that the call begins. Allocations are counted from this line on.
fn begin(rt: &impl Print) -> io::Result<()> {
    println!(rt; "begin")
}

// Prints that the call has ended.
fn end(rt: &impl Print) -> io::Result<()> {
    println!(rt; "end")
}
