//! The answers to the lines of a round.
ghost use Rattle.std.specs.Prelude.{◌≡◌, ◌<◌, ◌∷◌, ◌++◌, [], ℕ, List, All, IfErr, IfOk, OnOk};
ghost use Rattle.vll_check.specs.Calls.{Fits};
ghost use Rattle.vll_lines.specs.Calls.{calls_of};
ghost use Rattle.vll_queue.specs.Shown.{library_of};
ghost use Rattle.vll_stream.specs.Private.Callers.{AreCallers, made_so_far};
ghost use Rattle.vll_stream.specs.Private.Stopped.{IsOwn};
ghost use Rattle.vll_stream.specs.Private.Told.{AnswersLines};

use crate::callers::Callers;
use crate::fault::StreamFault;
use std::alloc::Global;
use std::sync::Wait;
use vll_engine::{Engine, Name};
use vll_lines::{Asked, Request, Rounds, push_counts, push_fault, push_records, push_reply};
use vll_sca::Placing;

/// Makes the calls that lines ask for, one after the other, and returns the answers to the lines. `so_far` are the rounds
/// with the one of these lines.
pub(crate) fn answer_lines<N: Name>(
    wait: &impl Wait,
    alloc: Global,
    engine: &Engine<N, Placing>,
    callers: &mut Callers,
    requests: &[Request],
    so_far: Rounds,
) -> Result<Vec<u8>, StreamFault>
    requires callers { AreCallers N.engine callers.old }
    requires clients { All (λ c. c.client < N.engine.clients) (calls_of requests.now) }
    requires fits { All (λ c. Fits (library_of N.engine) c.call) (calls_of requests.now) }
    ensures callers { OnOk result (AreCallers N.engine callers.new) }
    ensures answers { IfOk result (λ text. AnswersLines N.engine (made_so_far callers.old) (made_so_far callers.new) requests.now callers.old.counts text.items callers.new.counts) }
    ensures own { IfErr result IsOwn }
{
    let mut text = Vec::new(alloc);
    for request in requests {
        text = answer_line(wait, alloc, engine, callers, request, so_far, text)?;
    }
    Ok(text)
}

// Appends the answer to a line, and makes its call before, if it asks for one.
fn answer_line<N: Name>(
    wait: &impl Wait,
    alloc: Global,
    engine: &Engine<N, Placing>,
    callers: &mut Callers,
    request: &Request,
    so_far: Rounds,
    text: Vec<u8>,
) -> Result<Vec<u8>, StreamFault>
    requires callers { AreCallers N.engine callers.old }
    requires clients { All (λ c. c.client < N.engine.clients) (calls_of (request.now ∷ [])) }
    requires fits { All (λ c. Fits (library_of N.engine) c.call) (calls_of (request.now ∷ [])) }
    ensures callers { OnOk result (AreCallers N.engine callers.new) }
    ensures answer { IfOk result (λ now. (more : List ℕ) × (now.items ≡ text.items ++ more)
        × AnswersLines N.engine (made_so_far callers.old) (made_so_far callers.new) (request.now ∷ []) callers.old.counts more callers.new.counts) }
    ensures own { IfErr result IsOwn }
{
    match &request.asked {
        Err(why) => Ok(push_fault(alloc, text, &request.id, why)?),
        Ok(Asked::Counts) => {
            let counts = callers.counts();
            Ok(push_counts(text, &request.id, counts, so_far)?)
        }
        Ok(Asked::Records(range)) => {
            callers.catch_up(wait, engine)?;
            let records = callers.records();
            Ok(push_records(text, &request.id, *range, records)?)
        }
        Ok(Asked::Call(call)) => {
            let number = callers.counts().calls;
            let reply = callers.make(wait, engine, call)?;
            Ok(push_reply(text, &request.id, number, &reply)?)
        }
    }
}
