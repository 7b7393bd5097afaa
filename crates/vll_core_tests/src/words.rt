//! Answers, and the content of a core, in words.
use std::alloc::{AllocError, Global};
use vll_core::{Core, Event, Line, Refusal, Seen, Ticket};
use vll_sca::{Placing, Status};

fn push_request(text: &mut String, old: u64, granted: bool) -> Result<(), AllocError> {
    let answer = if granted { "granted" } else { "denied" };
    write!(text, "claimed {old} {answer}")
}

fn push_ticket(text: &mut String, answer: &str, ticket: Ticket) -> Result<(), AllocError> {
    let number = ticket.0;
    write!(text, "{answer} {number}")
}

fn push_seen(text: &mut String, seen: &Seen) -> Result<(), AllocError> {
    match seen {
        Seen::Found(value) => write!(text, "found {value}"),
        Seen::Opened => text.push_str("opened"),
        Seen::Claimed { old, granted } => push_request(text, *old, *granted),
        Seen::Free(ticket) => push_ticket(text, "free", *ticket),
        Seen::Blocked(ticket) => push_ticket(text, "blocked", *ticket),
        Seen::Run(ticket) => push_ticket(text, "run", *ticket),
        Seen::Loaded(value) => write!(text, "loaded {value}"),
        Seen::Stored => text.push_str("stored"),
        Seen::Released(old) => write!(text, "released {old}"),
        Seen::Replied(reply) => write!(text, "replied {reply}"),
    }
}

pub(crate) fn words_of(refusal: Refusal) -> &'static str {
    match refusal {
        Refusal::TurnOpen => "refused turn open",
        Refusal::NoTurn => "refused no turn",
        Refusal::NoCall => "refused no call",
        Refusal::Spent => "refused spent",
        Refusal::Busy => "refused busy",
        Refusal::NotRunning => "refused not running",
        Refusal::OutOfStep => "refused out of step",
        Refusal::Idle => "refused idle",
    }
}

// Returns the answer to an event, in words.
pub(crate) fn said(alloc: Global, answer: Result<Seen, Refusal>) -> Result<String, AllocError> {
    let mut text = String::new(alloc);
    match answer {
        Ok(seen) => push_seen(&mut text, &seen)?,
        Err(refusal) => text.push_str(words_of(refusal))?,
    }
    Ok(text)
}

// Writes the status of a call, or its reply.
fn push_state(text: &mut String, state: Option<Status>, line: &Line) -> Result<(), AllocError> {
    match (state, &line.reply) {
        (Some(Status::Running), None) => text.push_str("running"),
        (Some(Status::Waiting), None) => text.push_str("waiting"),
        (Some(Status::Gone), Some(reply)) => write!(text, "{reply}"),
        _ => text.push_str("neither running nor waiting nor gone"),
    }
}

fn push_calls(text: &mut String, core: &Core<Placing>) -> Result<(), AllocError> {
    for (ticket, line) in (0..65_536).zip(core.journal()) {
        let client = line.client;
        write!(text, "call {ticket} client {client} ")?;
        push_state(text, core.state(Ticket(ticket)), line)?;
        text.push_str(", ")?;
    }
    Ok(())
}

// Returns words, separated by spaces.
pub(crate) fn written(alloc: Global, words: &[u64]) -> Result<String, AllocError> {
    let mut text = String::new(alloc);
    for word in words {
        let gap = if text.is_empty() { "" } else { " " };
        write!(text, "{gap}{word}")?;
    }
    Ok(text)
}

// Returns each entered call of a core, then the words.
pub(crate) fn standing(alloc: Global, core: &Core<Placing>) -> Result<String, AllocError> {
    let mut text = String::new(alloc);
    push_calls(&mut text, core)?;
    let words = written(alloc, core.words())?;
    text.push_str("words ")?;
    text.push_str(words.as_str())?;
    Ok(text)
}

// Writes the call of an open turn, and the claim that it requests next.
fn push_turn(text: &mut String, core: &Core<Placing>) -> Result<(), AllocError> {
    let Some(line) = core.line_of_turn() else {
        return Ok(());
    };
    let client = line.client;
    let number = line.call.number;
    let next = core.claim_of(Event::Claim);
    write!(text, "; client {client} enters call {number}, {next:?}")
}

// Writes what a call loads, stores and releases next if it runs.
fn push_next(text: &mut String, core: &Core<Placing>, ticket: Ticket) -> Result<(), AllocError> {
    let load = core.claim_of(Event::Load(ticket));
    let store = core.claim_of(Event::Store(ticket));
    let release = core.claim_of(Event::Release(ticket));
    write!(text, "; {load:?} {store:?} {release:?}")
}

// Returns all that a core shows of itself: what stands, the open turn, and how far each call is. It does not show how far
// the scripts are, nor what was found for a client: the answers to later events do.
pub(crate) fn content(alloc: Global, core: &Core<Placing>) -> Result<String, AllocError> {
    let mut text = standing(alloc, core)?;
    push_turn(&mut text, core)?;
    for (ticket, line) in (0..65_536).zip(core.journal()) {
        let number = line.call.number;
        write!(text, "; call {number}")?;
        push_next(&mut text, core, Ticket(ticket))?;
    }
    Ok(text)
}
