//! An engine that is reopened over its records.
ghost use Rattle.std.specs.Prelude.{◌≡◌, ◌≤◌, IfOk, OnOk, length, vec_capacity};

use crate::answer::Answer;
use crate::runs::{CALLS, CLIENTS, counts_up, four_clients, holds};
use crate::unready::Unready;
use crate::{begin, end};
use std::alloc::Global;
use std::sync::Wait;
use vll_core::{Config, Line};
use vll_engine::{Client, Clients, Closed, Engine, Name, NotReopened, Opening, Reopened, Service};
use vll_sca::Placing;

// The client in a line that the engine has not written.
const MARK: u32 = 77;

/// Makes the calls of one client, and reopens the engine.
pub(crate) fn reopen<R: Print + AllocGlobal + Wait>(rt: &R) -> Result<Answer, Unready> {
    let parts = four_clients(rt.alloc())?.into_parts();
    let config = Config {
        limit: CALLS,
        ..parts.config
    };
    let opening = Opening::new(
        rt.alloc(),
        parts.records,
        parts.library,
        config,
        parts.placing,
        CLIENTS as u32,
    )?;
    opening.host(Reopening {
        rt,
        alloc: rt.alloc(),
    })
}

// Makes a client's calls and reopens the engine. The list for the journal already holds a line.
#[derive(Drop)]
struct Reopening<'a, R> {
    rt: &'a R,
    alloc: Global,
}

impl<'a, R: Print + Wait> Service for Reopening<'a, R> {
    type Answer = Result<Answer, Unready>;

    ghost use Rattle.std.specs.Prelude.{◌≡◌};
    ghost use Rattle.vll_refusals.specs.declared.runs.TheConstants.{CALLS};

    ghost allows = { λ _ e. e.config.limit ≡ CALLS };

    fn host<N: Name>(
        self,
        engine: Engine<N, Placing>,
        mut clients: Clients<N>,
    ) -> Result<Answer, Unready>
        requires limit { N.engine.config.limit ≡ CALLS }
    {
        make_all(self.rt, &engine, &mut clients)?;
        let journal = list_with_a_line(self.alloc, &engine)?;
        let records = Vec::with_capacity(self.alloc, engine.library().records() as usize)?;
        begin(self.rt)?;
        let reopened = engine.reopen(self.alloc, clients.into_sessions(), journal, records);
        end(self.rt)?;
        Ok(match reopened {
            Ok(next) => of_next(next),
            Err(refused) => of_refused(&refused),
        })
    }
}

// Makes one client's calls, after which all clients are back.
fn make_all<N: Name>(
    rt: &impl Wait,
    engine: &Engine<N, Placing>,
    clients: &mut Clients<N>,
) -> Result<(), Unready>
    ensures { OnOk result (length clients.new ≡ N.engine.clients) }
{
    let client = clients.pop().ok_or(Unready)?;
    clients.push(make_calls(rt, engine, client)?)?;
    if clients.are_all() {
        Ok(())
    } else {
        Err(Unready)
    }
}

// Makes a client's calls.
fn make_calls<N: Name>(
    rt: &impl Wait,
    engine: &Engine<N, Placing>,
    client: Client<N>,
) -> Result<Client<N>, Unready> {
    let mut client = client;
    for _ in 0..CALLS {
        client.call(rt, engine, "bump", &[0])?;
    }
    Ok(client)
}

// A list with room for all calls, which holds a line of no client of the engine.
fn list_with_a_line<N: Name>(
    alloc: Global,
    engine: &Engine<N, Placing>,
) -> Result<Vec<Line>, Unready>
    ensures { IfOk result (λ journal. CALLS ≤ vec_capacity journal) }
{
    let mut journal = Vec::with_capacity(alloc, CALLS as usize)?;
    journal.push(marked(engine)?)?;
    Ok(journal)
}

fn marked<N: Name>(engine: &Engine<N, Placing>) -> Result<Line, Unready> {
    Ok(Line {
        call: engine.library().call("bump", &[0])?,
        client: MARK,
        reply: None,
    })
}

// Whether a list has only that line.
fn is_marked(journal: &[Line]) -> bool {
    match journal {
        [line] => line.client == MARK,
        _ => false,
    }
}

// Whether all calls are in the journal, and the record is as they leave it.
fn is_closed(closed: &Closed) -> bool {
    counts_up(closed.journal.as_slice(), CALLS as usize) && holds(closed, u64::from(CALLS))
}

// The answer for an engine that was not reopened: it is closed, and the list is returned.
fn of_refused<N: Name>(refused: &NotReopened<N, Placing>) -> Answer {
    match &refused.left {
        Ok(closed) => {
            let is_back = is_marked(refused.journal.as_slice());
            Answer::NoMemory.only_if(is_closed(closed) && is_back)
        }
        Err(_) => Answer::Wrong,
    }
}

// The answer for a reopened engine: the next one has the record, and has taken no call yet.
fn of_next(next: Reopened<Placing>) -> Answer {
    let is_all = counts_up(next.journal.as_slice(), CALLS as usize);
    Answer::Ample.only_if(is_all && next.opening.host(Closing))
}

// Whether an engine has the record, and has taken no call.
#[derive(Drop)]
struct Closing;

impl Service for Closing {
    type Answer = bool;

    fn host<N: Name>(self, engine: Engine<N, Placing>, clients: Clients<N>) -> bool {
        match engine.close(clients.into_sessions()) {
            Ok(closed) => closed.journal.is_empty() && holds(&closed, u64::from(CALLS)),
            Err(_) => false,
        }
    }
}
