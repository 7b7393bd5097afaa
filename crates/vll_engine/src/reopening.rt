//! The next opening of an engine in which no call runs or waits.
ghost use Rattle.std.specs.Prelude.{◌≡◌, ◌≤◌, [], IfErr, IfOk, IsOk, length, vec_capacity};
ghost use Rattle.vll_core.specs.Queue.{lines};
ghost use Rattle.vll_counters.specs.Shown.{AreNewSessions, shown_queue};
ghost use Rattle.vll_counters.specs.Steps.{first_queue};
ghost use Rattle.vll_counters.specs.Headline.Views.{calls_in};
ghost use Rattle.vll_queue.specs.Closed.{AreSerial, GoesOn, IsSerial};
ghost use Rattle.vll_queue.specs.Ended.{IsEnded};

use crate::endings::{NotReopened, Reopened};
use crate::opening::Opening;
use std::alloc::Global;
use vll_core::Line;
use vll_counters::{QueueSeat, Words};
use vll_queue::{Closed, ClosingMemory, Ended, Name, Pacing, Session};
use vll_sca::Place;

// Returns the journal, the records and the next opening. The list `values` gets the next engine's memory for records.
pub(crate) fn reopen<N: Name, H: Place + Drop>(
    ended: Ended<H>,
    alloc: Global,
    journal: Vec<Line>,
    values: Vec<u64>,
    pacing: Pacing,
) -> Result<Reopened<H>, NotReopened<N, H>>
    requires ended { IsEnded H.place_of N.engine ended }
    requires clients { ended.clients ≡ N.engine.clients }
    requires sessions { ended.clients ≤ vec_capacity ended.sessions }
    requires room { N.engine.config.limit ≤ vec_capacity journal }
    requires room_for_records { length N.engine.base.records ≤ vec_capacity values }
    ensures serial { IfOk result (λ r. AreSerial N.engine r.journal.items) }
    ensures opening { IfOk result (λ r. GoesOn H.place_of N.engine (calls_in r.journal.items) r.opening) }
    ensures records { IfOk result (λ r. r.records.items ≡ r.opening.records) }
    ensures lines { IfOk result (λ r. r.journal.items ≡ lines ended.queue) }
    ensures room { IfOk result (λ r. N.engine.config.limit ≤ vec_capacity r.journal) }
    ensures room_for_records { IfOk result (λ r. length N.engine.base.records ≤ vec_capacity r.records) }
    ensures closed { IfErr result (λ n. IfOk n.left (λ c. IsSerial N.engine c)) }
    ensures closed_lines { IfErr result (λ n. IfOk n.left (λ c. c.journal.items ≡ lines ended.queue)) }
    ensures is_closed { IfErr result (λ n. IsOk n.left) }
    ensures list { IfErr result (λ n. n.journal ≡ journal) }
    ensures records_back { IfErr result (λ n. n.records ≡ values) }
{
    let Ended {
        library,
        words,
        records,
        pairs,
        queue,
        sessions,
        clients,
    } = ended;
    let Ok((words, mut seat)) = Words::reopen(alloc, words, records.as_slice(), &library) else {
        return Err(NotReopened {
            left: Ok(Closed {
                records,
                pairs,
                journal: queue.into_journal(),
            }),
            journal,
            records: values,
        });
    };
    let (queue, lines) = queue.reopen(journal);
    let sessions = new_sessions(&words, &mut seat, sessions, clients as u32);
    let memory = ClosingMemory::of(library.records(), values, pairs);
    Ok(Reopened {
        journal: lines,
        records,
        opening: Opening::of(library, words, seat, queue, memory, sessions).with_pacing(pacing),
    })
}

// A new session for each client, in order, in a list that has room for them.
fn new_sessions(
    words: &Words,
    queue: &mut QueueSeat,
    mut sessions: Vec<Session>,
    clients: u32,
) -> Vec<Session>
    requires first { queue.old ≡ shown_queue words.now.table [] (first_queue 0) }
    requires none { sessions.items ≡ [] }
    requires room { clients ≤ vec_capacity sessions }
    ensures queue { queue.new ≡ shown_queue words.now.table [] (first_queue clients) }
    ensures sessions { AreNewSessions words.now.table clients result.items }
{
    for client in 0..clients {
        sessions.push_reserved(Session::of(client, words.make_session(queue)));
    }
    sessions
}
