//! An opening: an engine that has all its memory but no name yet, and the start of that engine.
ghost use Rattle.std.specs.Prelude.{◌≡◌, ◌<◌, [], IfOk, length};
ghost use Rattle.vll_core.specs.Faults.{Refuses, open_fault};
ghost use Rattle.vll_core.specs.Queue.{config_of, emptied};
ghost use Rattle.vll_core.specs.Headline.State.{catalog_of};
ghost use Rattle.vll_counters.specs.Shown.{AreNewSessions, shown_queue};
ghost use Rattle.vll_counters.specs.Steps.{first_queue};
ghost use Rattle.vll_engine.specs.Private.Seats.{AreClients};
ghost use Rattle.vll_queue.specs.Shown.{name_of, opening};

use crate::engine::Engine;
use std::alloc::{AllocError, Global};
use std::marker::Model;
use vll_check::Library;
use vll_core::{Config, OpenFault, Queue, open_fault};
use vll_counters::{QueueSeat, SessionSeat, Words};
use vll_queue::{ClosingMemory, Locked, Name, Pacing, Session};
use vll_sca::Place;

/// An engine that has no name yet. Contracts see which words it has, and what it was opened with.
#[derive(Drop)]
pub struct Opening<H: Place> {
    words: Words,
    seat: QueueSeat,
    queue: Queue<H>,
    library: Library,
    sessions: Vec<Session>,
    memory: ClosingMemory,
    pacing: Pacing,
}

impl<H: Place> Model for Opening<H> {
    ghost use Rattle.vll_proc.specs.contracts.syntax.Expr as expr;
    ghost use Rattle.vll_proc.specs.contracts.syntax.Stmt as stmt;
    ghost use Rattle.std.specs.Coded.{codes};
    ghost use Rattle.vll_queue.specs.Shown.{OpeningShown};

    ghost Value = { OpeningShown H };

    ghost coded = { Prim.hlevel (codes, expr.the_row.coded, stmt.the_row.coded, H.code) };

    ghost use Rattle.vll_engine.specs.Private.Opened.{shown, IsOpening};

    ghost view = { shown };

    ghost invariant = { IsOpening };
}

impl<H: Place + Drop> Opening<H> {
    /// An engine over these records with `clients` clients, in which no call has entered. Returns the lowest fault that
    /// holds, by `open_fault` of `vll_core`: `Records`, `Limit`, `Cap` or `Bits`; if none holds, only `NoMemory` is
    /// possible. All memory of the engine is allocated here.
    pub fn new(
        alloc: Global,
        records: Vec<u64>,
        library: Library,
        config: Config,
        hash: H,
        clients: u32,
    ) -> Result<Opening<H>, OpenFault>
        requires records { library.records ≡ length records.items }
        ensures refused { Refuses (open_fault (length records.items) config) result }
        ensures opened { IfOk result (λ o. o ≡ opening o.table library records.items config hash clients) }
    {
        if let Some(fault) = open_fault(records.len(), config) {
            return Err(fault);
        }
        let queue = Queue::open(alloc, config, hash)?;
        let memory = ClosingMemory::new(alloc, records.len() as u32)?;
        let (words, seat, seats) = Words::open(alloc, records.as_slice(), &library, clients)?;
        let sessions = sessions(alloc, seats)?;
        Ok(Opening {
            words,
            seat,
            queue,
            library,
            sessions,
            memory,
            pacing: Pacing::usual(),
        })
    }

    // An opening of these parts, in which no call has entered.
    pub(crate) fn of(
        library: Library,
        words: Words,
        seat: QueueSeat,
        queue: Queue<H>,
        memory: ClosingMemory,
        sessions: Vec<Session>,
    ) -> Opening<H>
        requires library { library ≡ catalog_of words.base }
        requires queue { queue ≡ emptied queue }
        requires seat { seat ≡ shown_queue words.table [] (first_queue seat.clients) }
        requires few { seat.clients < 4294967296 }
        requires memory { memory ≡ length words.base.records }
        requires sessions { AreNewSessions words.table seat.clients sessions.items }
        ensures { result ≡ opening words.table library words.base.records (config_of queue) queue.hash seat.clients }
    {
        Opening {
            words,
            seat,
            queue,
            library,
            sessions,
            memory,
            pacing: Pacing::usual(),
        }
    }

    /// The same opening, whose engine, with all that are reopened after it, looks, waits and puts off as the pacing
    /// says, and not as `Pacing::usual`. It affects speed alone.
    pub fn with_pacing(mut self, pacing: Pacing) -> Opening<H>
        ensures { result ≡ self }
    {
        self.pacing = pacing;
        self
    }
}

impl<H: Place + Drop> Opening<H> {
    /// Starts the engine, and returns it with a session for each client, in order, which has seen nothing. `N` has to
    /// name this opening.
    pub fn start<N: Name>(self) -> (Engine<N, H>, Vec<Session>)
        requires named { N.engine ≡ name_of H.place_of self }
        ensures sessions { AreNewSessions N.engine.table N.engine.clients result.1.items }
    {
        let Opening {
            words,
            seat,
            queue,
            library,
            sessions,
            memory,
            pacing,
        } = self;
        let locked = Locked::new(queue, seat, &pacing);
        (
            Engine::new(library, words, locked, memory, pacing),
            sessions,
        )
    }
}

// The sessions of these seats, each for the client whose seat it has, in order.
fn sessions(alloc: Global, seats: Vec<SessionSeat>) -> Result<Vec<Session>, AllocError>
    requires few { length seats.items < 4294967296 }
    requires clients { AreClients seats.items }
    ensures { IfOk result (λ s. s.items ≡ seats.items) }
{
    let mut sessions = Vec::with_capacity(alloc, seats.len())?;
    let mut client = 0;
    for seat in seats {
        sessions.push_reserved(Session::of(client, seat));
        client += 1;
    }
    Ok(sessions)
}
