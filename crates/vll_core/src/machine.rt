//! The machine of atomic steps without its library: its fields, its opening, its stepping, and what can be read of it.
ghost use Rattle.std.specs.Prelude.{◌≡◌, ◌≤◌, ◌<◌, ℕ, All, length, map, IfOk, option_map, slice_get};
ghost use Rattle.vll_check.specs.Calls.{Fits};
ghost use Rattle.vll_check.specs.Catalog.{IsCatalog};
ghost use Rattle.vll_core.specs.Faults.{Refuses, open_fault};
ghost use Rattle.vll_core.specs.Journal.{journal_of};
ghost use Rattle.vll_core.specs.Machine.{running_count, step, answer_of, waiting};
ghost use Rattle.vll_core.specs.Moves.{IsReached};
ghost use Rattle.vll_core.specs.Private.FirstWords.{AreFirstWords};
ghost use Rattle.vll_core.specs.Shown.{AreWords, after, begun, library_of, opening_of};
ghost use Rattle.vll_core.specs.State.{Entered};

use crate::capacity::list_with_capacity;
use crate::config::{Config, MOST_CALLS, MOST_RECORDS, OpenFault};
use crate::event::Event;
use crate::execution::Execution;
use crate::line::Line;
use crate::opening::open_fault;
use crate::queue::Queue;
use crate::refusal::Refusal;
use crate::seen::Seen;
use crate::ticket::Ticket;
use std::alloc::{AllocError, Global};
use std::marker::Model;
use std::snapshot::Snapshot;
use vll_check::Library;
use vll_proc::Call;
use vll_sca::{Place, Status};

mod aims;
mod ending;
mod enter;
mod running;
mod turn;
mod wake;

// The call whose turn is open.
#[derive(Clone, Copy)]
pub(crate) struct OpenTurn {
    pub(crate) client: u32,
    pub(crate) call: Call,
    // How many of its claims have been requested.
    pub(crate) requested: u8,
    // Whether all of these were granted.
    pub(crate) granted: bool,
}

/// The machine of atomic steps, without its library, which is passed with each step. It takes one event at a time, and
/// keeps a value word and a pair word for each record, and the entered calls in a queue. Contracts see what it was
/// opened with, and the state of the plain machine.
#[derive(Drop)]
pub struct Machine<H: Place> {
    // The library as it was at the opening, only for contracts.
    library: Snapshot<Library>,
    // The records as they were at the opening, only for contracts.
    opening: Snapshot<Vec<u64>>,
    words: Vec<u64>,
    queue: Queue<H>,
    // What each entered call has done, by ticket.
    execution: Vec<Execution>,
    turn: Option<OpenTurn>,
    scripts: Vec<Vec<Call>>,
    // The index of each script's next call.
    next: Vec<usize>,
    // The value that is kept for it.
    kept: Vec<Option<u64>>,
}

impl<H: Place> Model for Machine<H> {
    ghost use Rattle.vll_proc.specs.contracts.syntax.Expr as expr;
    ghost use Rattle.vll_proc.specs.contracts.syntax.Stmt as stmt;
    ghost use Rattle.std.specs.Coded.{codes};
    ghost use Rattle.vll_core.specs.Shown.{Shown};

    ghost Value = { Shown H };

    ghost coded = { Prim.hlevel (codes, expr.the_row.coded, stmt.the_row.coded, H.code) };

    ghost use Rattle.vll_core.specs.Private.View.{shown};
    ghost use Rattle.vll_core.specs.Private.MachineKept.{IsMachine};

    ghost view = { shown };

    ghost invariant = { IsMachine H.place_of };
}

impl<H: Place + Drop> Machine<H> {
    // Opens a machine over these records, with no call entered, for this library. All memory is allocated here, and
    // that of `records` is freed.
    pub(crate) fn open(
        alloc: Global,
        records: Vec<u64>,
        library: &Library,
        scripts: Vec<Vec<Call>>,
        config: Config,
        hash: H,
    ) -> Result<Machine<H>, OpenFault>
        requires records { library.now.records ≡ length records.items }
        requires fits { All (λ script. All (Fits library.now) script.items) scripts.items }
        ensures refused { Refuses (open_fault (length records.items) config) result }
        ensures opened { IfOk result (λ c. c ≡ begun library.now records.items scripts.items config hash) }
    {
        match open_fault(library.records() as usize, config) {
            Some(fault) => Err(fault),
            None => Ok(Machine::open_allowed(alloc, &records, library, scripts, config, hash)?),
        }
    }

    // Opens a machine with no call entered, if nothing refuses it. Fails only if an allocation fails.
    fn open_allowed(
        alloc: Global,
        records: &Vec<u64>,
        library: &Library,
        scripts: Vec<Vec<Call>>,
        config: Config,
        hash: H,
    ) -> Result<Machine<H>, AllocError>
        requires catalog { IsCatalog library.now }
        requires allowed { open_fault library.now.records config ≡ None }
        requires records { library.now.records ≡ length records.now.items }
        requires fits { All (λ script. All (Fits library.now) script.items) scripts.items }
        ensures { IfOk result (λ c. c ≡ begun library.now records.now.items scripts.items config hash) }
    {
        let queue = Queue::open_allowed(alloc, config, hash)?;
        let words = words_of(alloc, records)?;
        let execution = list_with_capacity(alloc, config.limit as usize, Execution::blank())?;
        let next = vec![in alloc; 0; scripts.len()].map_err(|_| AllocError)?;
        let kept = vec![in alloc; None; scripts.len()].map_err(|_| AllocError)?;
        Ok(Machine {
            library: Snapshot::of(library),
            opening: Snapshot::of(records),
            words,
            queue,
            execution,
            turn: None,
            scripts,
            next,
            kept,
        })
    }

    /// Returns the words and the journal. Allocates nothing.
    pub fn into_parts(self) -> (Vec<u64>, Vec<Line>)
        ensures words { AreWords self.base self.state result.0.items }
        ensures journal { result.1.items ≡ journal_of self.base self.state }
        ensures reached { IsReached (opening_of H.place_of self) self.state }
    {
        let Machine { words, queue, .. } = self;
        (words, queue.into_journal())
    }
}

impl<H: Place> Machine<H> {
    /// Takes one step, or refuses it with the first `Refusal` that applies, as the plain machine does. A refused event
    /// changes nothing. `library` is the one of the opening. Allocates nothing.
    pub fn step(&mut self, library: &Library, event: Event) -> Result<Seen, Refusal>
        requires same { library.now ≡ library_of self.old }
        ensures answer { result ≡ answer_of (step (opening_of H.place_of self.old) self.old.state event) }
        ensures state { self.new ≡ after self.old (step (opening_of H.place_of self.old) self.old.state event) }
    {
        match event {
            Event::Find(client) => self.find(library, client),
            Event::Enter(client) => self.enter_next(library, client),
            Event::Claim => self.claim(),
            Event::Admit => self.admit(library),
            Event::Front => self.front(),
            Event::Scan => self.scan(),
            Event::Load(ticket) => self.load(library, ticket),
            Event::Store(ticket) => self.store(ticket),
            Event::Release(ticket) => self.release(ticket),
            Event::Finish(ticket) => self.finish(ticket),
        }
    }

    /// Returns the status of a ticket's call, or `None` exactly if no call has the ticket.
    pub fn state(&self, ticket: Ticket) -> Option<Status>
        ensures { result ≡ option_map (λ (e : Entered). e.status) (slice_get self.now.state.entries ticket) }
    {
        self.queue.status(ticket)
    }

    /// Returns the number of entered calls that wait. It looks at no entry.
    pub fn waiting(&self) -> u32
        ensures { result ≡ waiting self.now.state }
    {
        self.queue.waiting()
    }

    /// Returns the number of entered calls that run. It looks at no entry.
    pub fn running(&self) -> u32
        ensures { result ≡ running_count self.now.state }
    {
        self.queue.running()
    }

    /// Returns the journal: each entered call with its client, in order of entry. The line of a finished call has the
    /// reply that the call gives if the calls run one at a time in this order; the other lines have none.
    pub fn journal(&self) -> &[Line]
        ensures lines { result.now ≡ journal_of self.now.base self.now.state }
        ensures few { length result.now ≤ MOST_CALLS }
    {
        self.queue.journal()
    }

    /// Returns the words: the turn word, which is 0, and then each record's value and its pair word. The state is one
    /// that lawful moves reach, so the laws of the machine hold for it.
    pub fn words(&self) -> &[u64]
        ensures words { AreWords self.now.base self.now.state result.now }
        ensures reached { IsReached (opening_of H.place_of self.now) self.now.state }
    {
        &self.words
    }
}

// Returns the words at the opening: the turn word 0, and each record's value with its pair word 0.
fn words_of(alloc: Global, records: &[u64]) -> Result<Vec<u64>, AllocError>
    requires { length records.now ≤ MOST_RECORDS }
    ensures { IfOk result (λ words. AreFirstWords records.now words.items) }
{
    let mut words = Vec::with_capacity(alloc, 1 + 2 * records.len())?;
    words.push_reserved(0);
    for value in records {
        words.push_reserved(*value);
        words.push_reserved(0);
    }
    Ok(words)
}
