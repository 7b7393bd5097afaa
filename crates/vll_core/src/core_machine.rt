//! `Core`, the machine of atomic steps together with its library.
ghost use Rattle.std.specs.Prelude.{◌≡◌, ◌≤◌, ◌<◌, ℕ, All, length, IfOk, option_map, slice_get};
ghost use Rattle.vll_check.specs.Calls.{Fits, IsReady};
ghost use Rattle.vll_core.specs.Faults.{Refuses, open_fault};
ghost use Rattle.vll_core.specs.Journal.{journal_of};
ghost use Rattle.vll_core.specs.Machine.{entered, running_count, step, answer_of, waiting};
ghost use Rattle.vll_core.specs.Moves.{IsReached, hand, move};
ghost use Rattle.vll_core.specs.Next.{claim_of, line_of_turn};
ghost use Rattle.vll_core.specs.Shown.{AreWords, after, begun, library_of, opening_of};
ghost use Rattle.vll_core.specs.State.{Entered};

use crate::config::{Config, MOST_CALLS, OpenFault};
use crate::event::Event;
use crate::line::Line;
use crate::machine::Machine;
use crate::refusal::Refusal;
use crate::seen::Seen;
use crate::ticket::Ticket;
use std::alloc::Global;
use std::marker::Model;
use vll_check::Library;
use vll_proc::Call;
use vll_record::Claim;
use vll_sca::{Place, Status};

mod drain;

/// The machine of atomic steps with its library. It takes one event at a time, and keeps a value word and a pair word
/// for each record, and the entered calls in a queue. Contracts see what it was opened with, and the state of the plain
/// machine.
#[derive(Drop)]
pub struct Core<H: Place> {
    machine: Machine<H>,
    library: Library,
}

impl<H: Place> Model for Core<H> {
    ghost use Rattle.std.specs.Prelude.{◌≡◌};
    ghost use Rattle.vll_proc.specs.contracts.syntax.Expr as expr;
    ghost use Rattle.vll_proc.specs.contracts.syntax.Stmt as stmt;
    ghost use Rattle.std.specs.Coded.{codes};
    ghost use Rattle.vll_core.specs.Shown.{Shown, library_of};

    ghost Value = { Shown H };

    ghost coded = { Prim.hlevel (codes, expr.the_row.coded, stmt.the_row.coded, H.code) };

    ghost view = { λ c. c.machine };

    ghost invariant = { λ c. c.library ≡ library_of c.machine };
}

impl<H: Place + Drop> Core<H> {
    /// Opens a machine over these records, with no call entered. Fails with the first fault that applies, as
    /// `open_fault` returns it: `Records`, `Limit`, `Cap` or `Bits`; if none applies, only with `NoMemory`. All memory
    /// is allocated here, and that of `records` is freed.
    pub fn open(
        alloc: Global,
        records: Vec<u64>,
        library: Library,
        scripts: Vec<Vec<Call>>,
        config: Config,
        hash: H,
    ) -> Result<Core<H>, OpenFault>
        requires records { library.records ≡ length records.items }
        requires fits { All (λ script. All (Fits library) script.items) scripts.items }
        ensures refused { Refuses (open_fault (length records.items) config) result }
        ensures opened { IfOk result (λ c. c ≡ begun library records.items scripts.items config hash) }
    {
        let machine = Machine::open(alloc, records, &library, scripts, config, hash)?;
        Ok(Core { machine, library })
    }
}

impl<H: Place> Core<H> {
    /// Takes one step, or refuses it with the first `Refusal` that applies, as the plain machine does. A refused event
    /// changes nothing. Allocates nothing.
    pub fn step(&mut self, event: Event) -> Result<Seen, Refusal>
        ensures answer { result ≡ answer_of (step (opening_of H.place_of self.old) self.old.state event) }
        ensures state { self.new ≡ after self.old (step (opening_of H.place_of self.old) self.old.state event) }
    {
        self.machine.step(&self.library, event)
    }

    /// Opens a turn for `call`, for a client that has a script, even an empty one; the script and the value kept for it
    /// do not change. Refused with `TurnOpen`, `Spent` or `Busy`, tested in this order, as for Enter. A refusal changes
    /// nothing. Allocates nothing.
    pub fn enter(&mut self, client: u32, call: &Call) -> Result<(), Refusal>
        requires client { client < length self.old.state.scripts }
        requires ready { IsReady (library_of self.old) call.now }
        ensures answer { result ≡ entered (move (opening_of H.place_of self.old) self.old.state (hand client call.now)) }
        ensures state { self.new ≡ after self.old (move (opening_of H.place_of self.old) self.old.state (hand client call.now)) }
    {
        self.machine.enter(&self.library, client, call)
    }

    /// Returns the machine without its library, and the library. Allocates nothing.
    pub fn into_parts(self) -> (Machine<H>, Library)
        ensures machine { result.0 ≡ self }
        ensures library { result.1 ≡ library_of self }
    {
        let Core { machine, library } = self;
        (machine, library)
    }

    /// Returns the status of a ticket's call, or `None` exactly if no call has the ticket.
    pub fn state(&self, ticket: Ticket) -> Option<Status>
        ensures { result ≡ option_map (λ (e : Entered). e.status) (slice_get self.now.state.entries ticket) }
    {
        self.machine.state(ticket)
    }

    /// Returns the claim that an event would act on, if it were made now: the next one that the call of the open turn
    /// requests, or that a running call loads, stores or releases. `None` if there is none, and for any other event.
    pub fn claim_of(&self, event: Event) -> Option<Claim>
        ensures { result ≡ claim_of self.now.state event }
    {
        self.machine.claim_of(event)
    }

    /// Returns the line that the call of the open turn gets when it enters, if a turn is open.
    pub fn line_of_turn(&self) -> Option<Line>
        ensures { result ≡ option_map line_of_turn self.now.state.turn }
    {
        self.machine.line_of_turn()
    }

    /// Returns the number of entered calls that wait. It looks at no entry.
    pub fn waiting(&self) -> u32
        ensures { result ≡ waiting self.now.state }
    {
        self.machine.waiting()
    }

    /// Returns the number of entered calls that run. It looks at no entry.
    pub fn running(&self) -> u32
        ensures { result ≡ running_count self.now.state }
    {
        self.machine.running()
    }

    /// Returns the journal: each entered call with its client, in order of entry. The line of a finished call has the
    /// reply that the call gives if the calls run one at a time in this order; the other lines have none.
    pub fn journal(&self) -> &[Line]
        ensures lines { result.now ≡ journal_of self.now.base self.now.state }
        ensures few { length result.now ≤ MOST_CALLS }
    {
        self.machine.journal()
    }

    /// Returns the words: the turn word, which is 0, and then each record's value and its pair word. The state is one
    /// that lawful moves reach, so the laws of the machine hold for it.
    pub fn words(&self) -> &[u64]
        ensures words { AreWords self.now.base self.now.state result.now }
        ensures reached { IsReached (opening_of H.place_of self.now) self.now.state }
    {
        self.machine.words()
    }
}
