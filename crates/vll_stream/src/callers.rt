//! The sessions of a service's clients, and the calls that they have made in an engine.
ghost use Rattle.std.specs.Prelude.{◌≡◌, ◌<◌, ◌≤◌, [], All, IfErr, IfOk, OnOk, Some, drop};
ghost use Rattle.vll_check.specs.Calls.{Fits, IsReady};
ghost use Rattle.vll_counters.specs.Headline.Views.{calls_in};
ghost use Rattle.vll_counters.specs.Shown.{AreNewSessions};
ghost use Rattle.vll_lines.specs.Counts.{counted};
ghost use Rattle.vll_proc.specs.Headline.Serial.{end};
ghost use Rattle.vll_queue.specs.Shown.{library_of};
ghost use Rattle.vll_stream.specs.Private.Callers.{AreCallers, IsInformed, IsSnapshot, MakesCall, made_so_far};
ghost use Rattle.vll_stream.specs.declared.fault.StreamFault.TheVariants as fault;

use crate::fault::StreamFault;
use crate::snapshot::{Snapshot, make_all};
use std::sync::Wait;
use vll_core::Ticket;
use vll_engine::{Engine, Name, Session};
use vll_lines::{ClientCall, Counts};
use vll_proc::Reply;
use vll_sca::Placing;
use vll_scenario::MOST_CLIENTS;

/// The sessions of an engine's clients, in order, how many calls they have made, and a snapshot of the records.
#[derive(Drop)]
pub(crate) struct Callers {
    sessions: Vec<Session>,
    // A client that has seen all calls made in this engine. `None`: there are none.
    informed: Option<u32>,
    // How many these are.
    calls: u64,
    // The calls made in this engine and in those before.
    counts: Counts,
    // The records as the first of the calls made in this engine have left them.
    snapshot: Snapshot,
}

impl Callers {
    /// The clients of a new engine, after these calls in those before, and its records.
    pub(crate) fn new<N: Name>(
        sessions: Vec<Session>,
        counts: Counts,
        snapshot: Snapshot,
    ) -> Callers
        requires sessions { AreNewSessions N.engine.table N.engine.clients sessions.items }
        requires snapshot { IsSnapshot N.engine [] snapshot }
        ensures callers { AreCallers N.engine result }
        ensures none { made_so_far result ≡ [] }
        ensures counts { result.counts ≡ counts }
    {
        Callers {
            sessions,
            informed: None,
            calls: 0,
            counts,
            snapshot,
        }
    }

    /// How many clients there are.
    pub(crate) fn clients<N: Name>(&self) -> u32
        requires callers { AreCallers N.engine self.now }
        requires few { N.engine.clients ≤ MOST_CLIENTS }
        ensures { result ≡ N.engine.clients }
    {
        self.sessions.len() as u32
    }

    /// How many calls were made in this engine.
    pub(crate) fn calls(&self) -> u64
        ensures { result ≡ self.now.calls }
    {
        self.calls
    }

    /// The calls made in this engine and in those before.
    pub(crate) fn counts(&self) -> Counts
        ensures { result ≡ self.now.counts }
    {
        self.counts
    }

    /// Returns the sessions, as an engine takes them when it ends, and the snapshot.
    pub(crate) fn into_parts(self) -> (Vec<Session>, Snapshot)
        ensures sessions { result.0 ≡ self.sessions }
        ensures snapshot { result.1 ≡ self.snapshot }
    {
        (self.sessions, self.snapshot)
    }

    /// The records as the calls made in this engine leave them, once `catch_up` was called after the last of them.
    pub(crate) fn records(&self) -> &[u64]
        ensures { result.now ≡ self.now.snapshot.values.items }
    {
        self.snapshot.values.as_slice()
    }

    /// Makes a client's call, and returns its reply. Its ticket is the number of the calls before it.
    pub(crate) fn make<N: Name>(
        &mut self,
        wait: &impl Wait,
        engine: &Engine<N, Placing>,
        call: &ClientCall,
    ) -> Result<Reply, StreamFault>
        requires callers { AreCallers N.engine self.old }
        requires client { call.now.client < N.engine.clients }
        requires fits { Fits (library_of N.engine) call.now.call }
        ensures callers { OnOk result (AreCallers N.engine self.new) }
        ensures made { IfOk result (MakesCall N.engine (made_so_far self.old) (made_so_far self.new) call.now) }
        ensures counts { IfOk result (λ reply. self.new.counts ≡ counted self.old.counts reply) }
        ensures unfinished { IfErr result (λ why. why ≡ fault.Unfinished) }
    {
        self.inform(engine, call.client);
        let session = &mut self.sessions[call.client as usize];
        // Many threads may share an engine, so that no contract of it can say that no other thread enters calls: a call
        // might be refused, or get another ticket. And a count ends at 2^64.
        let Ok((ticket, reply)) = engine.call(wait, session, &call.call) else {
            return Err(StreamFault::Unfinished);
        };
        let is_full = self.counts.is_full();
        if u64::from(ticket.0) != self.calls || is_full {
            return Err(StreamFault::Unfinished);
        }
        self.calls += 1;
        self.counts = self.counts.with(&reply);
        Ok(reply)
    }

    // Makes a client's session see all calls that were made: so its next call comes after them.
    fn inform<N: Name>(&mut self, engine: &Engine<N, Placing>, client: u32)
        requires callers { AreCallers N.engine self.old }
        requires client { client < N.engine.clients }
        ensures { IsInformed N.engine self.old self.new client }
    {
        if let Some(informed) = self.informed {
            let news = engine.tell(&mut self.sessions[informed as usize]);
            engine.hear(&mut self.sessions[client as usize], news);
        }
        self.informed = Some(client);
    }

    /// Makes the calls since the last time on the snapshot too, so that it has the records as all calls made in this
    /// engine leave them.
    pub(crate) fn catch_up<N: Name>(
        &mut self,
        wait: &impl Wait,
        engine: &Engine<N, Placing>,
    ) -> Result<(), StreamFault>
        requires callers { AreCallers N.engine self.old }
        ensures callers { OnOk result (AreCallers N.engine self.new) }
        ensures made { OnOk result (made_so_far self.new ≡ made_so_far self.old) }
        ensures counts { self.new.counts ≡ self.old.counts }
        ensures records { OnOk result (self.new.snapshot.values.items ≡ end N.engine.base.procs (made_so_far self.old) N.engine.base.records) }
        ensures unfinished { IfErr result (λ why. why ≡ fault.Unfinished) }
    {
        let Some(informed) = self.informed else {
            return Ok(());
        };
        self.take_lines(wait, engine, informed)?;
        make_all(
            engine.library(),
            &mut self.snapshot.values,
            self.snapshot.room.as_slice(),
        );
        self.snapshot.calls = self.calls;
        Ok(())
    }

    // Takes the lines of the calls that the snapshot lacks into its room.
    fn take_lines<N: Name>(
        &mut self,
        wait: &impl Wait,
        engine: &Engine<N, Placing>,
        informed: u32,
    ) -> Result<(), StreamFault>
        requires callers { AreCallers N.engine self.old }
        requires informed { self.old.informed ≡ Some informed }
        ensures callers { IsInformed N.engine self.old self.new informed }
        ensures values { self.new.snapshot.values ≡ self.old.snapshot.values }
        ensures calls { self.new.snapshot.calls ≡ self.old.snapshot.calls }
        ensures lines { OnOk result (calls_in self.new.snapshot.room.items ≡ drop self.old.snapshot.calls (made_so_far self.old)) }
        ensures ready { OnOk result (All (λ l. IsReady (library_of N.engine) l.call) self.new.snapshot.room.items) }
        ensures unfinished { IfErr result (λ why. why ≡ fault.Unfinished) }
    {
        let room = &mut self.snapshot.room;
        room.clear();
        // An engine has no ticket of more bits.
        let Ok(from) = u32::try_from(self.snapshot.calls) else {
            return Err(StreamFault::Unfinished);
        };
        let session = &mut self.sessions[informed as usize];
        engine.lines_from(wait, session, Ticket(from), room);
        // As `make` says, another thread might have entered calls, which have not finished.
        if room.len() as u64 != self.calls - self.snapshot.calls {
            return Err(StreamFault::Unfinished);
        }
        Ok(())
    }
}
