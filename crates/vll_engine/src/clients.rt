//! The clients of an engine that no thread is using, and the start of an engine with all its clients.
ghost use Rattle.std.specs.Prelude.{◌≡◌, ◌++◌, ◌∷◌, ◌↔◌, [], All, IfNone, IfSome, IsTrue, OnErr, OnOk, length};
ghost use Rattle.vll_counters.specs.Shown.{AreNewSessions};
ghost use Rattle.vll_queue.specs.Shown.{name_of};

use crate::client::Client;
use crate::engine::Engine;
use crate::opening::Opening;
use std::alloc::AllocError;
use std::marker::{Model, PhantomData};
use vll_queue::{Name, Session};
use vll_sca::Place;

/// A list of clients of the engine of this name: a thread that is to make calls takes one, and puts it back afterwards.
/// Contracts see the sessions of those in the list.
#[derive(Drop)]
pub struct Clients<N: Name> {
    sessions: Vec<Session>,
    // The number of clients of the engine.
    all: u32,
    of: PhantomData<N>,
}

impl<N: Name> Model for Clients<N> {
    ghost use Rattle.std.specs.Prelude.{◌≡◌, All, List};
    ghost use Rattle.vll_counters.specs.Shown.{SessionShown};

    ghost Value = { List SessionShown };

    ghost view = { λ c. c.sessions.items };

    ghost invariant = { λ c. All (λ s. s.table ≡ N.engine.table) c.sessions.items × (c.all ≡ N.engine.clients) };
}

impl<N: Name> Clients<N> {
    // The clients with these sessions, of an engine with `all` clients.
    pub(crate) fn of(sessions: Vec<Session>, all: u32) -> Clients<N>
        requires sessions { All (λ s. s.table ≡ N.engine.table) sessions.items }
        requires all { all ≡ N.engine.clients }
        ensures { result ≡ sessions.items }
    {
        Clients {
            sessions,
            all,
            of: PhantomData,
        }
    }

    /// Returns their sessions, as `Engine::close` and `Engine::reopen` take them.
    pub fn into_sessions(self) -> Vec<Session>
        ensures sessions { result.items ≡ self }
        ensures tables { All (λ s. s.table ≡ N.engine.table) result.items }
    {
        self.sessions
    }

    /// Whether the list has as many clients as the engine, as `Engine::reopen` requires.
    pub fn are_all(&self) -> bool
        ensures { IsTrue result ↔ (length self.now ≡ N.engine.clients) }
    {
        self.sessions.len() == self.all as usize
    }

    /// Takes the last client off. Returns `None` exactly if the list is empty.
    pub fn pop(&mut self) -> Option<Client<N>>
        ensures last { IfSome result (λ client. self.old ≡ self.new ++ client ∷ []) }
        ensures none { IfNone result ((self.old ≡ []) × (self.new ≡ [])) }
    {
        Some(Client::of(self.sessions.pop()?))
    }

    /// Appends a client. Allocates only if there are more clients than ever before; if that allocation fails, the
    /// client is dropped and the list is unchanged.
    pub fn push(&mut self, client: Client<N>) -> Result<(), AllocError>
        ensures ok { OnOk result (self.new ≡ self.old ++ client ∷ []) }
        ensures err { OnErr result (self.new ≡ self.old) }
    {
        self.sessions.push(client.into_session())?;
        Ok(())
    }
}

impl<H: Place + Drop> Opening<H> {
    /// Starts the engine, and returns it with its clients, in order. `N` has to name this opening.
    pub fn start_clients<N: Name>(self) -> (Engine<N, H>, Clients<N>)
        requires named { N.engine ≡ name_of H.place_of self }
        ensures clients { AreNewSessions N.engine.table N.engine.clients result.1 }
    {
        let (engine, sessions) = self.start::<N>();
        let all = sessions.len() as u32;
        (engine, Clients::of(sessions, all))
    }
}
