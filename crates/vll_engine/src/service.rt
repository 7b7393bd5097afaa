//! What a program does with an engine, whatever its name.
ghost use Rattle.std.specs.Prelude.{◌≡◌};
ghost use Rattle.vll_counters.specs.Shown.{AreNewSessions};
ghost use Rattle.vll_queue.specs.Shown.{Named, name_of};
ghost use Rattle.vll_sca.specs.Placing.{placing};

use crate::clients::Clients;
use crate::engine::Engine;
use crate::opening::Opening;
use std::marker::Brand;
use vll_queue::Name;
use vll_sca::Placing;

/// What a program does with an engine, from its start to its end. `Opening::host` finds the name, so that the program
/// has nothing to prove about it.
pub trait Service {
    type Answer;

    /// What it requires of the opening, as the engine's name states it: nothing by default.
    ghost allows: { Self → Named → Type 0 } = { λ _ _. Unit {0} };

    /// What its answer promises, by the opening: nothing by default.
    ghost answers: { Self → Named → Self.Answer → Type 0 } = { λ _ _ _. Unit {0} };

    /// Runs the service on the engine and its clients, in order, which have seen nothing.
    fn host<N: Name>(self, engine: Engine<N, Placing>, clients: Clients<N>) -> Self::Answer
        requires allowed { allows self N.engine }
        requires clients { AreNewSessions N.engine.table N.engine.clients clients }
        ensures answered { answers self N.engine result };
}

impl Opening<Placing> {
    /// Starts the engine, runs a service on it, and returns the service's answer.
    pub fn host<S: Service>(self, service: S) -> S::Answer
        requires allowed { S.allows service (name_of placing self) }
        ensures answered { S.answers service (name_of placing self) result }
    {
        host_by::<Brand, S>(self, service)
    }
}

// Runs the service on the engine of this name.
fn host_by<N: Name, S: Service>(opening: Opening<Placing>, service: S) -> S::Answer
    requires named { N.engine ≡ name_of placing opening }
    requires allowed { S.allows service N.engine }
    ensures answered { S.answers service N.engine result }
{
    let (engine, clients) = opening.start_clients::<N>();
    service.host::<N>(engine, clients)
}
