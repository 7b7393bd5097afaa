//! A session: a client's way into the engine.
ghost use Rattle.std.specs.Prelude.{◌≡◌};

use std::marker::Model;
use vll_counters::SessionSeat;

/// A client's way into the engine: the calls begun with it are this client's, and there is one for each client.
/// Contracts see which of the entered calls it has seen, the tickets whose reply it was given, and the number of calls
/// that waited when it last left the lock.
#[derive(Drop)]
pub struct Session {
    pub(crate) client: u32,
    // The seat; it is `None` only while the session is at the lock.
    pub(crate) seat: Option<SessionSeat>,
}

impl Model for Session {
    ghost use Rattle.std.specs.Prelude.{◌≡◌, Some};
    ghost use Rattle.vll_counters.specs.Shown.{SessionShown};
    ghost use Rattle.vll_queue.specs.Shown.{shown_in};

    ghost Value = { SessionShown };

    ghost view = { λ s. shown_in s.seat };

    ghost invariant = { λ s. (s.seat ≡ Some (shown_in s.seat)) × ((shown_in s.seat).session.client ≡ s.client) };
}

impl Session {
    /// The session of a client's seat.
    pub fn of(client: u32, seat: SessionSeat) -> Session
        requires client { seat.session.client ≡ client }
        ensures { result ≡ seat }
    {
        Session {
            client,
            seat: Some(seat),
        }
    }

    /// The number of the client whose session it is.
    pub fn client(&self) -> u32
        ensures { result ≡ self.now.session.client }
    {
        self.client
    }
}
