//! News that an engine's sessions tell and hear.
ghost use Rattle.std.specs.Prelude.{◌≡◌};
ghost use Rattle.vll_queue.specs.News.{Hears};

use crate::engine::Engine;
use vll_queue::{Name, News, Session};
use vll_sca::Place;

impl<N: Name, H: Place + Drop> Engine<N, H> {
    /// Returns news of what the session has seen, as `Client::tell` says.
    pub fn tell(&self, session: &mut Session) -> News<N>
        requires session { session.old.table ≡ N.engine.table }
        ensures news { result.calls ≡ session.old.session.seen }
        ensures session { session.new ≡ session.old }
    {
        News::of(&self.words, session)
    }

    /// Makes the session hear news of this engine, as `Client::hear` says.
    pub fn hear(&self, session: &mut Session, news: News<N>)
        requires session { session.old.table ≡ N.engine.table }
        ensures heard { Hears session.old.session session.new.session news.calls }
        ensures session { session.new.table ≡ session.old.table }
    {
        news.reach(&self.words, session);
    }
}
