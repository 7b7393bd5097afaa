//! News: what one session has seen, for another session.
ghost use Rattle.std.specs.Prelude.{◌≡◌};
ghost use Rattle.vll_queue.specs.News.{Hears};

use crate::name::Name;
use crate::session::Session;
use std::marker::{Model, PhantomData};
use vll_counters::{NewsSeat, Words};

/// A causality token: it stands for the calls that a client had seen when it was made. Each of them is ordered before
/// every call that a client enters after hearing the news. It takes no bytes, and can reach another thread in any way,
/// such as a channel or a lock. Contracts see the calls.
#[derive(Drop)]
pub struct News<N: Name> {
    seat: NewsSeat,
    of: PhantomData<N>,
}

impl<N: Name> Model for News<N> {
    ghost use Rattle.std.specs.Prelude.{◌≡◌};
    ghost use Rattle.vll_counters.specs.News.{NewsShown};

    ghost Value = { NewsShown };

    ghost view = { λ n. n.seat };

    ghost invariant = { λ n. n.seat.table ≡ N.engine.table };
}

impl<N: Name> News<N> {
    /// News of what the session has seen.
    pub fn of(words: &Words, session: &mut Session) -> News<N>
        requires words { words.now.table ≡ N.engine.table }
        requires session { session.old.table ≡ N.engine.table }
        ensures news { result.calls ≡ session.old.session.seen }
        ensures session { session.new ≡ session.old }
    {
        let Some(seat) = &mut session.seat else {
            unreachable!()
        };
        News {
            seat: words.tell(seat),
            of: PhantomData,
        }
    }

    /// Makes the session hear the news.
    pub fn reach(self, words: &Words, session: &mut Session)
        requires words { words.now.table ≡ N.engine.table }
        requires session { session.old.table ≡ N.engine.table }
        ensures heard { Hears session.old.session session.new.session self.calls }
        ensures session { session.new.table ≡ session.old.table }
    {
        let Some(seat) = &mut session.seat else {
            unreachable!()
        };
        words.hear(seat, self.seat);
    }
}
