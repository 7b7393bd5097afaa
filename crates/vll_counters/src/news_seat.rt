//! News from one session to another, under no lock.
ghost use Rattle.std.specs.Prelude.{◌≡◌};
ghost use Rattle.vll_counters.specs.News.{HasHeard};
ghost use Rattle.vll_counters.specs.Written.{longer};

use crate::session_seat::SessionSeat;
use crate::steps::{Hears, NewsComes, Tells};
use crate::views::SeatView;
use crate::words::Words;
use atomic_table::Seat;
use std::marker::Model;

/// The seat of news: it stands for entered calls, and can go to another thread. Contracts see these calls.
#[derive(Drop)]
pub struct NewsSeat {
    pub(crate) seat: Seat<(), SeatView>,
}

impl Model for NewsSeat {
    ghost use Rattle.std.specs.Prelude.{◌≡◌, []};
    ghost use Rattle.vll_counters.specs.History.{seat_view};
    ghost use Rattle.vll_counters.specs.News.{NewsShown, calls_of_view};
    ghost use Rattle.vll_counters.specs.declared.views.View.TheVariants.{News};

    ghost Value = { NewsShown };

    ghost view = { λ s. record { table = s.seat.table_id; calls = calls_of_view s.seat.me.0.view; past = s.seat.me.0.past } };

    ghost invariant = { λ s. s.seat.me ≡ (seat_view (News (calls_of_view s.seat.me.0.view)) s.seat.me.0.past, []) };
}

impl Words {
    /// Returns news of what the session has seen. Takes no lock, and leaves the session unchanged.
    pub fn tell(&self, session: &mut SessionSeat) -> NewsSeat
        requires same { session.old.table ≡ self.now.table }
        ensures session { session.new ≡ session.old }
        ensures news { result ≡ record { table = self.now.table; calls = session.old.session.seen; past = session.old.past } }
    {
        NewsSeat {
            seat: self.table.shared.split_seat::<Tells>(&mut session.seat),
        }
    }

    /// Makes the session hear news, by a load of the turn word, which needs no lock. It has then seen all calls that it
    /// had seen and all of the news, and no more calls of its own client than before.
    pub fn hear(&self, session: &mut SessionSeat, news: NewsSeat)
        requires same { (session.old.table ≡ self.now.table) × (news.table ≡ self.now.table) }
        ensures table { session.new.table ≡ session.old.table }
        ensures heard { HasHeard session.old.session session.new.session news.calls }
        ensures past { session.new.past ≡ longer session.old.past news.past }
    {
        let NewsSeat { seat } = news;
        self.table
            .shared
            .join_seat::<NewsComes>(&mut session.seat, seat);
        self.table.shared.load::<Hears>(&mut session.seat, 0);
    }
}
