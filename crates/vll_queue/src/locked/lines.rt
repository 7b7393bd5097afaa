//! The lines of finished calls from a ticket on, as a session gets them under the lock.
ghost use Rattle.std.specs.Prelude.{◌≡◌, ◌+◌, ◌-◌, ◌++◌, Some, length, slice_get, vec_capacity};
ghost use Rattle.vll_core.specs.Queue.{IsQueued};
ghost use Rattle.vll_queue.specs.Finished.{AppendsFinished, finished, finished_from};
ghost use Rattle.vll_queue.specs.Sessions.{SawOthers};
ghost use Rattle.vll_queue.specs.Shown.{words_of};

use super::Locked;
use crate::name::Name;
use crate::session::Session;
use vll_core::{Line, Ticket};
use vll_counters::Words;
use vll_sca::Place;

impl<N: Name, H: Place> Locked<N, H> {
    /// Appends the lines of finished calls from a ticket on, as far as there is room. The session sees all calls that
    /// have entered.
    pub fn lines_from(
        &mut self,
        words: &Words,
        session: &mut Session,
        from: Ticket,
        lines: &mut Vec<Line>,
    )
        requires words { words.now ≡ words_of N.engine }
        requires session { session.old.table ≡ N.engine.table }
        ensures exact { lines.new.items ≡ lines.old.items ++ finished_from self.old from (vec_capacity lines.old - length lines.old.items) }
        ensures lines { AppendsFinished N.engine session.new.session.seen from lines.old.items lines.new.items }
        ensures ever { (k : _) → slice_get session.old.session.given k ≡ Some (from + (length lines.new.items - length lines.old.items)) → length lines.new.items ≡ vec_capacity lines.new }
        ensures room { vec_capacity lines.new ≡ vec_capacity lines.old }
        ensures given { session.new.session.given ≡ session.old.session.given }
        ensures session { (session.new.table ≡ session.old.table) × SawOthers session.old.session session.new.session }
        ensures queue { self.new ≡ self.old }
    {
        let Some(seat) = session.seat.take() else {
            unreachable!()
        };
        self.push_lines(from, lines);
        words.join_session(&mut self.seat, seat, None);
        session.seat = Some(words.give_session(&mut self.seat, None));
    }

    // Appends the lines from a ticket on, as far as their calls are gone and there is room.
    fn push_lines(&self, from: Ticket, lines: &mut Vec<Line>)
        ensures lines { lines.new.items ≡ lines.old.items ++ finished_from self.now from (vec_capacity lines.old - length lines.old.items) }
        ensures room { vec_capacity lines.new ≡ vec_capacity lines.old }
        ensures kept { IsQueued self.now }
    {
        if let Some(left) = self.queue.journal().get(from.0 as usize..) {
            push_finished(left, lines);
        }
    }
}

// Appends the lines at the front, as far as they have a reply and there is room.
fn push_finished(left: &[Line], lines: &mut Vec<Line>)
    ensures lines { lines.new.items ≡ lines.old.items ++ finished (vec_capacity lines.old - length lines.old.items) left.now }
    ensures room { vec_capacity lines.new ≡ vec_capacity lines.old }
{
    for line in left {
        if line.reply.is_none() || lines.len() == lines.capacity() {
            return;
        }
        lines.push_reserved(*line);
    }
}
