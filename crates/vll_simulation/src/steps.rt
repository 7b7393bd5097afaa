//! The steps of a schedule: each is made by the engine and by the machine, and both have to show the same.
use crate::draw::{at_most, below, one_of};
use crate::held::{Caller, Held, InHand, Let};
use crate::machine::{Entry, Start, enters, executes, finishes, releases, starts};
use crate::shown::are_lines;
use crate::under::makes_under_a_hold;
use crate::world::World;
use rand_pcg::Pcg32;
use std::process::Abort;
use std::sync::Wait;
use vll_engine::Name;

// More than the steps that finish all calls that a limit lets in.
const MOST_TURNS: u32 = 400;

impl<N: Name> World<N> {
    // Makes a step of a schedule, if it is possible now.
    pub(crate) fn step<R: Wait + Abort>(mut self, rt: &R) -> World<N> {
        match below(&mut self.draw, 16) {
            0 | 1 => self.begins(rt),
            2 => self.starts_front(rt),
            3 => self.scans(rt),
            4..=7 => self.goes_on(rt),
            8..=10 => self.holds(rt),
            11 => self.runs_last(rt),
            12 if one_of(&mut self.draw, 2) => self.shows_a_reply(rt),
            12 => self.shows_lines(rt),
            13 => self.tells_news(rt),
            14 => self.calls_alone(rt),
            _ => return self.closes_too_early(rt),
        }
        self
    }

    // Makes what is left: what is in hand is finished, what waits is started, until no call is left.
    pub(crate) fn settles<R: Wait + Abort>(&mut self, rt: &R) {
        for _ in 0..MOST_TURNS {
            self.spot.step = self.spot.step.saturating_add(1);
            if self.passes.len() != 0 {
                self.runs_last(rt);
            } else if !self.hand.is_empty() {
                self.goes_on(rt);
            } else if self.core.waiting() != 0 {
                self.starts_front(rt);
            } else {
                return;
            }
        }
    }

    // A client's next call begins.
    fn begins<R: Wait + Abort>(&mut self, rt: &R) {
        let World {
            engine,
            callers,
            core,
            draw,
            spot,
            tally,
            ..
        } = self;
        let Some(caller) = drawn(draw, callers) else {
            return;
        };
        let looked = caller.looks(engine);
        let Some((entry, pass)) = caller.begins(rt, engine) else {
            return;
        };
        let wanted = enters(core, caller.client);
        spot.same(rt, "an entry", entry, wanted);
        tally.enters(entry);
        if let (Some(looked), Entry::Free(_) | Entry::Blocked(_)) = (looked, entry) {
            spot.same(rt, "a look", looked, matches!(entry, Entry::Free(_)));
        }
        if let Some(pass) = pass {
            self.keeps(rt, InHand::Pass(pass));
        }
    }

    // The call at the front starts, if it waits.
    fn starts_front<R: Wait + Abort>(&mut self, rt: &R) {
        let wanted = starts(&mut self.core, Start::Front);
        self.tally.starts_front(wanted);
        match self.engine.next_front(rt) {
            Some(pass) => self.is_started(rt, Held::of(pass), wanted),
            None => self.spot.same(rt, "the front", None, wanted),
        }
    }

    // The call that a scan finds starts, if it finds one.
    fn scans<R: Wait + Abort>(&mut self, rt: &R) {
        let wanted = starts(&mut self.core, Start::Scan);
        self.tally.scans(wanted);
        match self.engine.next_scan(rt) {
            Some(pass) => self.is_started(rt, Held::of(pass), wanted),
            None => self.spot.same(rt, "a scan", None, wanted),
        }
    }

    fn is_started<R: Wait + Abort>(&mut self, rt: &R, pass: Held<N>, wanted: Option<u32>) {
        self.spot.same(rt, "a start", Some(pass.ticket()), wanted);
        self.keeps(rt, InHand::Pass(pass));
    }

    // Keeps a call in hand.
    fn keeps<R: Abort>(&mut self, rt: &R, call: InHand<N>) {
        let has_room = self.hand.len() < self.hand.capacity();
        self.spot
            .holds(rt, "there is no room for a call in hand", has_room);
        self.hand.push_reserved(call);
    }

    // A call in hand makes its next step: it is executed, releases its claims, or is finished.
    fn goes_on<R: Wait + Abort>(&mut self, rt: &R) {
        let count = self.hand.len();
        if count == 0 {
            return;
        }
        let call = self.hand.swap_remove(at_most(&mut self.draw, count - 1));
        match call {
            InHand::Pass(pass) => {
                executes(&mut self.core, pass.ticket());
                let done = pass.execute(&self.engine);
                self.keeps(rt, InHand::Done(done));
            }
            InHand::Done(done) => {
                releases(&mut self.core, done.ticket());
                let released = done.release(&self.engine);
                self.keeps(rt, InHand::Released(released));
            }
            InHand::Released(released) => self.ends(rt, released),
        }
    }

    // A released call is finished.
    fn ends<R: Wait + Abort>(&mut self, rt: &R, released: Let<N>) {
        let ticket = released.ticket();
        let (found, reply) = self.engine.finish(rt, released.into_released());
        self.spot
            .same(rt, "the ticket of a finished call", found.0, ticket);
        self.tally.replies(&reply);
        let wanted = finishes(&mut self.core, ticket);
        self.spot.same_reply(rt, &Some(reply), &wanted);
    }

    // Some steps under one hold.
    fn holds<R: Wait + Abort>(&mut self, rt: &R) {
        let World {
            engine,
            callers,
            passes,
            hand,
            core,
            draw,
            spot,
            tally,
            ..
        } = self;
        makes_under_a_hold(rt, *spot, engine, callers, passes, hand, core, draw, tally);
    }

    // The call of the last pass made under a hold is executed and releases its claims.
    fn runs_last<R: Abort>(&mut self, rt: &R) {
        let Some(ticket) = self.passes.last() else {
            return;
        };
        let ticket = ticket.0;
        if let Some(released) = self.passes.run_last(&self.engine) {
            executes(&mut self.core, ticket);
            releases(&mut self.core, ticket);
            let released = Let::of(released);
            self.spot.same(rt, "the ticket of the last pass", released.ticket(), ticket);
            self.keeps(rt, InHand::Released(released));
        }
    }

    // A client is given the reply of some ticket, or none.
    fn shows_a_reply<R: Wait + Abort>(&mut self, rt: &R) {
        let World {
            engine,
            callers,
            core,
            draw,
            spot,
            ..
        } = self;
        let index = at_most(draw, core.journal().len());
        let Some(caller) = drawn(draw, callers) else {
            return;
        };
        let reply = caller.reply(rt, engine, index as u32);
        let wanted = core.journal().get(index).and_then(|line| line.reply);
        spot.same_reply(rt, &reply, &wanted);
    }

    // A client is shown the lines from some ticket on.
    fn shows_lines<R: Wait + Abort>(&mut self, rt: &R) {
        let World {
            engine,
            callers,
            core,
            draw,
            spot,
            alloc,
            ..
        } = self;
        let index = at_most(draw, core.journal().len());
        let Some(caller) = drawn(draw, callers) else {
            return;
        };
        let Ok(mut lines) = Vec::with_capacity(*alloc, at_most(draw, 4)) else {
            return;
        };
        caller.lines_from(rt, engine, index as u32, &mut lines);
        let finished = core
            .journal()
            .iter()
            .skip(index)
            .take_while(|line| line.reply.is_some());
        let count = finished.count().min(lines.capacity());
        spot.same(rt, "the number of lines", lines.len(), count);
        are_lines(
            rt,
            *spot,
            lines.as_slice(),
            core.journal().get(index..).unwrap_or(&[]),
        );
    }

    // A client tells another one its news, which nothing shows.
    fn tells_news<R: Abort>(&mut self, rt: &R) {
        let Some(mut other) = self.callers.pop() else {
            return;
        };
        if let Some(caller) = drawn(&mut self.draw, &mut self.callers) {
            caller.tells(&self.engine, &mut other);
        }
        let is_kept = self.callers.push(other).is_ok();
        self.spot
            .holds(rt, "there is no room for a client", is_kept);
    }

    // Where no call is left, a client's next call is made from its entry to its reply.
    fn calls_alone<R: Wait + Abort>(&mut self, rt: &R) {
        let World {
            engine,
            callers,
            core,
            draw,
            spot,
            ..
        } = self;
        if core.running() != 0 || core.waiting() != 0 {
            return;
        }
        let Some(caller) = drawn(draw, callers) else {
            return;
        };
        if !caller.has_call() {
            return;
        }
        let made = caller.makes(rt, engine);
        let entry = made
            .as_ref()
            .map_or(Entry::Spent, |made| Entry::Free(made.0));
        spot.same(rt, "a call's entry", entry, enters(core, caller.client));
        if let Some((ticket, reply)) = made {
            executes(core, ticket);
            releases(core, ticket);
            spot.same_reply(rt, &Some(reply), &finishes(core, ticket));
        }
    }
}

// Some caller, if there is one.
pub(crate) fn drawn<'a, N: Name>(
    draw: &mut Pcg32,
    callers: &'a mut Vec<Caller<N>>,
) -> Option<&'a mut Caller<N>> {
    let count = callers.len();
    if count == 0 {
        return None;
    }
    callers.get_mut(at_most(draw, count - 1))
}
