//! Draining a core: an open turn is closed, and each entered call is brought to its end.
ghost use Rattle.std.specs.Prelude.{◌≡◌, ◌≤◌};
ghost use Rattle.vll_core.specs.Drain.{IsAtEnd, IsDrained, most_events};
ghost use Rattle.vll_core.specs.Machine.{step};
ghost use Rattle.vll_core.specs.Private.Draining.{IsNext};
ghost use Rattle.vll_core.specs.Shown.{after, opening_of};

use crate::core_machine::Core;
use crate::event::Event;
use vll_sca::Place;

impl<H: Place> Core<H> {
    /// Closes an open turn by Claim and Admit, then finishes the lowest ticket that is not gone, by Front and its own
    /// steps, until all are gone; returns the number of events. Each of them is one that `step` accepts, and none is
    /// Find, Enter or Scan, so no state is stuck. At the end no turn is open, each record has the value that the
    /// entered calls give it one at a time in order of entry, and each counter is 0. There are at most three events for
    /// each claim of a call that is not gone, plus two for the call; and four for each claim of the open turn's call,
    /// plus three. Allocates nothing.
    pub fn drain(&mut self) -> u64
        ensures drained { IsDrained (opening_of H.place_of self.old) self.old.state self.new.state result }
        ensures few { result ≤ most_events self.old.state }
        ensures end { IsAtEnd self.new.base self.new.state }
        ensures fixed { self.new ≡ record self.old { state = self.new.state } }
    {
        let mut made = 0;
        while let Some(event) = self.machine.next_event() {
            self.make(event);
            made += 1;
        }
        made
    }

    // Makes an event that is not refused.
    fn make(&mut self, event: Event)
        requires next { IsNext (opening_of H.place_of self.old) self.old.state event }
        ensures state { self.new ≡ after self.old (step (opening_of H.place_of self.old) self.old.state event) }
    {
        if self.step(event).is_err() {
            unreachable!()
        }
    }
}
