//! Loading the source of a script's next call, and opening a turn for that call or for one that is passed in.
ghost use Rattle.std.specs.Prelude.{◌≡◌, ◌<◌, ◌≤◌, ◌↔◌, Err, Ok, IfSome, length};
ghost use Rattle.vll_check.specs.Calls.{Fits, IsReady};
ghost use Rattle.vll_core.specs.Machine.{entered, is_turn_of, next_call, ready, step, answer_of, waiting};
ghost use Rattle.vll_core.specs.Moves.{hand, move};
ghost use Rattle.vll_core.specs.Shown.{after, library_of, opening_of};
ghost use Rattle.vll_core.specs.declared.event.Event.TheVariants as event;
ghost use Rattle.vll_core.specs.declared.refusal.Refusal.TheVariants as Refusal;

use crate::machine::{Machine, OpenTurn};
use crate::refusal::Refusal;
use crate::seen::Seen;
use vll_check::Library;
use vll_proc::Call;
use vll_record::value_word;
use vll_sca::Place;

impl<H: Place> Machine<H> {
    /// Opens a turn for `call`, for a client that has a script, even an empty one; the script and the value kept for it
    /// do not change. Refused with `TurnOpen`, `Spent` or `Busy`, tested in this order, as for Enter. A refusal changes
    /// nothing. `library` is the one of the opening. Allocates nothing.
    pub fn enter(&mut self, library: &Library, client: u32, call: &Call) -> Result<(), Refusal>
        requires same { library.now ≡ library_of self.old }
        requires client { client < length self.old.state.scripts }
        requires ready { IsReady (library_of self.old) call.now }
        ensures answer { result ≡ entered (move (opening_of H.place_of self.old) self.old.state (hand client call.now)) }
        ensures state { self.new ≡ after self.old (move (opening_of H.place_of self.old) self.old.state (hand client call.now)) }
    {
        let _ = library;
        if self.turn.is_some() {
            return Err(Refusal::TurnOpen);
        }
        self.room()?;
        self.turn = Some(OpenTurn {
            client,
            call: *call,
            requested: 0,
            granted: true,
        });
        Ok(())
    }

    // Loads the source of the next call of a client's script, and keeps its value for the call.
    pub(crate) fn find(&mut self, library: &Library, client: u32) -> Result<Seen, Refusal>
        requires same { library.now ≡ library_of self.old }
        ensures answer { result ≡ answer_of (step (opening_of H.place_of self.old) self.old.state (event.Find client)) }
        ensures state { self.new ≡ after self.old (step (opening_of H.place_of self.old) self.old.state (event.Find client)) }
    {
        if self.is_turn_of(client) {
            return Err(Refusal::TurnOpen);
        }
        let Some(call) = self.next_call(client) else {
            return Err(Refusal::NoCall);
        };
        let Some(source) = library.source(&call) else {
            return Err(Refusal::OutOfStep);
        };
        let value = self.words[value_word(source)];
        self.kept[client as usize] = Some(value);
        Ok(Seen::Found(value))
    }

    // Opens a turn for the next call of a client's script.
    pub(crate) fn enter_next(&mut self, library: &Library, client: u32) -> Result<Seen, Refusal>
        requires same { library.now ≡ library_of self.old }
        ensures answer { result ≡ answer_of (step (opening_of H.place_of self.old) self.old.state (event.Enter client)) }
        ensures state { self.new ≡ after self.old (step (opening_of H.place_of self.old) self.old.state (event.Enter client)) }
    {
        if self.turn.is_some() {
            return Err(Refusal::TurnOpen);
        }
        let Some(call) = self.next_call(client) else {
            return Err(Refusal::NoCall);
        };
        self.room()?;
        let Some(call) = self.ready(library, client, &call) else {
            return Err(Refusal::OutOfStep);
        };
        self.turn = Some(OpenTurn {
            client,
            call,
            requested: 0,
            granted: true,
        });
        let index = client as usize;
        self.next[index] += 1;
        self.kept[index] = None;
        Ok(Seen::Opened)
    }

    // Reports whether a turn is open and it is that of `client`.
    fn is_turn_of(&self, client: u32) -> bool
        ensures { result ≡ is_turn_of client self.now.state.turn }
    {
        match self.turn {
            Some(turn) => turn.client == client,
            None => false,
        }
    }

    // Returns the next call of a client's script, if there is such a client and it has a call left.
    fn next_call(&self, client: u32) -> Option<Call>
        ensures call { result ≡ next_call self.now.state client }
        ensures fits { IfSome result (Fits (library_of self.now)) }
    {
        let index = client as usize;
        let script = self.scripts.get(index)?;
        script.get(self.next[index]).copied()
    }

    // Returns the next call of a client's script as it enters, or `None` if it has an indirect key and no value is kept
    // for it.
    fn ready(&self, library: &Library, client: u32, call: &Call) -> Option<Call>
        requires same { library.now ≡ library_of self.now }
        requires fits { Fits library.now call.now }
        requires client { client < length self.now.state.scripts }
        ensures call { result ≡ ready self.now.base self.now.state client call.now }
        ensures ready { IfSome result (IsReady library.now) }
    {
        let value = self.kept[client as usize];
        if library.source(call).is_none() {
            return Some(*call);
        }
        Some(library.with_found(call, value?))
    }

    // Checks whether one more call may enter: not if the entered calls have reached the limit, or the waiting ones the
    // cap.
    fn room(&self) -> Result<(), Refusal>
        ensures spent { result ≡ Err Refusal.Spent ↔ (self.now.limit ≤ length self.now.state.entries) }
        ensures busy { result ≡ Err Refusal.Busy ↔ ((length self.now.state.entries < self.now.limit) × (self.now.cap ≤ waiting self.now.state)) }
        ensures ok { result ≡ Ok tt ↔ ((length self.now.state.entries < self.now.limit) × (waiting self.now.state < self.now.cap)) }
    {
        if self.queue.is_spent() {
            return Err(Refusal::Spent);
        }
        if self.queue.is_busy() {
            return Err(Refusal::Busy);
        }
        Ok(())
    }
}
