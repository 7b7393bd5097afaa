//! A list of passes, each of which stays where it was made until its call is executed.
ghost use Rattle.std.specs.Prelude.{◌≡◌, ◌<◌, ◌≤◌, ◌-◌, [], IfNone, IfOk, IfSome, MatchBool, Some, length, slice_get};
ghost use Rattle.std.specs.Option.{option_map};
ghost use Rattle.vll_check.specs.Headline.Calls.{source as source_in};
ghost use Rattle.vll_check.specs.Calls.{Fits};
ghost use Rattle.vll_counters.specs.Shown.{PassShown};
ghost use Rattle.vll_engine.specs.Onto.{FindsAndBeginsOnto, HasOneMore, IsOfLast, IsOnto};
ghost use Rattle.vll_queue.specs.Admission.{IsSeatOf, begun};
ghost use Rattle.vll_queue.specs.Pass.{IsFresh, IsReleased};
ghost use Rattle.vll_queue.specs.declared.begun.Begun.TheVariants as Begun;
ghost use Rattle.vll_queue.specs.Shown.{library_of};

use crate::engine::Engine;
use crate::hold::Hold;
use std::alloc::{AllocError, Global};
use std::marker::{Model, PhantomData};
use vll_core::Ticket;
use vll_proc::Call;
use vll_queue::{Admission, BeginRefusal, Name, Pass, Released, Session, find};
use vll_record::RecordId;
use vll_sca::Place;

/// The result of beginning a call whose pass is appended to a list.
pub enum BegunOnto {
    /// Each claim was granted: the call may run, by the last pass of the list.
    Free,
    /// A claim was denied: the call waits under this ticket, until `next_front` or `next_scan` gives a pass for it.
    Blocked(Ticket),
    /// The call has not entered, and has no claim.
    Refused(BeginRefusal),
}

/// The most passes in a list of them.
pub const MOST_PASSES: usize = 16;

/// A list of up to `MOST_PASSES` passes of one engine, of calls that have made no step yet. A pass is made in the list
/// and stays there until its call is executed, so that the call is copied once. All memory is allocated when the list
/// is made. It can be dropped only if it is empty, by `destroy`. Contracts see what the passes know.
pub struct Passes<N: Name> {
    items: Vec<Pass>,
    of: PhantomData<N>,
}

impl<N: Name> Model for Passes<N> {
    ghost use Rattle.std.specs.Prelude.{◌≤◌, All, List, length, vec_capacity};
    ghost use Rattle.vll_counters.specs.Shown.{PassShown};
    ghost use Rattle.vll_queue.specs.Pass.{IsFresh};
    ghost use Rattle.vll_engine.specs.declared.passes.TheConstants.{MOST_PASSES};

    ghost Value = { List PassShown };

    ghost view = { λ p. p.items.items };

    ghost invariant = { λ p. All (IsFresh N.engine) p.items.items × (length p.items.items ≤ MOST_PASSES)
        × (MOST_PASSES ≤ vec_capacity p.items) };
}

impl<N: Name> Passes<N> {
    /// An empty list.
    pub fn new(alloc: Global) -> Result<Passes<N>, AllocError>
        ensures { IfOk result (λ p. p ≡ []) }
    {
        Ok(Passes {
            items: Vec::with_capacity(alloc, MOST_PASSES)?,
            of: PhantomData,
        })
    }

    /// The number of passes.
    pub fn len(&self) -> usize
        ensures count { result ≡ length self.now }
        ensures few { result ≤ MOST_PASSES }
    {
        self.items.len()
    }

    /// The ticket of the last pass; `None` if the list is empty.
    pub fn last(&self) -> Option<Ticket>
        ensures { result ≡ option_map (λ p. p.pass.ticket) (slice_get self.now (length self.now - 1)) }
    {
        Some(self.items.last()?.ticket())
    }

    /// Enters a call of the session's client under a hold, or refuses it, as `Engine::begin`, but the pass of a call that
    /// may run is appended to the list, which has room for it. If the call has an indirect key, its source is loaded
    /// under the hold.
    #[inline(always)]
    pub fn begin<H: Place + Drop>(
        &mut self,
        hold: &mut Hold<'_, N, H>,
        session: &mut Session,
        call: &Call,
    ) -> BegunOnto
        requires session { session.old.table ≡ N.engine.table }
        requires fits { Fits (library_of N.engine) call.now }
        requires room { length self.old < MOST_PASSES }
        ensures answer { FindsAndBeginsOnto N.engine session.old.session session.new.session call.now result self.old self.new }
        ensures given { session.new.session.given ≡ session.old.session.given }
        ensures session { session.new.table ≡ session.old.table }
    {
        match hold.library.source(call) {
            None => {
                let admission = hold.guard.admit(hold.words, session, call);
                self.push_admitted(call, admission)
            }
            Some(source) => self.find_and_begin(hold, session, call, source),
        }
    }

    // As `begin`, for a call with an indirect key. It is not inlined, so that other calls make no room for it.
    #[inline(never)]
    fn find_and_begin<H: Place + Drop>(
        &mut self,
        hold: &mut Hold<'_, N, H>,
        session: &mut Session,
        call: &Call,
        source: RecordId,
    ) -> BegunOnto
        requires session { session.old.table ≡ N.engine.table }
        requires fits { Fits (library_of N.engine) call.now }
        requires source { source_in (library_of N.engine) call.now ≡ Some source }
        requires there { source < (library_of N.engine).records }
        requires room { length self.old < MOST_PASSES }
        ensures answer { FindsAndBeginsOnto N.engine session.old.session session.new.session call.now result self.old self.new }
        ensures given { session.new.session.given ≡ session.old.session.given }
        ensures session { session.new.table ≡ session.old.table }
    {
        let call = find::<N>(hold.words, hold.library, session, call, source);
        let admission = hold.guard.admit(hold.words, session, &call);
        self.push_admitted(&call, admission)
    }

    // Appends the pass of a call that was admitted and may run. Returns what `begin` does.
    #[inline(always)]
    fn push_admitted(&mut self, call: &Call, admission: Admission) -> BegunOnto
        requires seat { IsSeatOf call.now admission }
        requires fresh { (p : PassShown) → begun admission ≡ Begun.Free p → IsFresh N.engine p }
        requires room { length self.old < MOST_PASSES }
        ensures { IsOnto (begun admission) result self.old self.new }
    {
        match admission {
            Admission::Free(seat, ticket) => {
                self.items.push_reserved(Pass::of(call, seat, ticket));
                BegunOnto::Free
            }
            Admission::Blocked(ticket) => BegunOnto::Blocked(ticket),
            Admission::Refused(why) => BegunOnto::Refused(why),
        }
    }

    /// Appends the pass of the lowest ticket that is not gone, if it waits, as `Engine::next_front`, to the list, which
    /// has room for it. Returns whether there is one.
    #[inline(always)]
    pub fn next_front<H: Place + Drop>(&mut self, hold: &mut Hold<'_, N, H>) -> bool
        requires room { length self.old < MOST_PASSES }
        ensures pass { MatchBool result (HasOneMore N.engine self.old self.new) (self.new ≡ self.old) }
    {
        let Some((seat, ticket)) = hold.guard.next_front(hold.words) else {
            return false;
        };
        hold.guard.push_pass(seat, ticket, &mut self.items);
        true
    }

    /// Appends the pass of the ticket that the contention analysis finds, if any, as `Engine::next_scan`, to the list,
    /// which has room for it. Returns whether there is one.
    ///
    /// If the scan may be put off, it may also return `false` though it would find a call. A scan that finds no call
    /// adds a debt of as many entries as calls wait. Finished calls pay it off, and so does each scan that is put off
    /// here; a scan is put off while much is owed and many calls wait, as `Knob` says: usually at most once in a
    /// row for each 64 that wait. So what such scans cost a call does not grow with the number of waiting calls. A caller
    /// that is about to leave the engine alone does not let it be put off.
    pub fn next_scan<H: Place + Drop>(
        &mut self,
        hold: &mut Hold<'_, N, H>,
        may_be_put_off: bool,
    ) -> bool
        requires room { length self.old < MOST_PASSES }
        ensures pass { MatchBool result (HasOneMore N.engine self.old self.new) (self.new ≡ self.old) }
    {
        let found = hold.guard.next_scan_if_due(hold.words, may_be_put_off);
        let Some((seat, ticket)) = found else {
            return false;
        };
        hold.guard.push_pass(seat, ticket, &mut self.items);
        true
    }

    /// Takes the last pass off, executes its call and releases the claims, as `Engine::execute` and then
    /// `Engine::release`, but without copying the call. Returns `None` exactly if the list is empty.
    #[inline(always)]
    pub fn run_last<H: Place + Drop>(&mut self, engine: &Engine<N, H>) -> Option<Released>
        ensures released { IfSome result (IsReleased N.engine) }
        ensures same { IfSome result (λ r. IsOfLast self.old self.new r.pass) }
        ensures none { IfNone result ((self.old ≡ []) × (self.new ≡ [])) }
    {
        let count = self.items.len();
        if count == 0 {
            return None;
        }
        let last = &mut self.items[count - 1];
        let reply = engine.run_in_place(last);
        let Some(pass) = self.items.pop() else {
            unreachable!()
        };
        Some(pass.into_released(reply))
    }

    /// Destroys an empty list.
    pub fn destroy(self)
        requires { self ≡ [] }
    {
        let Passes { items, of: _ } = self;
        items.destroy_empty();
    }
}
