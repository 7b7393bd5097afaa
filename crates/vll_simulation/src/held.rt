//! What a caller of the engine holds of its calls, by types that know the engine, so that nothing is to be proved where
//! they are kept.
ghost use Rattle.std.specs.Prelude.{◌≡◌, ◌<◌, IfSome, length};
ghost use Rattle.vll_check.specs.Calls.{Fits};
ghost use Rattle.vll_queue.specs.Pass.{IsFresh, IsReleased};
ghost use Rattle.vll_queue.specs.Shown.{library_of};

use crate::machine::Entry;
use std::marker::{Model, PhantomData};
use std::sync::Wait;
use vll_check::Library;
use vll_core::{Line, Ticket};
use vll_engine::{
    BeginRefusal, Begun, BegunOnto, Done, Engine, Hold, MOST_PASSES, Name, Pass, Passes, Released,
    Session,
};
use vll_proc::{Call, Reply};
use vll_sca::Placing;

// A call in hand.
pub(crate) enum InHand<N: Name> {
    Pass(Held<N>),
    Done(Executed<N>),
    Released(Let<N>),
}

// A pass of the engine of this name.
pub(crate) struct Held<N: Name> {
    pass: Pass,
    of: PhantomData<N>,
}

impl<N: Name> Model for Held<N> {
    ghost use Rattle.vll_counters.specs.Shown.{PassShown};
    ghost use Rattle.vll_queue.specs.Pass.{IsFresh};

    ghost Value = { PassShown };

    ghost view = { λ h. h.pass };

    ghost invariant = { λ h. IsFresh N.engine h.pass };
}

// A call of the engine of this name that was executed.
pub(crate) struct Executed<N: Name> {
    done: Done,
    of: PhantomData<N>,
}

impl<N: Name> Model for Executed<N> {
    ghost use Rattle.vll_queue.specs.Pass.{DoneShown, IsDone};

    ghost Value = { DoneShown };

    ghost view = { λ e. e.done };

    ghost invariant = { λ e. IsDone N.engine e.done };
}

// A call of the engine of this name that has released its claims.
pub(crate) struct Let<N: Name> {
    released: Released,
    of: PhantomData<N>,
}

impl<N: Name> Model for Let<N> {
    ghost use Rattle.vll_queue.specs.Pass.{DoneShown, IsReleased};

    ghost Value = { DoneShown };

    ghost view = { λ l. l.released };

    ghost invariant = { λ l. IsReleased N.engine l.released };
}

impl<N: Name> Held<N> {
    pub(crate) fn of(pass: Pass) -> Held<N>
        requires { IsFresh N.engine pass }
    {
        Held {
            pass,
            of: PhantomData,
        }
    }

    pub(crate) fn ticket(&self) -> u32 {
        self.pass.ticket().0
    }

    pub(crate) fn execute(self, engine: &Engine<N, Placing>) -> Executed<N> {
        let Held { pass, of: _ } = self;
        Executed {
            done: engine.execute(pass),
            of: PhantomData,
        }
    }
}

impl<N: Name> Executed<N> {
    pub(crate) fn ticket(&self) -> u32 {
        self.done.ticket().0
    }

    pub(crate) fn release(self, engine: &Engine<N, Placing>) -> Let<N> {
        let Executed { done, of: _ } = self;
        Let::of(engine.release(done))
    }
}

impl<N: Name> Let<N> {
    pub(crate) fn of(released: Released) -> Let<N>
        requires { IsReleased N.engine released }
    {
        Let {
            released,
            of: PhantomData,
        }
    }

    pub(crate) fn ticket(&self) -> u32 {
        self.released.ticket().0
    }

    pub(crate) fn reply(&self) -> Reply {
        self.released.reply()
    }

    pub(crate) fn into_released(self) -> Released
        ensures { IsReleased N.engine result }
    {
        let Let { released, of: _ } = self;
        released
    }
}

// A client of the engine of this name, with the calls of its script, of which `next` is the next.
#[derive(Drop)]
pub(crate) struct Caller<N: Name> {
    pub(crate) client: u32,
    session: Session,
    script: Vec<Call>,
    next: usize,
    of: PhantomData<N>,
}

impl<N: Name> Model for Caller<N> {
    ghost use Rattle.std.specs.Prelude.{◌≡◌};
    ghost use Rattle.vll_counters.specs.Shown.{SessionShown};

    ghost Value = { SessionShown };

    ghost view = { λ c. c.session };

    ghost invariant = { λ c. c.session.table ≡ N.engine.table };
}

impl<N: Name> Caller<N> {
    pub(crate) fn of(client: u32, session: Session, script: Vec<Call>) -> Caller<N>
        requires { session.table ≡ N.engine.table }
    {
        Caller {
            client,
            session,
            script,
            next: 0,
            of: PhantomData,
        }
    }

    pub(crate) fn into_session(self) -> Session
        ensures { result.table ≡ N.engine.table }
    {
        self.session
    }

    // Whether its script has a call left.
    pub(crate) fn has_call(&self) -> bool {
        self.next < self.script.len()
    }

    // Its next call begins, if there is one: what became of it, and its pass if it is free.
    pub(crate) fn begins(
        &mut self,
        wait: &impl Wait,
        engine: &Engine<N, Placing>,
    ) -> Option<(Entry, Option<Held<N>>)> {
        let call = call_at(engine.library(), &self.script, self.next)?;
        match engine.begin(wait, &mut self.session, call) {
            Begun::Free(pass) => {
                self.goes_on();
                let pass = Held::of(pass);
                Some((Entry::Free(pass.ticket()), Some(pass)))
            }
            Begun::Blocked(ticket) => {
                self.goes_on();
                Some((Entry::Blocked(ticket.0), None))
            }
            Begun::Refused(why) => Some((refused(why), None)),
        }
    }

    // As `begins`, under a hold: the pass is appended to the list, which has room.
    pub(crate) fn begins_under(
        &mut self,
        library: &Library,
        hold: &mut Hold<'_, N, Placing>,
        passes: &mut Passes<N>,
    ) -> Option<Entry>
        requires room { length passes.old < MOST_PASSES }
        requires library { library.now ≡ library_of N.engine }
    {
        let call = call_at(library, &self.script, self.next)?;
        match passes.begin(hold, &mut self.session, call) {
            BegunOnto::Free => {
                self.goes_on();
                Some(Entry::Free(passes.last()?.0))
            }
            BegunOnto::Blocked(ticket) => {
                self.goes_on();
                Some(Entry::Blocked(ticket.0))
            }
            BegunOnto::Refused(why) => Some(refused(why)),
        }
    }

    // Its next call is the one behind.
    fn goes_on(&mut self) {
        self.next = self.next.saturating_add(1);
    }

    // Its next call is made from its entry to its reply: its ticket and its reply, or `None` if the engine is spent or
    // the script has ended.
    pub(crate) fn makes(
        &mut self,
        wait: &impl Wait,
        engine: &Engine<N, Placing>,
    ) -> Option<(u32, Reply)> {
        let call = call_at(engine.library(), &self.script, self.next)?;
        match engine.call(wait, &mut self.session, call) {
            Ok((ticket, reply)) => {
                self.goes_on();
                Some((ticket.0, reply))
            }
            Err(_) => None,
        }
    }

    // Whether a look at the words of its next call finds each of its claims free, if the call has no indirect key.
    pub(crate) fn looks(&self, engine: &Engine<N, Placing>) -> Option<bool> {
        let call = call_at(engine.library(), &self.script, self.next)?;
        let is_free = engine.look(call);
        match engine.library().source(call) {
            Some(_) => None,
            None => Some(is_free),
        }
    }

    pub(crate) fn reply(
        &mut self,
        wait: &impl Wait,
        engine: &Engine<N, Placing>,
        ticket: u32,
    ) -> Option<Reply> {
        engine.reply(wait, &mut self.session, Ticket(ticket))
    }

    pub(crate) fn lines_from(
        &mut self,
        wait: &impl Wait,
        engine: &Engine<N, Placing>,
        from: u32,
        lines: &mut Vec<Line>,
    ) {
        engine.lines_from(wait, &mut self.session, Ticket(from), lines);
    }

    // This client tells the other one its news.
    pub(crate) fn tells(&mut self, engine: &Engine<N, Placing>, other: &mut Caller<N>) {
        let news = engine.tell(&mut self.session);
        engine.hear(&mut other.session, news);
    }
}

// The call at this place of a script, which the library makes.
fn call_at<'a>(library: &Library, script: &'a [Call], place: usize) -> Option<&'a Call>
    ensures { IfSome result (λ call. Fits library.now call.now) }
{
    let call = script.get(place)?;
    if library.fits(call) { Some(call) } else { None }
}

fn refused(why: BeginRefusal) -> Entry {
    match why {
        BeginRefusal::Spent => Entry::Spent,
        BeginRefusal::Busy => Entry::Busy,
    }
}
