//! A world: an engine with what its callers hold, and the machine beside it.
ghost use Rattle.std.specs.Prelude.{◌≡◌, All, IfSome};
ghost use Rattle.vll_queue.specs.Shown.{name_of};
ghost use Rattle.vll_sca.specs.Placing.{placing};

use crate::held::{Caller, InHand};
use crate::shown::Spot;
use crate::tally::Tally;
use rand_pcg::Pcg32;
use std::alloc::{AllocError, Global};
use std::test::Fail;
use vll_core::Core;
use vll_engine::{Engine, Name, Opening, Passes, Session};
use vll_proc::Call;
use vll_sca::Placing;

// An engine, its callers and what they hold, the machine beside it, and what draws the steps.
pub(crate) struct World<N: Name> {
    pub(crate) engine: Engine<N, Placing>,
    pub(crate) callers: Vec<Caller<N>>,
    // Passes made under holds.
    pub(crate) passes: Passes<N>,
    // Calls whose steps are made one by one.
    pub(crate) hand: Vec<InHand<N>>,
    pub(crate) core: Core<Placing>,
    pub(crate) draw: Pcg32,
    pub(crate) spot: Spot,
    pub(crate) tally: Tally,
    pub(crate) alloc: Global,
}

// What goes on from an engine of a seed to the next one.
#[derive(Drop)]
pub(crate) struct Course {
    pub(crate) draw: Pcg32,
    pub(crate) spot: Spot,
    pub(crate) tally: Tally,
}

// Room for as many calls as a limit lets in.
const MOST_IN_HAND: usize = 64;

impl<N: Name> World<N> {
    // The world of an opening, and of a machine that was opened alike.
    pub(crate) fn new(
        alloc: Global,
        opening: Opening<Placing>,
        scripts: Vec<Vec<Call>>,
        core: Core<Placing>,
        course: Course,
    ) -> Result<World<N>, Fail>
        requires { N.engine ≡ name_of placing opening }
    {
        let (engine, sessions) = started::<N>(opening);
        let callers = callers::<N>(alloc, sessions, scripts)?;
        let passes = Passes::new(alloc)?;
        let Ok(hand) = Vec::with_capacity(alloc, MOST_IN_HAND) else {
            passes.destroy();
            return Err(Fail::new("no memory"));
        };
        let Course { draw, spot, tally } = course;
        Ok(World {
            engine,
            callers,
            passes,
            hand,
            core,
            draw,
            spot,
            tally,
            alloc,
        })
    }
}

// The engine of an opening, and its sessions.
fn started<N: Name>(opening: Opening<Placing>) -> (Engine<N, Placing>, Vec<Session>)
    requires { N.engine ≡ name_of placing opening }
    ensures { All (λ s. s.table ≡ N.engine.table) result.1.items }
{
    opening.start::<N>()
}

// A caller for each session, with its script.
fn callers<N: Name>(
    alloc: Global,
    mut sessions: Vec<Session>,
    mut scripts: Vec<Vec<Call>>,
) -> Result<Vec<Caller<N>>, AllocError>
    requires { All (λ s. s.table ≡ N.engine.table) sessions.items }
{
    let mut callers = Vec::new(alloc);
    while let Some(script) = scripts.pop() {
        let client = u32::try_from(scripts.len()).unwrap_or(u32::MAX);
        let Some(session) = last_of::<N>(&mut sessions) else {
            return Err(AllocError);
        };
        callers.push(Caller::of(client, session, script))?;
    }
    Ok(callers)
}

// The last session of a list.
fn last_of<N: Name>(sessions: &mut Vec<Session>) -> Option<Session>
    requires { All (λ s. s.table ≡ N.engine.table) sessions.old.items }
    ensures session { IfSome result (λ s. s.table ≡ N.engine.table) }
    ensures others { All (λ s. s.table ≡ N.engine.table) sessions.new.items }
{
    sessions.pop()
}
