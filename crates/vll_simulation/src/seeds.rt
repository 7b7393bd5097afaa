//! The tests: many seeds, each of which is a world and a schedule.
ghost use Rattle.std.specs.Prelude.{◌≡◌, ◌≤◌, All, IfOk, IfSome};
ghost use Rattle.vll_check.specs.Calls.{Fits};
ghost use Rattle.vll_queue.specs.Shown.{name_of};
ghost use Rattle.vll_sca.specs.Placing.{placing};

use crate::closing::{MOST_LIMIT, Next};
use crate::draw::{generator, members, one_of, pacing};
use crate::shown::Spot;
use crate::tally::Tally;
use crate::world::{Course, World};
use std::alloc::Global;
use std::marker::Brand;
use std::process::Abort;
use std::sync::Wait;
use std::test::*;
use vll_check::Library;
use vll_core::{Config, Core};
use vll_engine::{Name, Opening, Pacing};
use vll_proc::Call;
use vll_sca::Placing;
use vll_scenario::ScenarioParts;
use vll_test_procedures::parts_with;

// The first seed, how many are tried, and how many steps each engine has before what is left is settled. To try more, or one
// again that failed, change these.
const FIRST: u64 = 0;

const SEEDS: u64 = 5_000;

const STEPS: u32 = 100;

// The most engines of a seed, each of which continues from the records of the one before.
const MOST_ENGINES: u32 = 3;

// Makes the schedule of an engine, and closes or reopens it.
fn runs<N: Name, R: Wait + Abort>(
    rt: &R,
    alloc: Global,
    opening: Opening<Placing>,
    clients: u32,
    scripts: Vec<Vec<Call>>,
    core: Core<Placing>,
    course: Course,
) -> Result<(Option<Next>, Course), Fail>
    requires named { N.engine ≡ name_of placing opening }
    requires limit { opening.config.limit ≤ MOST_LIMIT }
    requires clients { opening.clients ≡ clients }
    ensures limit { IfOk result (λ ended. IfSome ended.0 (λ next. next.opening.config.limit ≤ MOST_LIMIT)) }
    ensures clients { IfOk result (λ ended. IfSome ended.0 (λ next. next.opening.clients ≡ clients)) }
{
    let mut world = World::<N>::new(alloc, opening, scripts, core, course)?;
    for _ in 0..STEPS {
        world.spot.step = world.spot.step.saturating_add(1);
        world = world.step(rt);
    }
    world.settles(rt);
    if one_of(&mut world.draw, 2) {
        let (next, course) = world.reopens(rt, clients);
        Ok((Some(next), course))
    } else {
        Ok((None, world.closes(rt)))
    }
}

// What the engines of a seed have in common: the scripts, and what the machine beside each is opened with.
#[derive(Drop)]
struct Common {
    clients: u32,
    scripts: Vec<Vec<Call>>,
    config: Config,
    placing: Placing,
}

impl Common {
    // The machine over these records, with its library.
    fn machine(
        &self,
        alloc: Global,
        library: Library,
        records: Vec<u64>,
    ) -> Result<Core<Placing>, Fail> {
        if library.records() as usize != records.len() {
            return Err(Fail::new("another number of records"));
        }
        let scripts = copied(alloc, &library, self.scripts.as_slice())?;
        let core = Core::open(alloc, records, library, scripts, self.config, self.placing)?;
        Ok(core)
    }
}

// What the first engine of a scenario begins with, and what all have in common. The machine has a library of its own, so
// the text is read twice.
fn first_of(alloc: Global, text: &str, pacing: Pacing) -> Result<(Next, Common), Fail>
    ensures limit { IfOk result (λ first. first.0.opening.config.limit ≤ MOST_LIMIT) }
    ensures clients { IfOk result (λ first. first.0.opening.clients ≡ first.1.clients) }
{
    let ScenarioParts {
        records,
        library,
        scripts,
        config,
        placing,
        ..
    } = parts_with(alloc, text)?;
    if config.limit > MOST_LIMIT {
        return Err(Fail::new("a limit that is too high"));
    }
    let clients = u32::try_from(scripts.len()).unwrap_or(u32::MAX);
    let same = Vec::from_slice(alloc, records.as_slice())?;
    let opening = Opening::new(alloc, records, library, config, placing, clients)?;
    let next = Next {
        opening: opening.with_pacing(pacing),
        records: same,
        library: parts_with(alloc, text)?.library,
    };
    let common = Common {
        clients,
        scripts,
        config,
        placing,
    };
    Ok((next, common))
}

// Makes the world of a seed and its schedule, engine after engine, and returns the tally with what has happened.
fn tries<R: Wait + Abort>(rt: &R, alloc: Global, seed: u64, tally: Tally) -> Result<Tally, Fail> {
    let mut draw = generator(seed);
    let text = members(alloc, &mut draw)?;
    let pacing = pacing(&mut draw);
    let (mut next, common) = first_of(alloc, text.as_str(), pacing)?;
    let clients = common.clients;
    let spot = Spot { seed, step: 0 };
    let mut course = Course { draw, spot, tally };
    for _ in 0..MOST_ENGINES {
        let Next {
            opening,
            records,
            library,
        } = next;
        let scripts = copied(alloc, &library, common.scripts.as_slice())?;
        let core = common.machine(alloc, library, records)?;
        let (ended, left) = runs::<Brand, R>(rt, alloc, opening, clients, scripts, core, course)?;
        course = left;
        next = match ended {
            Some(next) => next,
            None => return Ok(course.tally),
        };
    }
    Ok(course.tally)
}

// These scripts, of calls that the library makes.
fn copied(alloc: Global, library: &Library, scripts: &[Vec<Call>]) -> Result<Vec<Vec<Call>>, Fail>
    ensures { IfOk result (λ s. All (λ script. All (Fits library.now) script.items) s.items) }
{
    let mut copies = Vec::with_capacity(alloc, scripts.len())?;
    for script in scripts {
        copies.push(copied_script(alloc, library, script.as_slice())?)?;
    }
    Ok(copies)
}

// This script, of calls that the library makes.
fn copied_script(alloc: Global, library: &Library, script: &[Call]) -> Result<Vec<Call>, Fail>
    ensures { IfOk result (λ s. All (Fits library.now) s.items) }
{
    let mut copy = Vec::with_capacity(alloc, script.len())?;
    for call in script {
        if !library.fits(call) {
            return Err(Fail::new("a call of another library"));
        }
        copy.push(*call)?;
    }
    Ok(copy)
}

#[test]
fn each_step_of_an_engine_is_the_machines(rt: HostRuntime) -> Result<(), Fail> {
    let mut tally = Tally::new();
    for seed in FIRST..FIRST + SEEDS {
        tally = tries(&rt, rt.alloc(), seed, tally)?;
    }
    // Few seeds need not have all kinds.
    if SEEDS < 1_000 || tally.has_all() {
        Ok(())
    } else {
        Err(Fail::new("a kind of step was never made"))
    }
}
