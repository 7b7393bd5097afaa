//! Steps that a schedule makes under one hold of the engine's lock.
ghost use Rattle.std.specs.Prelude.{◌≡◌, ◌<◌, length};
ghost use Rattle.vll_queue.specs.Shown.{library_of};

use crate::draw::{below, one_of};
use crate::held::{Caller, InHand};
use crate::machine::{Start, enters, finishes, starts};
use crate::shown::Spot;
use crate::steps::drawn;
use crate::tally::Tally;
use rand_pcg::Pcg32;
use std::process::Abort;
use std::sync::Wait;
use vll_check::Library;
use vll_core::Core;
use vll_engine::{Engine, Hold, MOST_PASSES, Name, Passes};
use vll_sca::Placing;

// More than a scan is ever put off in a row here.
const MOST_PUT_OFF: u32 = 2_000;

// Up to five steps under one hold.
pub(crate) fn makes_under_a_hold<N: Name, R: Wait + Abort>(
    rt: &R,
    spot: Spot,
    engine: &Engine<N, Placing>,
    callers: &mut Vec<Caller<N>>,
    passes: &mut Passes<N>,
    hand: &mut Vec<InHand<N>>,
    core: &mut Core<Placing>,
    draw: &mut Pcg32,
    tally: &mut Tally,
) {
    let library = engine.library();
    let mut hold = engine.hold(rt);
    for _ in 0..below(draw, 6) {
        match below(draw, 6) {
            0 => finishes_under(rt, spot, &mut hold, hand, core),
            _ if passes.len() >= MOST_PASSES => {}
            1 => starts_front_under(rt, spot, &mut hold, passes, core),
            2 if one_of(draw, 2) => scans_under(rt, spot, &mut hold, passes, core),
            2 => scans_at_last_under(rt, spot, &mut hold, passes, core, tally),
            _ => match drawn(draw, callers) {
                Some(caller) => { begins_under(rt, spot, library, &mut hold, caller, passes, core) }
                None => {}
            },
        }
    }
}

fn begins_under<N: Name, R: Abort>(
    rt: &R,
    spot: Spot,
    library: &Library,
    hold: &mut Hold<'_, N, Placing>,
    caller: &mut Caller<N>,
    passes: &mut Passes<N>,
    core: &mut Core<Placing>,
)
    requires room { length passes.old < MOST_PASSES }
    requires library { library.now ≡ library_of N.engine }
{
    if let Some(entry) = caller.begins_under(library, hold, passes) {
        spot.same(rt, "an entry", entry, enters(core, caller.client));
    }
}

fn starts_front_under<N: Name, R: Abort>(
    rt: &R,
    spot: Spot,
    hold: &mut Hold<'_, N, Placing>,
    passes: &mut Passes<N>,
    core: &mut Core<Placing>,
)
    requires { length passes.old < MOST_PASSES }
{
    let found = if passes.next_front(hold) {
        passes.last().map(|ticket| ticket.0)
    } else {
        None
    };
    spot.same(rt, "the front", found, starts(core, Start::Front));
}

fn scans_under<N: Name, R: Abort>(
    rt: &R,
    spot: Spot,
    hold: &mut Hold<'_, N, Placing>,
    passes: &mut Passes<N>,
    core: &mut Core<Placing>,
)
    requires { length passes.old < MOST_PASSES }
{
    let found = if passes.next_scan(hold, false) {
        passes.last().map(|ticket| ticket.0)
    } else {
        None
    };
    spot.same(rt, "a scan", found, starts(core, Start::Scan));
}

// A scan that may be put off finds no call if there is none, and at last the one that there is.
fn scans_at_last_under<N: Name, R: Abort>(
    rt: &R,
    spot: Spot,
    hold: &mut Hold<'_, N, Placing>,
    passes: &mut Passes<N>,
    core: &mut Core<Placing>,
    tally: &mut Tally,
)
    requires { length passes.old < MOST_PASSES }
{
    let wanted = starts(core, Start::Scan);
    tally.scans(wanted);
    let most = if wanted.is_none() { 0 } else { MOST_PUT_OFF };
    match scans_at_last(hold, passes, most) {
        Some(times) => {
            tally.puts_off(times);
            let found = passes.last().map(|ticket| ticket.0);
            spot.same(rt, "a scan that may be put off", found, wanted);
        }
        None => spot.same(rt, "a scan that may be put off", None, wanted),
    }
}

// Scans until a call is found, at most so often after the first time. How often a scan was put off before it found one.
fn scans_at_last<N: Name>(
    hold: &mut Hold<'_, N, Placing>,
    passes: &mut Passes<N>,
    most: u32,
) -> Option<u32>
    requires { length passes.old < MOST_PASSES }
{
    for times in 0..=most {
        if passes.next_scan(hold, true) {
            return Some(times);
        }
    }
    None
}

// The last call in hand is finished, if it has released its claims.
fn finishes_under<N: Name, R: Abort>(
    rt: &R,
    spot: Spot,
    hold: &mut Hold<'_, N, Placing>,
    hand: &mut Vec<InHand<N>>,
    core: &mut Core<Placing>,
) {
    match hand.pop() {
        Some(InHand::Released(released)) => {
            let (ticket, reply) = (released.ticket(), released.reply());
            let found = hold.finish(released.into_released());
            spot.same(rt, "the ticket of a finished call", found.0, ticket);
            spot.same_reply(rt, &Some(reply), &finishes(core, ticket));
        }
        Some(call) => hand.push_reserved(call),
        None => {}
    }
}
