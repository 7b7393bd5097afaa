//! Runs with drawn pacings: whatever the numbers are, each call is made, and once.
ghost use Rattle.std.specs.Prelude.{◌<◌, ◌≤◌};
ghost use Rattle.vll_queue.specs.Shown.{name_of};
ghost use Rattle.vll_sca.specs.Placing.{placing};

use crate::opening::opening;
use crate::runs::counts;
use rand_core::Rng;
use rand_pcg::Pcg32;
use std::marker::Brand;
use std::test::*;
use vll_engine::{Pacing, USUAL};

// The first seed, and how many are tried: each is a pacing with some number of workers.
const FIRST: u64 = 0;

const SEEDS: u64 = 200;

// The most workers of a run.
const MOST_AT_WORK: u32 = 8;

// Each number is none, one, a few, or as usual.
fn pacing(draw: &mut Pcg32) -> Pacing {
    let mut pacing = Pacing::usual();
    for (knob, usual) in USUAL {
        let number = match draw.next_u32() % 4 {
            0 => 0,
            1 => 1,
            2 => draw.next_u32() % 8,
            _ => usual,
        };
        pacing = pacing.with(knob, number);
    }
    pacing
}

// From 1 worker to the most.
fn at_work(draw: &mut Pcg32) -> u32
    ensures { (1 ≤ result) × (result ≤ MOST_AT_WORK) }
{
    1 + draw.next_u32() % MOST_AT_WORK
}

#[test]
fn each_call_is_made_at_any_pace(rt: HostRuntime) -> Result<(), Fail> {
    for seed in FIRST..FIRST + SEEDS {
        let mut draw = Pcg32::new(seed, 0);
        let pacing = pacing(&mut draw);
        let workers = at_work(&mut draw);
        let opening = opening(rt.alloc(), 1, 400, 4)?.with_pacing(pacing);
        counts::<Brand, HostRuntime>(&rt, rt.alloc(), opening, 4, 100, workers)?;
    }
    Ok(())
}
