//! Tests of writers that get full or fail while a scenario is served or replayed.
ghost use Rattle.std.specs.Prelude.{◌≡◌};

use crate::asserts::{equal, holds};
use crate::streams::{Full, Narrow, Slow};
use crate::texts::{BLOCKED, BLOCKED_TEXT, TRANSFER, TRANSFER_TEXT};
use std::alloc::Global;
use std::sync::Wait;
use std::thread::Threads;
use vll_server::{Plain, ReplayFault, Scenario, ServeFault, read_scenario, replay, serve};
use vll_workers::OpenGate;

// The scenario made anew of its parts, as a program makes one that has them in memory.
fn remade(scenario: Scenario) -> Scenario
    ensures { result ≡ scenario }
{
    Scenario::from_parts(scenario.into_parts())
}

// What `serve` returns for the transfer, which is read a byte at a time, and made anew. None: it was not read.
fn served<R: Threads + Wait + Sync>(
    rt: &R,
    alloc: Global,
    narrow: &mut Narrow<'_>,
) -> Option<Result<(), ServeFault>> {
    let mut reader = Plain::new(Slow {
        text: TRANSFER.as_bytes(),
        breaks: false,
    });
    let Ok(scenario) = read_scenario(alloc, &mut reader) else {
        return None;
    };
    let mut writer = Plain::new(narrow);
    let scenario = remade(scenario);
    Some(serve(rt, rt, alloc, scenario, 1, &OpenGate, &mut writer))
}

// What `replay` returns for the blocked call, which is read a byte at a time.
fn replayed(alloc: Global, narrow: &mut Narrow<'_>) -> Result<(), ReplayFault> {
    let mut reader = Plain::new(Slow {
        text: BLOCKED.as_bytes(),
        breaks: false,
    });
    let mut writer = Plain::new(narrow);
    replay(alloc, &mut reader, &mut writer)
}

// Up to which capacity, from 0 on, a writer that gets full takes what it has room for of the transfer's text, and makes
// `serve` return `Write`.
fn served_short<R: Threads + Wait + Sync>(rt: &R, alloc: Global, full: Full) -> usize {
    let whole = TRANSFER_TEXT.len();
    for room in 0..whole {
        let mut narrow = Narrow::new(TRANSFER_TEXT, room, full, true);
        let answer = served(rt, alloc, &mut narrow);
        if answer != Some(Err(ServeFault::Write)) || !narrow.lacks(whole - room) {
            return room;
        }
    }
    whole
}

// As `served_short`, for the replay's text.
fn replayed_short(alloc: Global, full: Full) -> usize {
    let whole = BLOCKED_TEXT.len();
    for room in 0..whole {
        let mut narrow = Narrow::new(BLOCKED_TEXT, room, full, true);
        let answer = replayed(alloc, &mut narrow);
        if answer != Err(ReplayFault::Write) || !narrow.lacks(whole - room) {
            return room;
        }
    }
    whole
}

#[test]
fn serve_writes_a_byte_at_a_time_as_far_as_the_writer_takes_it(rt: HostRuntime) {
    equal(&rt, TRANSFER_TEXT.len(), 109);
    equal(&rt, served_short(&rt, rt.alloc(), Full::Fails), 109);
    equal(&rt, served_short(&rt, rt.alloc(), Full::TakesNothing), 109);
}

#[test]
fn serve_is_done_when_there_is_just_room(rt: HostRuntime) {
    let mut narrow = Narrow::new(TRANSFER_TEXT, 109, Full::Fails, true);
    let answer = served(&rt, rt.alloc(), &mut narrow);
    holds(&rt, answer == Some(Ok(())));
    holds(&rt, narrow.lacks(0));
}

#[test]
fn replay_writes_a_byte_at_a_time_as_far_as_the_writer_takes_it(rt: HostRuntime) {
    equal(&rt, BLOCKED_TEXT.len(), 324);
    equal(&rt, replayed_short(rt.alloc(), Full::Fails), 324);
    equal(&rt, replayed_short(rt.alloc(), Full::TakesNothing), 324);
}

#[test]
fn replay_is_done_when_there_is_just_room(rt: HostRuntime) {
    let mut narrow = Narrow::new(BLOCKED_TEXT, 324, Full::Fails, true);
    let answer = replayed(rt.alloc(), &mut narrow);
    holds(&rt, answer == Ok(()));
    holds(&rt, narrow.lacks(0));
}

#[test]
fn failing_flush_is_told_when_all_is_served(rt: HostRuntime) {
    let mut narrow = Narrow::new(TRANSFER_TEXT, 1_000, Full::Fails, false);
    let answer = served(&rt, rt.alloc(), &mut narrow);
    holds(&rt, answer == Some(Err(ServeFault::Write)));
    holds(&rt, narrow.lacks(0));
}

#[test]
fn failing_flush_is_told_when_all_is_replayed(rt: HostRuntime) {
    let mut narrow = Narrow::new(BLOCKED_TEXT, 1_000, Full::Fails, false);
    let answer = replayed(rt.alloc(), &mut narrow);
    holds(&rt, answer == Err(ReplayFault::Write));
    holds(&rt, narrow.lacks(0));
}
